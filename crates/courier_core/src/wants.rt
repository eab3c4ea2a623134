// Lists of names that a courier wants.
ghost use Rattle.std.specs.Prelude.{◌≡◌, ◌++◌, fold, map, take, length, IfOk, OnOk, OnErr};
ghost use Rattle.unix_names.specs.declared.Name.TheVariants.{V, G};
ghost use Rattle.ordered_table.specs.Entries.{pids_of};
ghost use Rattle.record_bag.specs.Bags.{held_names};
ghost use Rattle.courier_core.specs.Wants.{is_name, lists, lesser, least_of, lacking, added, all_added};

use ordered_table::Entry;
use record_bag::Bag;
use unix_names::{Name, NoMemory, Seq, is_before};

/// Whether two names are one.
fn is_name(first: Name, second: Name) -> bool
    ensures { result ≡ is_name first second }
{
    match (first, second) {
        (Name::V(p), Name::V(q)) => p.0 == q.0,
        (Name::G(g), Name::G(h)) => g.0 == h.0,
        _ => false,
    }
}

/// The lesser of a name and the least one so far.
fn lesser(least: Option<Name>, name: Name) -> Name
    ensures { result ≡ lesser least name }
{
    match least {
        Some(least) if !is_before(name, least) => least,
        _ => name,
    }
}

/// The least of these names that the bag lacks, and of the least one so far.
pub fn least_lacking(bag: &Bag, least: Option<Name>, names: &[Name]) -> Option<Name>
    ensures { result ≡ least_of least (lacking bag.now names.now) }
{
    let mut least = least;
    for name in names {
        if !bag.holds(*name) {
            least = Some(lesser(least, *name));
        }
    }
    least
}

fn lists(names: &[Name], name: Name) -> bool
    ensures { result ≡ lists names.now name }
{
    names.iter().any(|listed| is_name(*listed, name))
}

/// Puts a name last, unless it is listed.
fn add(wants: &mut Seq<Name>, name: Name) -> Result<(), NoMemory>
    ensures ok { OnOk result (wants.new ≡ added wants.old name) }
    ensures err { OnErr result (wants.new ≡ wants.old) }
{
    if !lists(wants.as_slice(), name) {
        wants.push(name)?;
    }
    Ok(())
}

/// Puts each of these names last that is not listed, in order. Where memory runs out, some of them may have come; what was listed stays at the front.
pub fn add_all(wants: &mut Seq<Name>, names: &[Name]) -> Result<(), NoMemory>
    ensures ok { OnOk result (wants.new ≡ all_added wants.old names.now) }
    ensures front { take (length wants.old) wants.new ≡ wants.old }
{
    for name in names {
        add(wants, *name)?;
    }
    Ok(())
}

fn add_vprocs<T>(wants: &mut Seq<Name>, vprocs: &[Entry<T>]) -> Result<(), NoMemory>
    ensures ok { OnOk result (wants.new ≡ all_added wants.old (map V (pids_of vprocs.now))) }
    ensures front { take (length wants.old) wants.new ≡ wants.old }
{
    for entry in vprocs {
        add(wants, Name::V(entry.pid))?;
    }
    Ok(())
}

fn add_groups<T>(wants: &mut Seq<Name>, groups: &[Entry<T>]) -> Result<(), NoMemory>
    ensures ok { OnOk result (wants.new ≡ all_added wants.old (map G (pids_of groups.now))) }
    ensures front { take (length wants.old) wants.new ≡ wants.old }
{
    for entry in groups {
        add(wants, Name::G(entry.pid))?;
    }
    Ok(())
}

/// Puts the needed names last that are not listed, and after them the held ones.
pub fn add_needed_and_held(wants: &mut Seq<Name>, need: &[Name], bag: &Bag) -> Result<(), NoMemory>
    ensures ok { OnOk result (wants.new ≡ all_added wants.old (need.now ++ held_names bag.now)) }
    ensures front { take (length wants.old) wants.new ≡ wants.old }
{
    add_all(wants, need)?;
    add_vprocs(wants, bag.vprocs.as_slice())?;
    add_groups(wants, bag.groups.as_slice())
}
