// The names that a decision needs and that are not held.
ghost use Rattle.std.specs.Prelude.{◌≡◌, ◌∷◌, [], ℕ, take, slice_get, flat_map, OnOk, OnErr};
ghost use Rattle.decide_law.specs.Footprints.{with_name, is_none, with_living_group};
ghost use Rattle.decide_law.specs.MethodNeeds.{passed, not_before, wanted};

use record_bag::Bag;
use unix_names::{Name, NoMemory, Pid, Seq, is_before, is_living};

// How many of the first names come before this one.
fn passed(names: &[Name], name: Name) -> usize
    ensures { result ≡ passed name names.now }
{
    for (at, other) in names.iter().enumerate() {
        if !is_before(*other, name) {
            return at;
        }
    }
    names.len()
}

// Whether the name at a place does not come after this one.
fn stands(names: &[Name], at: usize, name: Name) -> bool
    ensures { result ≡ not_before name (slice_get names.now at) }
{
    match names.get(at) {
        None => false,
        Some(next) => !is_before(name, *next),
    }
}

// Puts a name in its place in a rising list, unless it is there.
fn add(names: &mut Seq<Name>, name: Name) -> Result<(), NoMemory>
    ensures ok { OnOk result (names.new ≡ with_name name names.old) }
    ensures err { OnErr result (names.new ≡ names.old) }
{
    let at = passed(names.as_slice(), name);
    if stands(names.as_slice(), at, name) {
        return Ok(());
    }
    names.insert(at, name)?;
    Ok(())
}

/// Puts a name in its place among those that are needed, unless it is held or there already.
pub fn want(names: &mut Seq<Name>, bag: &Bag, name: Name) -> Result<(), NoMemory>
    ensures ok { OnOk result (names.new ≡ wanted bag.now (name ∷ []) names.old) }
    ensures err { OnErr result (names.new ≡ names.old) }
{
    if bag.holds(name) {
        Ok(())
    } else {
        add(names, name)
    }
}

/// The same of a process and, once its record tells that it lives, of its group. After NoMemory the first of them may stand among the names.
pub fn want_living_group(names: &mut Seq<Name>, bag: &Bag, pid: Pid) -> Result<(), NoMemory>
    ensures ok { OnOk result (names.new ≡ wanted bag.now (with_living_group bag.now pid) names.old) }
    ensures err { OnErr result ((n : ℕ) × (names.new ≡ wanted bag.now (take n (with_living_group bag.now pid)) names.old)) }
{
    want(names, bag, Name::V(pid))?;
    match bag.vproc(pid) {
        Some(v) if is_living(v.life) => want(names, bag, Name::G(v.group)),
        _ => Ok(()),
    }
}

/// The same of each of these processes. After NoMemory the first of their names may stand among the others.
pub fn want_living_children(
    names: &mut Seq<Name>,
    bag: &Bag,
    children: &[Pid],
) -> Result<(), NoMemory>
    ensures ok { OnOk result (names.new ≡ wanted bag.now (flat_map (with_living_group bag.now) children.now) names.old) }
    ensures err { OnErr result ((n : ℕ) × (names.new ≡ wanted bag.now (take n (flat_map (with_living_group bag.now) children.now)) names.old)) }
{
    for child in children {
        want_living_group(names, bag, *child)?;
    }
    Ok(())
}

/// Whether no name is needed.
pub fn is_none(names: &Seq<Name>) -> bool
    ensures { result ≡ is_none names.now }
{
    matches!(names.as_slice(), [])
}
