// Lists of process ids by process id.
ghost use Rattle.std.specs.Prelude.{◌≡◌, ◌⊎◌, [], IfOk, OnOk, OnErr};
ghost use Rattle.ordered_table.specs.Entries.{with_value};
ghost use Rattle.ordered_table.specs.Lists.{members_of, joined};

use crate::table::Table;
use std::alloc::Global;
use unix_names::{NoMemory, Pid, Seq};

/// Takes the list of an id out, to be put back. Where memory runs out nothing changes.
pub fn take_members(
    alloc: Global,
    lists: &mut Table<Seq<Pid>>,
    id: Pid,
) -> Result<Seq<Pid>, NoMemory>
    ensures members { IfOk result (λ members. members ≡ members_of lists.old id) }
    ensures emptied { OnOk result (lists.new ≡ with_value lists.old id []) }
    ensures err { OnErr result (lists.new ≡ lists.old) }
{
    match lists.put(id, Seq::new(alloc)) {
        Ok(Some(members)) => Ok(members),
        Ok(None) => Ok(Seq::new(alloc)),
        Err(_) => Err(NoMemory),
    }
}

/// Gives an id this list. Where memory runs out nothing changes.
pub fn put_members(lists: &mut Table<Seq<Pid>>, id: Pid, members: Seq<Pid>) -> Result<(), NoMemory>
    ensures ok { OnOk result (lists.new ≡ with_value lists.old id members) }
    ensures err { OnErr result (lists.new ≡ lists.old) }
{
    match lists.put(id, members) {
        Ok(_) => Ok(()),
        Err(_) => Err(NoMemory),
    }
}

/// A process joins the list of an id, at its end. Where memory runs out the lists are as they were, or the id's is empty.
#[tactic(auto, using(crate::proofs::MapLaws::with_value_again))]
pub fn join(alloc: Global, lists: &mut Table<Seq<Pid>>, id: Pid, pid: Pid) -> Result<(), NoMemory>
    ensures ok { OnOk result (lists.new ≡ joined id pid lists.old) }
    ensures err { OnErr result ((lists.new ≡ lists.old) ⊎ (lists.new ≡ with_value lists.old id [])) }
{
    let mut members = take_members(alloc, lists, id)?;
    members.push(pid)?;
    put_members(lists, id, members)
}
