// The counts of links and of stopped members that a move may change, told before it and after it.
ghost use Rattle.std.specs.Prelude.{◌≡◌, ◌+◌, ◌-◌, ◌<◌, ◌≤◌, ◌^◌, length, IfOk};
ghost use Rattle.ops_groups.specs.MethodMove.{IsCounted, counts_in, counts_by_group, recounted_from};

use decide_law::{count_links, count_stopped};
use group_record::Group;
use record_bag::Bag;
use std::alloc::Global;
use unix_names::{NoMemory, Pid, Seq};

/// How many of some processes are links of a group, and how many are stopped members.
#[derive(Clone, Copy, Debug, PartialEq, Eq)]
pub struct Counts {
    pub links: usize,
    pub stopped: usize,
}

fn counts_in(bag: &Bag, near: &[Pid], id: Pid) -> Counts
    ensures { result ≡ counts_in bag.now near.now id }
{
    Counts {
        links: count_links(bag, id, near),
        stopped: count_stopped(bag, id, near),
    }
}

/// The counts of each group that is held, in their order.
///
/// # Errors
/// NoMemory where there is no room for the counts.
pub fn counts_by_group(alloc: Global, bag: &Bag, near: &[Pid]) -> Result<Seq<Counts>, NoMemory>
    ensures { IfOk result (λ counts. counts ≡ counts_by_group bag.now near.now bag.now.groups) }
{
    let mut counts = Seq::new(alloc);
    for held in bag.groups.as_slice() {
        counts.push(counts_in(bag, near, held.pid))?;
    }
    Ok(counts)
}

// A count, with so many more and so many fewer.
fn counted(count: u32, more: usize, fewer: usize) -> u32
    requires { count + more < 2 ^ 32 }
    ensures { result ≡ (count + more) - fewer }
{
    (count as u64 + more as u64).saturating_sub(fewer as u64) as u32
}

/// The group's counts once some of these processes have changed, from what they were before.
pub fn recount(later: &Bag, near: &[Pid], before: Counts, id: Pid, g: &mut Group)
    requires near { length near.now ≤ 65 }
    requires counted { IsCounted g.old }
    ensures { g.new ≡ recounted_from before later.now near.now id g.old }
{
    let after = counts_in(later, near, id);
    g.links = counted(g.links, after.links, before.links);
    g.stopped = counted(g.stopped, after.stopped, before.stopped);
}
