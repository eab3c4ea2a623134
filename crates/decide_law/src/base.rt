// What each decision is made on: the process's own record, and that of its group.
ghost use Rattle.std.specs.Prelude.{◌≡◌, ◌≤◌, length, Some, IfOk};
ghost use Rattle.vproc_record.specs.declared.Vproc.{Vproc as TheVproc};
ghost use Rattle.group_record.specs.declared.Group.{Group as TheGroup};
ghost use Rattle.sig_stream.specs.Streams.{stream};
ghost use Rattle.record_bag.specs.Bags.{vproc_in, group_in};
ghost use Rattle.decide_law.specs.Base.{base_outcome, folded_in};

use record_bag::{Bag, Outcome};
use sig_stream::fold_all;
use signal_state::Own;
use std::alloc::Global;
use unix_names::{Name, NoMemory, Pid, Seq};

/// What a process carries once it has taken its whole stream. None exactly where its record or that of its group is not held. It takes no memory.
pub fn folded(pid: Pid, own: &Own, bag: &Bag) -> Option<Own>
    requires { (v : TheVproc) (g : TheGroup) → vproc_in bag.now pid ≡ Some v → group_in bag.now v.group ≡ Some g → own.now.taken ≤ length (stream v g) }
    ensures { result ≡ folded_in own.now pid bag.now }
{
    let Some(v) = bag.vproc(pid) else {
        return None;
    };
    let Some(g) = bag.group(v.group) else {
        return None;
    };
    let mut folded = *own;
    fold_all(&mut folded, v, g);
    Some(folded)
}

/// Asks for the process's own record, and once that is held for the record of its group.
pub fn base_need(alloc: Global, pid: Pid, bag: &Bag) -> Result<Outcome, NoMemory>
    ensures { IfOk result (λ outcome. outcome ≡ base_outcome pid bag.now) }
{
    let name = match bag.vproc(pid) {
        None => Name::V(pid),
        Some(v) => Name::G(v.group),
    };
    let mut names = Seq::new(alloc);
    names.push(name)?;
    Ok(Outcome::Need(names))
}
