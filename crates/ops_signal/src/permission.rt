// Whom a process may signal, and why it may not.
ghost use Rattle.std.specs.Prelude.{◌≡◌};
ghost use Rattle.std.specs.List.{list_any};
ghost use Rattle.record_bag.specs.Bags.{vproc_in, group_in};
ghost use Rattle.kernel_rules.specs.Kill.{is_sendable, is_system};
ghost use Rattle.ops_signal.specs.Kill.{continues, may_user, may_process, may_member, allowed, is_nobody, process_forbidden, group_forbidden, is_forbidden, kill_refusal};

use group_record::{Allow, Group, Member};
use record_bag::Bag;
use unix_calls::Target;
use unix_names::{Errno, Pid, SYSTEM, Signal, number_of, signal_of};
use vproc_record::Vproc;

/// The user id of the superuser.
const SUPERUSER: u32 = 0;

/// Whether a number is 0, which sends nothing, or a signal's.
pub fn is_sendable(sig: u32) -> bool
    ensures { result ≡ is_sendable sig }
{
    sig == 0 || signal_of(sig).is_some()
}

// Whether the signal continues a process of this session, which is the caller's.
fn continues(sig: u32, v: &Vproc, session: Pid) -> bool
    ensures { result ≡ continues sig v.now session }
{
    sig == number_of(Signal::Cont) && session == v.session
}

fn may_user(v: &Vproc, uid: u32, within: bool) -> bool
    ensures { result ≡ may_user v.now uid within }
{
    v.uid == SUPERUSER || v.uid == uid || within
}

fn may_process(v: &Vproc, sig: u32, u: &Vproc) -> bool
    ensures { result ≡ may_process v.now sig u.now }
{
    may_user(v, u.uid, continues(sig, v, u.session))
}

fn may_member(v: &Vproc, sig: u32, g: &Group, m: &Member) -> bool
    ensures { result ≡ may_member v.now sig g.now m.now }
{
    may_user(v, m.uid, continues(sig, v, g.session))
}

/// Which user ids a signal to a whole group is for.
pub fn allowed(v: &Vproc, sig: u32, g: &Group) -> Allow
    ensures { result ≡ allowed v.now sig g.now }
{
    if v.uid == SUPERUSER || continues(sig, v, g.session) {
        Allow::All
    } else {
        Allow::Uid(v.uid)
    }
}

fn is_system(target: Target) -> bool
    ensures { result ≡ is_system target }
{
    match target {
        Target::One(t) => t == SYSTEM,
        Target::OwnGroup | Target::InGroup(_) => false,
    }
}

fn is_nobody(bag: &Bag, target: Target) -> bool
    ensures { result ≡ is_nobody bag.now target }
{
    match target {
        Target::OwnGroup => false,
        Target::One(t) => bag.vproc(t).is_none(),
        Target::InGroup(id) => bag.group(id).is_none(),
    }
}

fn process_forbidden(bag: &Bag, v: &Vproc, sig: u32, t: Pid) -> bool
    ensures { result ≡ process_forbidden v.now sig (vproc_in bag.now t) }
{
    match bag.vproc(t) {
        None => false,
        Some(u) => !may_process(v, sig, u),
    }
}

fn may_some_member(v: &Vproc, sig: u32, g: &Group) -> bool
    ensures { result ≡ list_any (may_member v.now sig g.now) g.now.members }
{
    g.members
        .as_slice()
        .iter()
        .any(|m| may_member(v, sig, g, m))
}

fn group_forbidden(bag: &Bag, v: &Vproc, sig: u32, id: Pid) -> bool
    ensures { result ≡ group_forbidden v.now sig (group_in bag.now id) }
{
    match bag.group(id) {
        None => false,
        Some(g) => !may_some_member(v, sig, g),
    }
}

fn is_forbidden(bag: &Bag, v: &Vproc, target: Target, sig: u32) -> bool
    ensures { result ≡ is_forbidden bag.now v.now target sig }
{
    match target {
        Target::OwnGroup => false,
        Target::One(t) => process_forbidden(bag, v, sig, t),
        Target::InGroup(id) => group_forbidden(bag, v, sig, id),
    }
}

/// Why a kill is refused: EINVAL for a number that is no signal's, EPERM for the system process, ESRCH where the target names nobody, EPERM where the caller may signal none of those that it names.
pub fn kill_refusal(bag: &Bag, v: &Vproc, target: Target, sig: u32) -> Option<Errno>
    ensures { result ≡ kill_refusal bag.now v.now target sig }
{
    if !is_sendable(sig) {
        Some(Errno::EINVAL)
    } else if is_system(target) {
        Some(Errno::EPERM)
    } else if is_nobody(bag, target) {
        Some(Errno::ESRCH)
    } else if is_forbidden(bag, v, target, sig) {
        Some(Errno::EPERM)
    } else {
        None
    }
}
