// Why setpgid is refused.
ghost use Rattle.std.specs.Prelude.{◌≡◌, Some};
ghost use Rattle.record_bag.specs.Bags.{group_in};
ghost use Rattle.decide_law.specs.Told.{target_pid, wanted_group, has_child, target_in, is_own, is_execed_child, is_fixed, is_session_group, early_refusal};
ghost use Rattle.unix_calls.specs.Calls.{IsName};
ghost use Rattle.ops_groups.specs.Setpgid.{group_refusal, refusal_by, setpgid_refusal};

use record_bag::Bag;
use unix_names::{Errno, Pid, is_living};
use vproc_record::Vproc;

/// The process whose group is set, where 0 is the caller.
pub fn target_pid(v: &Vproc, target: u32) -> Pid
    ensures { result ≡ target_pid v.now target }
{
    if target == 0 { v.pid } else { Pid(target) }
}

/// The group that it gets, where 0 is its own pid.
pub fn wanted_group(v: &Vproc, target: u32, group: u32) -> Pid
    ensures { result ≡ wanted_group v.now target group }
{
    if group == 0 {
        target_pid(v, target)
    } else {
        Pid(group)
    }
}

/// Whether the process is a child of the caller, ended or not.
pub fn has_child(v: &Vproc, t: Pid) -> bool
    ensures { result ≡ has_child v.now t }
{
    v.children.as_slice().iter().any(|c| *c == t)
}

fn is_own(v: &Vproc, u: &Vproc) -> bool
    ensures { result ≡ is_own v.now u.now }
{
    u.pid == v.pid || (u.parent == v.pid && is_living(u.life))
}

fn is_execed_child(v: &Vproc, u: &Vproc) -> bool
    ensures { result ≡ is_execed_child v.now u.now }
{
    u.parent == v.pid && u.execed
}

// Whether the target leads its session, or is of another one than the caller.
fn is_fixed(v: &Vproc, u: &Vproc) -> bool
    ensures { result ≡ is_fixed v.now u.now }
{
    u.session == u.pid || u.session != v.session
}

fn target_refusal(v: &Vproc, u: &Vproc) -> Option<Errno>
    ensures { result ≡ early_refusal v.now (Some u.now) }
{
    if !is_own(v, u) {
        Some(Errno::ESRCH)
    } else if is_execed_child(v, u) {
        Some(Errno::EACCES)
    } else if is_fixed(v, u) {
        Some(Errno::EPERM)
    } else {
        None
    }
}

/// The refusal that the record of the target tells: ESRCH for who is neither the caller nor a living child of it, EACCES for a child that has done an exec, EPERM for one that leads its session or is of another.
pub fn early_refusal(bag: &Bag, v: &Vproc, t: Pid) -> Option<Errno>
    ensures { result ≡ early_refusal v.now (target_in bag.now v.now t) }
{
    if t == v.pid {
        return target_refusal(v, v);
    }
    if !has_child(v, t) {
        return Some(Errno::ESRCH);
    }
    match bag.vproc(t) {
        None => Some(Errno::ESRCH),
        Some(u) => target_refusal(v, u),
    }
}

fn is_session_group(bag: &Bag, v: &Vproc, id: Pid) -> bool
    ensures { result ≡ is_session_group v.now (group_in bag.now id) }
{
    match bag.group(id) {
        None => false,
        Some(g) => g.session == v.session,
    }
}

fn group_refusal(bag: &Bag, v: &Vproc, t: Pid, new: Pid) -> Option<Errno>
    ensures { result ≡ group_refusal bag.now v.now t new }
{
    if new != t && !is_session_group(bag, v, new) {
        Some(Errno::EPERM)
    } else {
        None
    }
}

fn refusal_by(bag: &Bag, v: &Vproc, t: Pid, new: Pid) -> Option<Errno>
    ensures { result ≡ refusal_by bag.now v.now t new }
{
    match early_refusal(bag, v, t) {
        None => group_refusal(bag, v, t, new),
        refused => refused,
    }
}

/// Why setpgid is refused: EINVAL for a negative group, what the record of the target tells, and EPERM for a group that is neither of the target's own pid nor of the caller's session.
pub fn setpgid_refusal(bag: &Bag, v: &Vproc, target: u32, group: i64) -> Option<Errno>
    requires { IsName group }
    ensures { result ≡ setpgid_refusal bag.now v.now target group }
{
    if group < 0 {
        return Some(Errno::EINVAL);
    }
    let t = target_pid(v, target);
    refusal_by(bag, v, t, wanted_group(v, target, group as u32))
}
