// The children that a waitpid names, and what they have to report.
ghost use Rattle.std.specs.Prelude.{◌≡◌, ◌==◌, find};
ghost use Rattle.std.specs.List.{list_any};
ghost use Rattle.std.specs.Option.{option_copied};
ghost use Rattle.record_bag.specs.Bags.{vproc_in};
ghost use Rattle.kernel_rules.specs.Wait.{asked_change, report_of};
ghost use Rattle.decide_law.specs.Counts.{passes};
ghost use Rattle.decide_law.specs.Told.{has_child, selects, is_ready, first_child};

use record_bag::Bag;
use unix_calls::Selector;
use unix_names::{Life, Pid, WaitStatus};
use vproc_record::Vproc;

/// Which children a waitpid names, and whether it asks for stops and for continuings.
#[derive(Clone, Copy, Debug, PartialEq, Eq)]
pub struct Search {
    pub selector: Selector,
    pub stopped: bool,
    pub continued: bool,
}

/// Whether a process is a child of this one.
pub fn has_child(v: &Vproc, child: Pid) -> bool
    ensures { result ≡ has_child v.now child }
{
    v.children.as_slice().iter().any(|c| *c == child)
}

fn selects(v: &Vproc, selector: Selector, child: &Vproc) -> bool
    ensures { result ≡ selects v.now selector child.now }
{
    match selector {
        Selector::Any => true,
        Selector::OwnGroup => child.group == v.group,
        Selector::One(pid) => child.pid == pid,
        Selector::InGroup(group) => child.group == group,
    }
}

fn selects_at(bag: &Bag, v: &Vproc, selector: Selector, child: Pid) -> bool
    ensures { result ≡ passes (selects v.now selector) (vproc_in bag.now child) }
{
    match bag.vproc(child) {
        None => false,
        Some(child) => selects(v, selector, child),
    }
}

/// Whether the selector names a child whose record is held. It takes no memory.
pub fn has_match(bag: &Bag, v: &Vproc, selector: Selector) -> bool
    ensures { result ≡ list_any (λ c. passes (selects v.now selector) (vproc_in bag.now c)) v.now.children }
{
    v.children
        .as_slice()
        .iter()
        .any(|child| selects_at(bag, v, selector, *child))
}

fn asked_change(change: Option<WaitStatus>, stopped: bool, continued: bool) -> Option<WaitStatus>
    ensures { result ≡ asked_change change stopped continued }
{
    match change {
        Some(WaitStatus::Stopped(_)) if stopped => change,
        Some(WaitStatus::Continued) if continued => change,
        _ => None,
    }
}

/// What a child has to report: its end, or a change that is asked for. None where it has nothing to report.
pub fn report_of(child: &Vproc, stopped: bool, continued: bool) -> Option<WaitStatus>
    ensures { result ≡ report_of child.now.life child.now.change stopped continued }
{
    match child.life {
        Life::Ended(status) => Some(status),
        Life::Runs | Life::Stopped => asked_change(child.change, stopped, continued),
    }
}

fn is_ready(v: &Vproc, search: Search, child: &Vproc) -> bool
    ensures { result ≡ is_ready v.now search.selector search.stopped search.continued child.now }
{
    selects(v, search.selector, child)
        && report_of(child, search.stopped, search.continued).is_some()
}

fn is_ready_at(bag: &Bag, v: &Vproc, search: Search, child: Pid) -> bool
    ensures { result ≡ passes (is_ready v.now search.selector search.stopped search.continued) (vproc_in bag.now child) }
{
    match bag.vproc(child) {
        None => false,
        Some(child) => is_ready(v, search, child),
    }
}

fn ready_child(bag: &Bag, v: &Vproc, search: Search) -> Option<Pid>
    ensures { result ≡ find (λ c. passes (is_ready v.now search.selector search.stopped search.continued) (vproc_in bag.now c)) v.now.children }
{
    v.children
        .as_slice()
        .iter()
        .copied()
        .find(|child| is_ready_at(bag, v, search, *child))
}

/// The first child, in order of creation, that the selector names and that has something to report. It takes no memory.
pub fn first_ready<'a>(bag: &'a Bag, v: &Vproc, search: Search) -> Option<&'a Vproc>
    ensures { option_copied result ≡ first_child bag.now v.now (is_ready v.now search.selector search.stopped search.continued) }
{
    match ready_child(bag, v, search) {
        None => None,
        Some(child) => bag.vproc(child),
    }
}
