// What a waitpid finds, and which records it needs for that.
ghost use Rattle.std.specs.Prelude.{◌≡◌, ◌∷◌, [], Some, IsSome, IfOk, OnOk, flat_map};
ghost use Rattle.vproc_record.specs.declared.Vproc.{Vproc as TheVproc};
ghost use Rattle.record_bag.specs.Bags.{vproc_in};
ghost use Rattle.decide_law.specs.Told.{is_ready, first_child};
ghost use Rattle.decide_law.specs.Footprints.{selected_footprint, ended_group_shown, wait_footprint};
ghost use Rattle.decide_law.specs.MethodNeeds.{wanted};
ghost use Rattle.ops_exit_wait.specs.MethodWaitpid.{finding_of, finding};

use crate::children::{Search, first_ready, has_child, has_match, report_of};
use decide_law::{is_none, want};
use record_bag::Bag;
use std::alloc::Global;
use unix_calls::Selector;
use unix_names::{Name, NoMemory, Pid, Seq, WaitStatus, is_living};
use vproc_record::Vproc;

/// What a waitpid finds among the children that it names.
#[derive(Clone, Copy, Debug, PartialEq, Eq)]
pub enum Found {
    /// There is none.
    NoChild,
    /// None has anything to report.
    Nothing,
    /// One has stopped or continued.
    Change {
        child: Pid,
        status: WaitStatus,
    },
    /// One has ended, as a member of this group.
    End {
        child: Pid,
        group: Pid,
        status: WaitStatus,
    },
}

fn finding_of(child: &Vproc, report: Option<WaitStatus>) -> Found
    ensures { result ≡ finding_of child.now report }
{
    match report {
        None => Found::Nothing,
        Some(status) if is_living(child.life) => Found::Change {
            child: child.pid,
            status,
        },
        Some(status) => Found::End {
            child: child.pid,
            group: child.group,
            status,
        },
    }
}

fn finding(bag: &Bag, v: &Vproc, search: Search) -> Found
    ensures { result ≡ finding bag.now v.now search.selector search.stopped search.continued }
{
    if !has_match(bag, v, search.selector) {
        return Found::NoChild;
    }
    match first_ready(bag, v, search) {
        None => Found::Nothing,
        Some(child) => finding_of(child, report_of(child, search.stopped, search.continued)),
    }
}

/// What a waitpid of this process finds. It takes no memory.
pub fn find_child(bag: &Bag, pid: Pid, search: Search) -> Found
    requires { IsSome (vproc_in bag.now pid) }
    ensures { (v : TheVproc) → vproc_in bag.now pid ≡ Some v → result ≡ finding bag.now v search.selector search.stopped search.continued }
{
    match bag.vproc(pid) {
        Some(v) => finding(bag, v, search),
        None => unreachable!(),
    }
}

fn want_children(names: &mut Seq<Name>, bag: &Bag, children: &[Pid]) -> Result<(), NoMemory>
    ensures { OnOk result (names.new ≡ wanted bag.now (flat_map (λ c. Name.V c ∷ []) children.now) names.old) }
{
    for child in children {
        want(names, bag, Name::V(*child))?;
    }
    Ok(())
}

fn want_selected(
    names: &mut Seq<Name>,
    bag: &Bag,
    v: &Vproc,
    selector: Selector,
) -> Result<(), NoMemory>
    ensures { OnOk result (names.new ≡ wanted bag.now (selected_footprint v.now selector) names.old) }
{
    match selector {
        Selector::One(child) => {
            if has_child(v, child) {
                want(names, bag, Name::V(child))?;
            }
            Ok(())
        }
        Selector::Any | Selector::OwnGroup | Selector::InGroup(_) => {
            want_children(names, bag, v.children.as_slice())
        }
    }
}

fn want_ended_group(
    names: &mut Seq<Name>,
    bag: &Bag,
    v: &Vproc,
    search: Search,
) -> Result<(), NoMemory>
    ensures { OnOk result (names.new ≡ wanted bag.now (ended_group_shown (first_child bag.now v.now (is_ready v.now search.selector search.stopped search.continued))) names.old) }
{
    if let Some(child) = first_ready(bag, v, search) {
        if !is_living(child.life) {
            want(names, bag, Name::G(child.group))?;
        }
    }
    Ok(())
}

fn names_for(alloc: Global, bag: &Bag, v: &Vproc, search: Search) -> Result<Seq<Name>, NoMemory>
    ensures { IfOk result (λ names. names ≡ wanted bag.now (wait_footprint bag.now v.now search.selector search.stopped search.continued) []) }
{
    let mut names = Seq::new(alloc);
    want_selected(&mut names, bag, v, search.selector)?;
    if !is_none(&names) {
        return Ok(names);
    }
    want_ended_group(&mut names, bag, v, search)?;
    Ok(names)
}

/// The names that a waitpid of this process needs and that are not held.
pub fn wait_names(alloc: Global, bag: &Bag, pid: Pid, search: Search) -> Result<Seq<Name>, NoMemory>
    requires { IsSome (vproc_in bag.now pid) }
    ensures { (v : TheVproc) → vproc_in bag.now pid ≡ Some v → IfOk result (λ names. names ≡ wanted bag.now (wait_footprint bag.now v search.selector search.stopped search.continued) []) }
{
    match bag.vproc(pid) {
        Some(v) => names_for(alloc, bag, v, search),
        None => unreachable!(),
    }
}
