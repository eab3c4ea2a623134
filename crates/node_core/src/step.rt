// What a courier does at a node.
ghost use Rattle.std.specs.Prelude.{◌≡◌, ℕ, true, false, None, Some, IfOk, IfSome, OnOk};
ghost use Rattle.courier_core.specs.declared.Message.TheVariants.{Ride};
ghost use Rattle.record_table.specs.Slots.{is_out, slot_at, process, group_name};
ghost use Rattle.node_state.specs.Wires.{posted};
ghost use Rattle.node_core.specs.declared.step.Step.TheVariants.{Again};
ghost use Rattle.node_core.specs.Advance.{site_of, is_stepped, needed, restarted, wanted_at, wanted, advanced, is_advanced};
ghost use Rattle.node_core.specs.MethodAsking.{left_to_do, waiting_for, CanWaitNext};
ghost use Rattle.node_core.specs.Conditions.{CanGoOn};

use courier_core::{Courier, Message};
use node_state::State;
use record_bag::{Bag, OpVector, Outcome, Site};
use std::alloc::Global;
use std::mem;
use unix_calls::{Entry, World};
use unix_names::{Name, NoMemory, NodeId, PIDS_PER_NODE, Pid};

/// What a courier does next, as contracts see it: it asks again, or it has left, waits or is done, with the line of the history, if there is one.
#[derive(Debug, Drop)]
pub enum Step {
    Again(Courier),
    Over(Option<Entry>),
}

/// What a courier does next, as long as it keeps its place: it asks again, rides to a node, waits for a record that is out, or lacks nothing.
#[derive(Clone, Copy, Debug, PartialEq, Eq)]
pub enum Next {
    Again,
    Ride(u32),
    Wait(Name),
    Over,
}

/// Where a decision at this node is made. None where the next process id is no number of 32 bits.
fn site_of(state: &State) -> Option<Site>
    ensures { IfSome result (λ site. site ≡ site_of state.now) }
{
    let first = state.id.checked_mul(PIDS_PER_NODE)?;
    let fresh = first.checked_add(state.serial)?;
    Some(Site {
        node: NodeId(state.id),
        fresh: Pid(fresh),
    })
}

/// A courier takes a process's record that rests here.
fn take_vproc(
    alloc: Global,
    state: &mut State,
    courier: &mut Courier,
    pid: Pid,
) -> Result<(), NoMemory>
    requires { is_out state.old.slots (process pid) ≡ false }
    ensures { OnOk result (is_stepped state.new (Again courier.new) ≡ wanted_at state.old courier.old (process pid) (slot_at state.old.slots (process pid))) }
{
    match state.slots.take_vproc(alloc, pid) {
        Ok(vproc) => match courier.bag.vprocs.put(pid, vproc) {
            Ok(_) => Ok(()),
            Err(_) => Err(NoMemory),
        },
        Err(refused) => Err(refused),
    }
}

/// A courier takes a group's record that rests here.
fn take_group(
    alloc: Global,
    state: &mut State,
    courier: &mut Courier,
    leader: Pid,
) -> Result<(), NoMemory>
    requires { is_out state.old.slots (group_name leader) ≡ false }
    ensures { OnOk result (is_stepped state.new (Again courier.new) ≡ wanted_at state.old courier.old (group_name leader) (slot_at state.old.slots (group_name leader))) }
{
    match state.slots.take_group(alloc, leader) {
        Ok(group) => match courier.bag.groups.put(leader, group) {
            Ok(_) => Ok(()),
            Err(_) => Err(NoMemory),
        },
        Err(refused) => Err(refused),
    }
}

/// A courier takes a record that rests here.
fn take(alloc: Global, state: &mut State, courier: &mut Courier, name: Name) -> Result<(), NoMemory>
    requires { is_out state.old.slots name ≡ false }
    ensures { OnOk result (is_stepped state.new (Again courier.new) ≡ wanted_at state.old courier.old name (slot_at state.old.slots name)) }
{
    match name {
        Name::V(pid) => take_vproc(alloc, state, courier, pid),
        Name::G(leader) => take_group(alloc, state, courier, leader),
    }
}

/// A courier takes a record that is here; else it is told where to ride or that it has to wait.
fn want(
    alloc: Global,
    state: &mut State,
    courier: &mut Courier,
    name: Name,
) -> Result<Next, NoMemory>
    ensures next { IfOk result (λ next. left_to_do state.new courier.new next ≡ wanted state.old courier.old name) }
    ensures out { IfOk result (λ next. CanWaitNext state.new next) }
{
    let home = state.home_of(name);
    if home != state.id {
        return Ok(Next::Ride(home));
    }
    if state.slots.is_out(name) {
        return Ok(Next::Wait(name));
    }
    take(alloc, state, courier, name)?;
    Ok(Next::Again)
}

/// A courier returns all that it holds and begins anew, with what it then knows that it wants.
fn restart(
    alloc: Global,
    state: &mut State,
    courier: &mut Courier,
    names: &[Name],
) -> Result<(), NoMemory>
    ensures { OnOk result (is_stepped state.new (Again courier.new) ≡ restarted state.old courier.old names.now) }
{
    courier.remember(names)?;
    let bag = mem::replace(&mut courier.bag, Bag::new(alloc));
    state.give_back_all(bag)
}

/// A courier whose job needs these names goes for the least that it lacks.
fn gather(
    alloc: Global,
    state: &mut State,
    courier: &mut Courier,
    names: &[Name],
) -> Result<Next, NoMemory>
    ensures next { IfOk result (λ next. left_to_do state.new courier.new next ≡ needed state.old courier.old names.now) }
    ensures out { IfOk result (λ next. CanWaitNext state.new next) }
{
    let Some(name) = courier.least_lacking(names) else {
        return Ok(Next::Over);
    };
    if courier.must_restart(name) {
        restart(alloc, state, courier, names)?;
        Ok(Next::Again)
    } else {
        want(alloc, state, courier, name)
    }
}

/// A courier rides to another node.
fn ride(state: &mut State, to: u32, courier: Courier) -> Result<Option<Entry>, NoMemory>
    ensures after { OnOk result (state.new ≡ posted state.old to (Ride courier)) }
    ensures entry { IfOk result (λ entry. entry ≡ None) }
{
    state.post(to, Message::Ride(courier))?;
    Ok(None)
}

/// A courier joins the line of those who wait for a record.
fn wait(state: &mut State, name: Name, courier: Courier) -> Result<Option<Entry>, NoMemory>
    requires { is_out state.old.slots name ≡ true }
    ensures after { OnOk result (state.new ≡ waiting_for state.old courier name) }
    ensures entry { IfOk result (λ entry. entry ≡ None) }
{
    match state.slots.wait(name, courier) {
        Ok(()) => Ok(None),
        Err(_) => Err(NoMemory),
    }
}

/// A courier goes on until it leaves, waits or is done.
pub(crate) fn advance<O: OpVector>(
    ops: &O,
    alloc: Global,
    world: &World,
    state: &mut State,
    mut courier: Courier,
) -> Result<Option<Entry>, NoMemory>
    requires { CanGoOn (O.fits ops.now) world.now (O.answer ops.now) state.old courier }
    ensures { IfOk result (λ entry. (n : ℕ) × (advanced world.now (O.answer ops.now) n state.old courier ≡ Some (is_advanced state.new entry))) }
{
    'asking: loop {
        let Some(site) = site_of(state) else {
            return Err(NoMemory);
        };
        let outcome = ops.decide(
            alloc,
            courier.image.pid,
            &courier.job,
            &courier.image.own,
            &mut courier.bag,
            site,
        );
        match outcome {
            Ok(Outcome::Done(done)) => {
                let Courier { image, bag, .. } = courier;
                return state.finish(alloc, world, image, bag, done);
            }
            Ok(Outcome::Away(node)) => return ride(state, node.0, courier),
            Ok(Outcome::Need(names)) => {
                match gather(alloc, state, &mut courier, names.as_slice())? {
                    Next::Again => {}
                    Next::Ride(to) => return ride(state, to, courier),
                    Next::Wait(name) => return wait(state, name, courier),
                    Next::Over => return Ok(None),
                }
            }
            Err(refused) => return Err(refused),
        }
    }
}
