// The state of a node before the first turn.
ghost use Rattle.std.specs.Prelude.{◌≡◌, ◌≤◌, ◌<◌, ◌+◌, ◌++◌, [], false, length, slice_get, IfOk, OnOk};
ghost use Rattle.unix_calls.specs.Valid.{IsValid, starts_at};
ghost use Rattle.std.specs.Option.{option_map_or};
ghost use Rattle.list_laws.specs.Keyed.{Distinct};
ghost use Rattle.node_core.specs.First.{led_number, led_by, led_starts, first_vproc, first_group, with_first, first_slots, is_at, ready_from, first_state};

use crate::led::Led;
use courier_core::Courier;
use group_record::{Group, Member, Members};
use node_state::{ReadyQueue, State, Waiting};
use ordered_table::SparseTable;
use proc_image::Image;
use record_bag::Held;
use record_table::Slots;
use std::alloc::Global;
use unix_calls::{Start, World};
use unix_names::{Life, Name, NoMemory, NodeId, Pid, SYSTEM, Seq};
use vproc_record::{Children, Vproc};

fn led_by(earlier: &[Led], start: Start) -> Led
    ensures { result ≡ led_by earlier.now start }
{
    let joined = start.joined.and_then(|number| earlier.get(number));
    let leader = match joined {
        Some(led) => led.leader,
        None => start.pid,
    };
    Led { start, leader }
}

/// The starts of a world, each with who leads its group and session.
fn led_starts(alloc: Global, world: &World) -> Result<Seq<Led>, NoMemory>
    ensures { IfOk result (λ led. led ≡ led_starts world.now) }
{
    let mut all = Seq::new(alloc);
    let starts = world.starts.as_slice();
    for start in starts {
        let led = led_by(all.as_slice(), *start);
        all.push(led)?;
    }
    Ok(all)
}

fn first_vproc(alloc: Global, led: &Led) -> Vproc
    ensures { result ≡ first_vproc led.now }
{
    Vproc {
        pid: led.start.pid,
        parent: SYSTEM,
        group: led.leader,
        session: led.leader,
        uid: led.start.uid,
        life: Life::Runs,
        change: None,
        execed: false,
        ignchld: false,
        loc: led.start.node,
        children: Children::new(alloc),
        backlog: Seq::new(alloc),
    }
}

fn first_group(alloc: Global, all: &[Led], leader: Pid) -> Result<Group, NoMemory>
    requires { Distinct led_number all.now }
    ensures { IfOk result (λ group. group ≡ first_group all.now leader) }
{
    let mut members = Members::new(alloc);
    for led in all {
        if led.leader.0 == leader.0 {
            members.add(Member {
                pid: led.start.pid,
                from: 0,
                uid: led.start.uid,
            })?;
        }
    }
    Ok(Group {
        id: leader,
        session: leader,
        members,
        log: Seq::new(alloc),
        links: 0,
        stopped: 0,
    })
}

/// The record of a start of a node comes to its home, and that of the group that it leads.
fn add_first(
    alloc: Global,
    id: u32,
    all: &[Led],
    slots: &mut Slots<Courier>,
    led: &Led,
) -> Result<(), NoMemory>
    requires { Distinct led_number all.now }
    ensures { OnOk result (slots.new ≡ with_first id all.now slots.old led.now) }
{
    if led.start.node.0 != id {
        return Ok(());
    }
    slots.create(first_vproc(alloc, led))?;
    if led.leader.0 == led.start.pid.0 {
        let group = first_group(alloc, all, led.leader)?;
        slots.rest(Name::G(led.leader), Held::G(Some(group)))?;
    }
    Ok(())
}

fn first_slots(alloc: Global, id: u32, all: &[Led]) -> Result<Slots<Courier>, NoMemory>
    requires { Distinct led_number all.now }
    ensures { IfOk result (λ slots. slots ≡ first_slots id all.now (record { vprocs = []; groups = [] }) all.now) }
{
    let mut slots = Slots::new(alloc);
    for led in all {
        add_first(alloc, id, all, &mut slots, led)?;
    }
    Ok(slots)
}

/// The image of a start joins the queue, if the start is one of this node.
fn add_start(
    alloc: Global,
    world: &World,
    id: u32,
    k: usize,
    ready: &mut ReadyQueue,
) -> Result<(), NoMemory>
    requires valid { IsValid world.now }
    requires start { k < length world.now.starts }
    ensures { OnOk result (ready.new ++ ready_from world.now id (k + 1) ≡ ready.old ++ ready_from world.now id k) }
{
    let image = Image::start(alloc, world, k)?;
    if !is_at(world, id, k) {
        return Ok(());
    }
    ready.push(Waiting::Image(image))
}

/// Whether a start is one of a node.
fn is_at(world: &World, id: u32, k: usize) -> bool
    ensures { result ≡ option_map_or (is_at id) (slice_get world.now.starts k) false }
{
    match world.starts.get(k) {
        Some(start) => start.node.0 == id,
        None => false,
    }
}

/// The images of a node's starts, in their order.
fn first_ready(alloc: Global, world: &World, id: u32) -> Result<ReadyQueue, NoMemory>
    requires { IsValid world.now }
    ensures { IfOk result (λ ready. ready ≡ ready_from world.now id 0) }
{
    let mut ready = ReadyQueue::new(alloc);
    for k in 0..world.starts.len() {
        add_start(alloc, world, id, k, &mut ready)?;
    }
    Ok(ready)
}

/// How many starts a node has.
fn starts_at(starts: &[Start], id: NodeId) -> u32
    requires { length starts.now ≤ 64 }
    ensures { result ≡ starts_at id starts.now }
{
    starts.iter().filter(|start| start.node.0 == id.0).count() as u32
}

/// A node before the first turn: its own starts are ready, and their records are at home.
pub fn first_state(alloc: Global, world: &World, id: NodeId) -> Result<State, NoMemory>
    requires { IsValid world.now }
    ensures { IfOk result (λ state. state ≡ first_state world.now id.0) }
{
    let all = led_starts(alloc, world)?;
    let numbers = world.nodes as usize;
    Ok(State {
        id: id.0,
        nodes: world.nodes,
        slots: first_slots(alloc, id.0, all.as_slice())?,
        ready: first_ready(alloc, world, id.0)?,
        parked: SparseTable::new(alloc),
        marks: SparseTable::new(alloc),
        serial: 2 + starts_at(world.starts.as_slice(), id),
        sent: Seq::from_vec(vec![in alloc; 0; numbers]?),
        taken: Seq::from_vec(vec![in alloc; 0; numbers]?),
        out: Seq::new(alloc),
    })
}
