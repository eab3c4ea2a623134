// How far each process of a history is in its script.
ghost use Rattle.std.specs.Prelude.{◌≡◌, ◌↔◌, Some, IsSome, IsTrue, IfOk, IfSome, OnOk};
ghost use Rattle.unix_calls.specs.Valid.{IsValid};
ghost use Rattle.unix_calls.specs.declared.World.{World as TheWorld};
ghost use Rattle.ordered_table.specs.Entries.{value_at};
ghost use Rattle.proc_image.specs.Images.{IsFit, progress_of};
ghost use Rattle.proc_image.specs.Scripts.{Progress, moved_on, next_child};
ghost use Rattle.proc_image.specs.Follows.{Running, first_running, put, with_child, after_call, after_entry, AsksNext, IsInOrder};
ghost use Rattle.audit_core.specs.Table.{running_of, IsKept, begun};

use ordered_table::Table;
use proc_image::Image;
use signal_state::{Own, Sig};
use std::alloc::Global;
use unix_calls::{Call, Entry, Phase, Reply, World};
use unix_names::{NOBODY, NoMemory, Pid, Seq};

/// Each start at the first statement of its script.
pub(crate) fn first_images(alloc: Global, world: &World) -> Result<Table<Image>, NoMemory>
    requires { IsValid world.now }
    ensures running { IfOk result (λ images. running_of images ≡ first_running world.now) }
    ensures kept { IfOk result (IsKept world.now) }
{
    let mut images = Table::new(alloc);
    let count = world.starts.len();
    for k in (0..count).rev() {
        let image = Image::start(alloc, world, k)?;
        add(&mut images, image)?;
    }
    Ok(images)
}

/// Whether a call is its process's next statement. An event may stand anywhere.
pub(crate) fn is_in_order(images: &Table<Image>, world: &World, entry: &Entry) -> bool
    requires { IsKept world.now images.now }
    ensures { IsTrue result ↔ IsInOrder world.now (running_of images.now) entry.now }
{
    match entry {
        Entry::Called { caller, call, .. } => asks_next(images, world, *caller, call),
        Entry::Happened { .. } => true,
    }
}

/// Moves the process of a call on, and begins the script of a child that was forked. An event moves none. After NoMemory the process may have moved on without its child.
pub(crate) fn move_on(
    images: &mut Table<Image>,
    alloc: Global,
    world: &World,
    entry: &Entry,
) -> Result<(), NoMemory>
    requires valid { IsValid world.now }
    requires kept { IsKept world.now images.old }
    requires in_order { IsInOrder world.now (running_of images.old) entry.now }
    ensures running { OnOk result (running_of images.new ≡ after_entry world.now (running_of images.old) entry.now) }
    ensures kept { OnOk result (IsKept world.now images.new) }
{
    match entry {
        Entry::Called {
            caller,
            call,
            reply,
        } => pass_call(images, alloc, world, *caller, call, reply),
        Entry::Happened { .. } => Ok(()),
    }
}

fn asks_next(images: &Table<Image>, world: &World, caller: Pid, call: &Call) -> bool
    requires { IsKept world.now images.now }
    ensures { IsTrue result ↔ AsksNext world.now caller call.now (running_of images.now caller.0) }
{
    match images.get(caller) {
        None => false,
        Some(image) => is_same(&image.next_call(world), call),
    }
}

fn is_same(call: &Call, other: &Call) -> bool
    ensures { IsTrue result ↔ (call.now ≡ other.now) }
{
    call == other
}

// Moves the caller on, and begins the script of its child.
fn pass_call(
    images: &mut Table<Image>,
    alloc: Global,
    world: &World,
    caller: Pid,
    call: &Call,
    reply: &Reply,
) -> Result<(), NoMemory>
    requires valid { IsValid world.now }
    requires kept { IsKept world.now images.old }
    requires in_order { AsksNext world.now caller call.now (running_of images.old caller.0) }
    ensures running { OnOk result (running_of images.new ≡ after_call world.now caller call.now reply.now (running_of images.old) (running_of images.old caller.0)) }
    ensures kept { OnOk result (IsKept world.now images.new) }
{
    let child = newborn(images, alloc, world, caller, call, reply)?;
    pass(images, alloc, world, caller, reply);
    match child {
        Some(child) => add(images, child),
        None => Ok(()),
    }
}

// The child of a fork that succeeded, with the caller's variables from before.
fn newborn(
    images: &Table<Image>,
    alloc: Global,
    world: &World,
    caller: Pid,
    call: &Call,
    reply: &Reply,
) -> Result<Option<Image>, NoMemory>
    requires valid { IsValid world.now }
    requires kept { IsKept world.now images.now }
    requires in_order { AsksNext world.now caller call.now (running_of images.now caller.0) }
    ensures child { IfOk result (λ child. (at : Progress) (others : Running) → running_of images.now caller.0 ≡ Some at → with_child world.now caller at call.now reply.now others ≡ begun child others) }
    ensures fits { IfOk result (λ child. IfSome child (IsFit world.now)) }
{
    match (call, reply) {
        (Call::Fork, Reply::Number(pid)) => {
            let child = child_of(images, alloc, world, caller, Pid(*pid))?;
            Ok(Some(child))
        }
        _ => Ok(None),
    }
}

// The child of a process that stands at a fork.
fn child_of(
    images: &Table<Image>,
    alloc: Global,
    world: &World,
    caller: Pid,
    pid: Pid,
) -> Result<Image, NoMemory>
    requires valid { IsValid world.now }
    requires kept { IsKept world.now images.now }
    requires forks { AsksNext world.now caller Call.Fork (running_of images.now caller.0) }
    ensures child { IfOk result (λ child. (at : Progress) (others : Running) → running_of images.now caller.0 ≡ Some at → put pid.0 (next_child world.now caller at) others ≡ begun (Some child) others) }
    ensures fits { IfOk result (IsFit world.now) }
{
    let Some(image) = images.get(caller) else {
        unreachable!()
    };
    image.child(alloc, world, pid)
}

// Moves one process on after the reply to its next statement.
fn pass(images: &mut Table<Image>, alloc: Global, world: &World, caller: Pid, reply: &Reply)
    requires valid { IsValid world.now }
    requires kept { IsKept world.now images.old }
    requires known { IsSome (value_at images.old caller) }
    ensures running { (at : Progress) → running_of images.old caller.0 ≡ Some at → running_of images.new ≡ put caller.0 (Some (moved_on world.now at reply.now)) (running_of images.old) }
    ensures kept { IsKept world.now images.new }
{
    let mut image = images.replace(caller, blank(alloc));
    image.after(world, *reply);
    images.replace(caller, image);
}

// An image of no process, which takes no memory: it stands in for one that is taken out of the table for a moment.
fn blank(alloc: Global) -> Image {
    Image {
        pid: NOBODY,
        maker: NOBODY,
        script: 0,
        position: 0,
        vars: Seq::new(alloc),
        phase: Phase::Gone,
        own: Own {
            sig: Sig::fresh(),
            taken: 0,
        },
    }
}

// Adds a process, or begins a pid anew.
fn add(images: &mut Table<Image>, image: Image) -> Result<(), NoMemory>
    ensures running { OnOk result (running_of images.new ≡ put image.pid.0 (Some (progress_of image)) (running_of images.old)) }
    ensures kept { OnOk result ((world : TheWorld) → IsKept world images.old → IsFit world image → IsKept world images.new) }
{
    match images.put(image.pid, image) {
        Ok(_) => Ok(()),
        Err(_) => Err(NoMemory),
    }
}
