// Images before and after a decision.
ghost use Rattle.std.specs.Prelude.{◌≡◌, IfOk};
ghost use Rattle.unix_calls.specs.Valid.{IsValid};
ghost use Rattle.proc_image.specs.Images.{IsFit};
ghost use Rattle.node_state.specs.Phases.{woken_phase, woken, asleep_if, phase_after, image_by, image_after, child_of};

use proc_image::Image;
use signal_state::Own;
use std::alloc::Global;
use unix_calls::{Entry, Phase, World};
use unix_names::NoMemory;
use vproc_record::Vproc;

fn woken_phase(phase: Phase) -> Phase
    ensures { result ≡ woken_phase phase }
{
    match phase {
        Phase::Asleep => Phase::Ready,
        other => other,
    }
}

/// The image of a process that was told to go on: who sleeps can run, who is stopped stays so.
pub fn woken(mut image: Image) -> Image
    ensures { result ≡ woken image }
{
    image.phase = woken_phase(image.phase);
    image
}

fn asleep_if(sleeps: bool, phase: Phase) -> Phase
    ensures { result ≡ asleep_if sleeps phase }
{
    match phase {
        Phase::Ready if sleeps => Phase::Asleep,
        other => other,
    }
}

fn phase_after(world: &World, image: &Image, phase: Phase, entry: &Entry) -> Phase
    ensures { result ≡ phase_after world.now image.now phase entry.now }
{
    match entry {
        Entry::Called { reply, .. } => asleep_if(image.stands_again(world, *reply), phase),
        Entry::Happened { .. } => phase,
    }
}

/// Moves the caller's image on by the line of the history.
fn advance(world: &World, image: &mut Image, phase: Phase, entry: &Entry)
    requires valid { IsValid world.now }
    requires fits { IsFit world.now image.old }
    ensures { image.new ≡ record (image_by world.now image.old entry.now) { phase = phase_after world.now image.old phase entry.now } }
{
    let next = phase_after(world, image, phase, entry);
    if let Entry::Called { reply, .. } = entry {
        image.after(world, *reply);
    }
    image.phase = next;
}

/// Moves the caller's image on after a decision.
pub fn move_on(world: &World, image: &mut Image, own: Own, phase: Phase, entry: &Option<Entry>)
    requires valid { IsValid world.now }
    requires fits { IsFit world.now image.old }
    ensures { image.new ≡ image_after world.now image.old own phase entry.now }
{
    match entry {
        Some(entry) => advance(world, image, phase, entry),
        None => image.phase = phase,
    }
    image.own = own;
}

/// The image of the process that was born, where the caller's next statement is a fork.
pub fn child_of(
    alloc: Global,
    world: &World,
    image: &Image,
    born: &Option<Vproc>,
) -> Result<Option<Image>, NoMemory>
    requires valid { IsValid world.now }
    requires fits { IsFit world.now image.now }
    ensures { IfOk result (λ child. child ≡ child_of world.now image.now born.now) }
{
    match born {
        Some(vproc) if image.forks(world) => Ok(Some(image.child(alloc, world, vproc.pid)?)),
        _ => Ok(None),
    }
}
