// A world and a schedule are read, and what stands in the way is told.
ghost use Rattle.std.specs.Prelude.{◌≡◌, ◌≤◌, ◌+◌, IfOk, length};
ghost use Rattle.byte_ends.specs.Text.{lines};
ghost use Rattle.byte_ends.specs.declared.limits.TheConstants.{LONGEST_INPUT};
ghost use Rattle.file_parts.specs.Parts.{IsPartOf, world_lines, front_lines, schedule_lines, history_lines};
ghost use Rattle.given_files.specs.Input.{IfBad, Means, IsFault, IsRun, CanBeRun, IsFaultOfRun, schedule_first, history_first, turns_given as turns_in};
ghost use Rattle.given_files.specs.MethodFound.{meaning};
ghost use Rattle.given_files.specs.MethodReading.{IsReading, AreParts};

use file_parts::{Parts, Span, split};
use run_text::read_schedule;
use script_reader::read_file;
use script_words::{Kind, ReadRefusal, bad};
use std::alloc::Global;
use unix_calls::{MOST_TURNS, Turn, World};
use unix_names::Seq;

/// A world, and the turns of its schedule.
#[derive(Debug, Drop)]
pub struct Given {
    pub world: World,
    pub turns: Seq<Turn>,
}

/// What an input means that is to be run, or its least fault: behind a world and a schedule the line that divides off a history is one.
#[tactic(auto, using(crate::proofs::FewTurns::can_run))]
pub fn read_runnable(alloc: Global, input: &[u8]) -> Result<Given, ReadRefusal>
    requires { length input.now ≤ LONGEST_INPUT }
    ensures run { IfOk result (IsRun input.now) }
    ensures can { IfOk result CanBeRun }
    ensures fault { IfBad result (IsFaultOfRun input.now) }
{
    let (given, history) = read_given(alloc, input)?;
    match history {
        None => Ok(given),
        // Its dividing line stands before it.
        Some(part) => Err(bad(part.first_line - 1, Kind::UnknownWord)),
    }
}

/// What an input means, and where its history part stands; or its least fault.
pub fn read_given(alloc: Global, input: &[u8]) -> Result<(Given, Option<Span>), ReadRefusal>
    requires { length input.now ≤ LONGEST_INPUT }
    ensures means { IfOk result (λ r. Means input.now r.0) }
    ensures history { IfOk result (λ r. IsPartOf input.now (history_lines (lines input.now)) (history_first input.now) r.1) }
    ensures fault { IfBad result (IsFault input.now) }
{
    let parts = split(input);
    let given = given_in(alloc, input, &parts)?;
    Ok((given, parts.history))
}

// The world and the schedule of an input whose parts these are.
fn given_in(alloc: Global, input: &[u8], parts: &Parts) -> Result<Given, ReadRefusal>
    requires short { length input.now ≤ LONGEST_INPUT }
    requires parts { AreParts input.now parts.now }
    ensures { IsReading result (meaning input.now) }
{
    let world = read_file(alloc, input, parts.world)?;
    let turns = turns_given(alloc, input, parts.schedule, world.nodes)?;
    Ok(Given { world, turns })
}

#[tactic(auto, using(crate::proofs::LineNumbers::schedule_fits))]
fn turns_given(
    alloc: Global,
    input: &[u8],
    part: Option<Span>,
    nodes: u32,
) -> Result<Seq<Turn>, ReadRefusal>
    requires short { length input.now ≤ LONGEST_INPUT }
    requires part { IsPartOf input.now (schedule_lines (lines input.now)) (schedule_first input.now) part }
    ensures { IsReading result (turns_in nodes (schedule_first input.now) (schedule_lines (lines input.now))) }
{
    match part {
        None => {
            let mut turns = Seq::new(alloc);
            turns.push(Turn::Auto(MOST_TURNS))?;
            Ok(turns)
        }
        Some(part) => Ok(Seq::from_vec(read_schedule(alloc, input, part, nodes)?)),
    }
}
