// The words of the command line.
ghost use Rattle.std.specs.Prelude.{◌≡◌, ◌≢◌, ◌↔◌, ◌∷◌, [], map, codes, IsTrue, IfSome, IfNone};
ghost use Rattle.cluster_cli.specs.declared.commands.Command.TheVariants as Command;
ghost use Rattle.cluster_cli.specs.Commands.{IsLoad, NamesLoad, AreWorkers, Says, SaysNothing};

use byte_ends::number_at;
use load_maker::LARGEST_LOAD;
use unix_calls::MOST_NODES;

/// The most threads that serve a node.
pub const MOST_WORKERS: u32 = 8;

/// What a command line asks.
#[derive(Clone, Copy, Debug, PartialEq, Eq)]
pub enum Command {
    /// To run a file by its schedule, and to write the history.
    Replay,
    /// To run a file by its schedule, and to write the history in format 2.
    ReplayTwo,
    /// To have the nodes of a file served by so many threads each, 1 to 8, and to write the history and the turns that were done.
    Run(u32),
    /// To judge the history part of a file.
    Audit,
    /// To write the table after so many entries of the history part.
    Table(u32),
    /// To write the ground of an entry of the history part, counted from 1.
    Why(u32),
    /// To write the file of scripts that a job file becomes.
    Compile,
    /// To run a job file, and to write how the stages ended that were waited for.
    Jobs,
    /// To write the file of a load.
    Make(Load),
    /// To run the file of a load, and to count.
    Load(Load),
}

/// The numbers of a load: 1 to 64 nodes, 1 to 200 processes.
#[derive(Clone, Copy, Debug, PartialEq, Eq)]
pub struct Load {
    pub seed: u32,
    pub nodes: u32,
    pub size: u32,
}

/// The command that the words say. None exactly where they say none.
pub fn command_of(words: &[&str]) -> Option<Command>
    ensures said { IfSome result (Says (map (λ w. w.now) words.now)) }
    ensures none { IfNone result (SaysNothing (map (λ w. w.now) words.now)) }
{
    match words {
        [word] => plain_command(word),
        [word, second] => pair_command(word, second),
        [word, seed, nodes, size] => load_command(word, seed, nodes, size),
        _ => None,
    }
}

// A command of one word.
fn plain_command(word: &str) -> Option<Command>
    ensures said { IfSome result (Says (word.now ∷ [])) }
    ensures none { IfNone result (SaysNothing (word.now ∷ [])) }
{
    if is_word(word, "replay") {
        Some(Command::Replay)
    } else if is_word(word, "audit") {
        Some(Command::Audit)
    } else if is_word(word, "compile") {
        Some(Command::Compile)
    } else if is_word(word, "jobs") {
        Some(Command::Jobs)
    } else {
        None
    }
}

// A command of two words: the second is a format or a number.
fn pair_command(word: &str, second: &str) -> Option<Command>
    ensures said { IfSome result (Says (word.now ∷ second.now ∷ [])) }
    ensures none { IfNone result (SaysNothing (word.now ∷ second.now ∷ [])) }
{
    if is_word(word, "replay") {
        replay_command(second)
    } else {
        numbered_command(word, second)
    }
}

// How a history is to be written.
fn replay_command(format: &str) -> Option<Command>
    ensures said { IfSome result (Says (codes "replay" ∷ format.now ∷ [])) }
    ensures none { IfNone result (SaysNothing (codes "replay" ∷ format.now ∷ [])) }
{
    if is_word(format, "2") {
        Some(Command::ReplayTwo)
    } else {
        None
    }
}

// A command with the number of an entry, or of threads.
fn numbered_command(word: &str, number: &str) -> Option<Command>
    requires { word.now ≢ codes "replay" }
    ensures said { IfSome result (Says (word.now ∷ number.now ∷ [])) }
    ensures none { IfNone result (SaysNothing (word.now ∷ number.now ∷ [])) }
{
    let at = number_at(number.as_bytes())?;
    if is_word(word, "table") {
        Some(Command::Table(at))
    } else if is_word(word, "why") {
        Some(Command::Why(at))
    } else if is_word(word, "run") {
        run_command(at)
    } else {
        None
    }
}

// How many threads are to serve each node.
fn run_command(workers: u32) -> Option<Command>
    ensures said { IfSome result (λ command. (command ≡ Command.Run workers) × AreWorkers workers) }
    ensures none { IfNone result (¬ AreWorkers workers) }
{
    if (1..=MOST_WORKERS).contains(&workers) {
        Some(Command::Run(workers))
    } else {
        None
    }
}

// A command with the numbers of a load.
fn load_command(word: &str, seed: &str, nodes: &str, size: &str) -> Option<Command>
    ensures said { IfSome result (Says (word.now ∷ seed.now ∷ nodes.now ∷ size.now ∷ [])) }
    ensures none { IfNone result (SaysNothing (word.now ∷ seed.now ∷ nodes.now ∷ size.now ∷ [])) }
{
    let load = load_of(seed, nodes, size)?;
    if is_word(word, "make") {
        Some(Command::Make(load))
    } else if is_word(word, "load") {
        Some(Command::Load(load))
    } else {
        None
    }
}

// The numbers of a load, which are within their limits.
fn load_of(seed: &str, nodes: &str, size: &str) -> Option<Load>
    ensures said { IfSome result (IsLoad seed.now nodes.now size.now) }
    ensures none { IfNone result (¬ NamesLoad seed.now nodes.now size.now) }
{
    let seed = number_at(seed.as_bytes())?;
    let nodes = number_at(nodes.as_bytes())?;
    let size = number_at(size.as_bytes())?;
    if (1..=MOST_NODES).contains(&nodes) && (1..=LARGEST_LOAD).contains(&size) {
        Some(Load { seed, nodes, size })
    } else {
        None
    }
}

fn is_word(word: &str, text: &str) -> bool
    ensures { IsTrue result ↔ (word.now ≡ text.now) }
{
    word.as_bytes() == text.as_bytes()
}
