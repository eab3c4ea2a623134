// What is so of the answers by the definitions alone.
ghost use Rattle.command_ends.specs.Laws.{HasOneAnswer};
ghost use Rattle.run_shell.specs.Load.{LoadIsOne};
ghost use Rattle.run_shell.specs.Replay.{Replays, ReplaysTwo};

/// An input has one answer to `replay`, and one to `replay 2`: one status, and one text.
pub fn replay_is_one()
    ensures one { HasOneAnswer Replays }
    ensures two { HasOneAnswer ReplaysTwo }
{}

/// A load has one text.
pub fn load_is_one()
    ensures { LoadIsOne }
{}
