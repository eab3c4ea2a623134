// What is so of written schedules by the definitions alone.
ghost use Rattle.thread_shell.specs.Laws.{WrittenSchedulesAreRead, WrittenSchedulesReplay};

/// The schedule that `run` writes, put into the file, is read as the turns that were done, and replays to the same history.
pub fn written_schedules_replay()
    ensures read { WrittenSchedulesAreRead }
    ensures replay { WrittenSchedulesReplay }
{}
