// What is so of signals by the definitions alone.
ghost use Rattle.signal_state.specs.Laws.{ContIsOneOrTheOther, ContMakesDue, KillAlwaysPends, MaskIsNotRead, OneAfterAnother, GeneratingKeeps};

/// What generating signals does.
pub fn generating()
    ensures kill { KillAlwaysPends }
    ensures cont { ContIsOneOrTheOther }
    ensures due { ContMakesDue }
    ensures mask { MaskIsNotRead }
    ensures fold { OneAfterAnother }
{}

/// Generating signals keeps what is always so of them.
pub fn keeping()
    ensures { GeneratingKeeps }
{}
