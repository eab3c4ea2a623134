//! What is true of each run of a cluster, for every vector of decisions that keeps the law, as the contracts of functions without a body.
#![tactic(auto)]

ghost use Rattle.cluster_laws.specs.Laws.{RunsAreLegal, RunsFollow, RunsAreWritten, RunsStand, QuietIsHome, QuietIsFinished, SerialsAreSmall};
ghost use Rattle.cluster_laws.specs.Offered.{OfferedArePossible, SchedulesRun};
ghost use Rattle.cluster_laws.specs.Turns.{TurnsCanBeMade, TurnsSendToNodes};
ghost use Rattle.cluster_laws.specs.Wires.{MessagesStayInside};

/// Each run of a cluster gives a history that is legal for the one kernel and follows the scripts, and the cluster stands for the table after it.
pub fn runs_are_legal()
    ensures legal { RunsAreLegal }
    ensures follows { RunsFollow }
    ensures written { RunsAreWritten }
    ensures stands { RunsStand }
{}

/// After each run, whoever sets out at a node by a turn may: it fits the world, it holds what it wants below what it holds, and each question that it comes to fits.
pub fn turns_can_be_made()
    ensures { TurnsCanBeMade }
{}

/// After each run each turn that is offered is possible, so each schedule of a valid world has a run.
pub fn schedules_run()
    ensures offered { OfferedArePossible }
    ensures runs { SchedulesRun }
{}

/// Each message goes from a node of the world to a node of the world, on its wire and as a turn sends it.
pub fn messages_stay_inside()
    ensures wires { MessagesStayInside }
    ensures sends { TurnsSendToNodes }
{}

/// Where a cluster is quiet every record is at home and nothing is left to do, and however many turns there were, the serials are small.
pub fn quiet_means_finished()
    ensures home { QuietIsHome }
    ensures finished { QuietIsFinished }
    ensures serials { SerialsAreSmall }
{}
