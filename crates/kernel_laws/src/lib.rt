//! What is true of the one kernel by its definitions, as the contracts of functions without a body.
#![tactic(auto)]

ghost use Rattle.kernel_laws.specs.Tables.{StepKeepsSound, BootIsSound, LegalTablesAreSound};
ghost use Rattle.kernel_laws.specs.Groups.{SessionsAreLed, OrphanedStays};
ghost use Rattle.kernel_laws.specs.Effects.{OthersAreSignalled, OwnSignals, KillSignalsOnce, ForkIsFresh, LivingStay, OnlyForksAdd};

/// Each legal step from a table that can come about leads to one.
pub fn step_keeps_sound()
    ensures { StepKeepsSound }
{}

/// The first table of a world can come about, and so can each table of a legal history.
pub fn histories_are_sound()
    ensures first { BootIsSound }
    ensures later { LegalTablesAreSound }
{}

/// A step changes the rows of other processes by the signals that it sends them, and by little else; it changes the signals of its own process by these and by what the call or event itself does.
pub fn steps_signal()
    ensures others { OthersAreSignalled }
    ensures own { OwnSignals }
{}

/// A kill generates its signal once for exactly the permitted living rows that it names.
pub fn kill_signals_once()
    ensures { KillSignalsOnce }
{}

/// The pid of a forked process is no pid, group or session of the table; its row comes last, with the caller's user, group and session, and nothing pending.
pub fn fork_is_fresh()
    ensures { ForkIsFresh }
{}

/// In each table of a legal history, where the id of a session is the pid of a process, that process leads the session and its own group.
pub fn sessions_are_led()
    ensures { SessionsAreLed }
{}

/// An orphaned group stays orphaned, but where a setpgid takes a member out or puts one in.
pub fn orphaned_stays()
    ensures { OrphanedStays }
{}

/// A living process keeps its row until it ends, and only a fork adds one.
pub fn rows_come_and_go()
    ensures stay { LivingStay }
    ensures come { OnlyForksAdd }
{}
