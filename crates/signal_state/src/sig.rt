// The signals of one process (POSIX.1-2017, XSH 2.4).
ghost use Rattle.std.specs.Prelude.{◌≡◌, ◌↔◌, IsTrue, IsErr, IfErr, OnErr, OnOk};
ghost use Rattle.signal_state.specs.Sig.{generated, generated_all, deliverable, with_action, with_mask, after_exec, child, fresh, delivered, stopped_by, resumed, IsClear, IsFixed, is_dropped_by_default};
ghost use Rattle.signal_state.specs.Signals.{IsKept};

use std::marker::Model;
use unix_names::{Act, DefaultAct, Errno, SigSet, Signal, default_of};

/// The signals of a process.
///
/// Always: no pending signal is ignored, no ignored signal is caught, SIGKILL and SIGSTOP are neither ignored, caught nor blocked, and a continuing is due only where the process is stopped.
#[derive(Clone, Copy, Debug, PartialEq, Eq)]
pub struct Sig {
    /// Generated, and not yet taken.
    pub pending: SigSet,
    /// Blocked: these stay pending.
    pub mask: SigSet,
    /// Dropped when they are generated.
    pub ignored: SigSet,
    /// Taken by the process's own function.
    pub caught: SigSet,
    pub stopped: bool,
    /// SIGCONT came while the process was stopped, and it has not gone on yet.
    pub due: bool,
}

impl Model for Sig {
    ghost use Rattle.std.specs.Prelude.{ℕ};
    ghost use Rattle.signal_state.specs.Signals.{Signals, IsKept};

    ghost Value = { Signals };

    ghost view = { λ a. record { pending = a.pending; mask = a.mask; ignored = a.ignored; caught = a.caught; stopped = a.stopped; due = a.due } };

    ghost invariant = { λ a. IsKept (record { pending = a.pending; mask = a.mask; ignored = a.ignored; caught = a.caught; stopped = a.stopped; due = a.due }) };

    ghost inverse = { λ d. record { pending = d.pending; mask = d.mask; ignored = d.ignored; caught = d.caught; stopped = d.stopped; due = d.due } };
}

impl Sig {
    /// A process's signals at its start: nothing is pending, blocked, ignored or caught, and it is not stopped.
    pub fn fresh() -> Sig
        ensures { result ≡ fresh }
    {
        let empty = SigSet::empty();
        Sig {
            pending: empty,
            mask: empty,
            ignored: empty,
            caught: empty,
            stopped: false,
            due: false,
        }
    }

    /// What a forked process has: nothing pending, not stopped, the rest as here (POSIX.1-2017, XSH fork).
    pub fn child(&self) -> Sig
        ensures { result ≡ child self.now }
    {
        Sig {
            pending: SigSet::empty(),
            mask: self.mask,
            ignored: self.ignored,
            caught: self.caught,
            stopped: false,
            due: false,
        }
    }

    /// Generates a signal (POSIX.1-2017, XSH 2.4.1 and 2.4.3): SIGCONT takes the stop signals out of the pending ones, and a stop signal takes out SIGCONT, also where the signal itself is then dropped.
    #[tactic(auto, unfolding(crate::specs::Sig::generated))]
    pub fn generate(&mut self, s: Signal)
        ensures { self.new ≡ generated self.old s }
    {
        let mut pending = self.pending;
        let mut due = self.due;
        match s {
            Signal::Cont => {
                pending = pending
                    .without(Signal::Stop)
                    .without(Signal::Tstp)
                    .without(Signal::Ttin)
                    .without(Signal::Ttou);
                due = due || self.stopped;
            }
            Signal::Stop | Signal::Tstp | Signal::Ttin | Signal::Ttou => {
                pending = pending.without(Signal::Cont);
            }
            _ => {}
        }
        let drops = self.ignored.has(s) || (!self.caught.has(s) && is_ignored_by_default(s));
        if !drops {
            pending = pending.with(s);
        }
        *self = Sig {
            pending,
            mask: self.mask,
            ignored: self.ignored,
            caught: self.caught,
            stopped: self.stopped,
            due,
        };
    }

    /// Generates each of the signals, in order.
    pub fn generate_all(&mut self, signals: &[Signal])
        ensures { self.new ≡ generated_all self.old signals.now }
    {
        for s in signals {
            self.generate(*s);
        }
    }

    /// The signals that can be taken now: of a stopped process SIGKILL alone, where it is pending; else what is pending and not blocked.
    #[tactic(auto, unfolding(crate::specs::Sig::deliverable))]
    pub fn deliverable(&self) -> SigSet
        ensures { result ≡ deliverable self.now }
    {
        if self.stopped {
            if self.pending.has(Signal::Kill) {
                SigSet::empty().with(Signal::Kill)
            } else {
                SigSet::empty()
            }
        } else {
            self.pending.minus(self.mask)
        }
    }

    /// Whether nothing can be taken and no continuing is due.
    pub fn is_clear(&self) -> bool
        ensures { IsTrue result ↔ IsClear self.now }
    {
        self.deliverable().is_empty() && !self.due
    }

    /// Sets what the process does with a signal (POSIX.1-2017, XSH sigaction). A pending signal that the new action ignores is dropped.
    ///
    /// # Errors
    /// EINVAL exactly for SIGKILL and SIGSTOP; nothing is changed then.
    pub fn set_action(&mut self, s: Signal, act: Act) -> Result<(), Errno>
        ensures err { IsErr result ↔ IsFixed s }
        ensures cause { IfErr result (λ e. e ≡ Errno.EINVAL) }
        ensures ok { OnOk result (self.new ≡ with_action self.old s act) }
        ensures same { OnErr result (self.new ≡ self.old) }
    {
        if s == Signal::Kill || s == Signal::Stop {
            return Err(Errno::EINVAL);
        }
        let mut pending = self.pending;
        let mut ignored = self.ignored.without(s);
        let mut caught = self.caught.without(s);
        match act {
            Act::Default => {
                if is_ignored_by_default(s) {
                    pending = pending.without(s);
                }
            }
            Act::Ignore => {
                pending = pending.without(s);
                ignored = ignored.with(s);
            }
            Act::Catch => {
                caught = caught.with(s);
            }
        }
        *self = Sig {
            pending,
            mask: self.mask,
            ignored,
            caught,
            stopped: self.stopped,
            due: self.due,
        };
        Ok(())
    }

    /// Blocks exactly these signals, SIGKILL and SIGSTOP left out, and gives the set that was blocked before (POSIX.1-2017, XSH sigprocmask).
    pub fn set_mask(&mut self, mask: SigSet) -> SigSet
        ensures old { result ≡ self.old.mask }
        ensures new { self.new ≡ with_mask self.old mask }
    {
        let old = self.mask;
        self.mask = mask.without(Signal::Kill).without(Signal::Stop);
        old
    }

    /// A new program catches nothing (POSIX.1-2017, XSH exec).
    pub fn after_exec(&mut self)
        ensures { self.new ≡ after_exec self.old }
    {
        self.caught = SigSet::empty();
    }

    /// Takes a signal out of what is pending: it is acted on, or discarded.
    pub fn deliver(&mut self, s: Signal)
        ensures { self.new ≡ delivered self.old s }
    {
        self.pending = self.pending.without(s);
    }

    /// Takes a signal, which stops the process.
    pub fn stop(&mut self, s: Signal)
        ensures { self.new ≡ stopped_by self.old s }
    {
        *self = Sig {
            pending: self.pending.without(s),
            mask: self.mask,
            ignored: self.ignored,
            caught: self.caught,
            stopped: true,
            due: self.due,
        };
    }

    /// Lets a stopped process run on; nothing is due any more.
    pub fn resume(&mut self)
        ensures { self.new ≡ resumed self.old }
    {
        *self = Sig {
            pending: self.pending,
            mask: self.mask,
            ignored: self.ignored,
            caught: self.caught,
            stopped: false,
            due: false,
        };
    }

    /// What is always so.
    pub fn kept(&self)
        ensures { IsKept self.now }
    {
        let _pending = self.pending;
    }
}

/// Whether the default action drops the signal when it is generated.
pub fn is_ignored_by_default(s: Signal) -> bool
    ensures { result ≡ is_dropped_by_default s }
{
    matches!(default_of(s), DefaultAct::Ignore | DefaultAct::ContinueIt)
}
