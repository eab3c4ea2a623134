// Sets of signals.
ghost use Rattle.std.specs.Prelude.{◌≡◌, false, IsTrue, IsNone, IfSome, ◌↔◌, find};
ghost use Rattle.unix_names.specs.declared.signals.Signal.{Signal};
ghost use Rattle.unix_names.specs.Sets.{has, added, removed, minus, IsLeast};
ghost use Rattle.unix_names.specs.Signals.{all_signals};

use crate::signals::{ALL_SIGNALS, Signal, number_of};
use std::marker::Model;

/// A set of signals, a bit for each.
#[derive(Clone, Copy, Debug, PartialEq, Eq)]
pub struct SigSet(u32);

impl Model for SigSet {
    ghost use Rattle.std.specs.Prelude.{ℕ};

    ghost Value = { ℕ };

    ghost use Rattle.unix_names.specs.Sets.{IsSignals};

    ghost view = { λ s. s.0 };

    ghost invariant = { λ s. IsSignals s.0 };

    ghost inverse = { λ n. record { 0 = n } };
}

impl SigSet {
    /// The set of no signal.
    pub fn empty() -> SigSet
        ensures { result ≡ 0 }
    {
        SigSet(0)
    }

    /// Whether a signal is in the set.
    pub fn has(&self, s: Signal) -> bool
        ensures { result ≡ has self.now s }
    {
        (self.0 >> number_of(s)) & 1 == 1
    }

    /// The set and one signal more.
    pub fn with(self, s: Signal) -> SigSet
        ensures { result ≡ added self s }
    {
        SigSet(self.0 | (1 << number_of(s)))
    }

    /// The set without one signal.
    pub fn without(self, s: Signal) -> SigSet
        ensures { result ≡ removed self s }
    {
        SigSet(self.0 & !(1 << number_of(s)))
    }

    /// The signals that another set has not.
    pub fn minus(self, other: SigSet) -> SigSet
        ensures { result ≡ minus self other }
    {
        SigSet(self.0 & !other.0)
    }

    /// The signal of the least number. None exactly where the set is empty.
    pub fn least(&self) -> Option<Signal>
        ensures first { result ≡ find (has self.now) all_signals }
        ensures none { IsNone result ↔ (self.now ≡ 0) }
        ensures some { IfSome result (IsLeast self.now) }
    {
        if self.0 == 0 { None } else { self.first() }
    }

    // The first of the signals, in order of number, that the set has.
    fn first(&self) -> Option<Signal>
        ensures { result ≡ find (has self.now) all_signals }
    {
        let set = *self;
        ALL_SIGNALS.iter().copied().find(|s| set.has(*s))
    }

    /// Whether the set has no signal.
    pub fn is_empty(&self) -> bool
        ensures empty { IsTrue result ↔ (self.now ≡ 0) }
        ensures members { IsTrue result ↔ ((t : Signal) → has self.now t ≡ false) }
    {
        self.0 == 0
    }
}
