// How a verdict is told.
use crate::judge::{Breach, Judged};
use crate::stamps::JudgedTwo;
use std::fmt;

impl fmt::Display for Breach {
    ghost use Rattle.std.specs.Prelude.{Some};
    ghost use Rattle.audit_core.specs.Told.{rule_text};

    ghost output = { λ b. Some (rule_text b) };

    fn fmt<W: fmt::Write>(&self, f: &mut fmt::Formatter<W>) -> fmt::Result {
        match *self {
            Breach::UnknownProcess => write!(f, "unknown process"),
            Breach::ScriptOrder => write!(f, "script order"),
            Breach::SignalFirst => write!(f, "signal first"),
            Breach::WrongReply => write!(f, "reply"),
            Breach::WrongEvent => write!(f, "event"),
        }
    }
}

impl fmt::Display for Judged {
    ghost use Rattle.std.specs.Prelude.{Some};
    ghost use Rattle.audit_core.specs.Told.{judged_text};

    ghost output = { λ j. Some (judged_text j) };

    fn fmt<W: fmt::Write>(&self, f: &mut fmt::Formatter<W>) -> fmt::Result {
        match *self {
            Judged::Legal => write!(f, "legal"),
            Judged::IllegalAt(number, rule) => write!(f, "illegal at {number}: {rule}"),
        }
    }
}

impl fmt::Display for JudgedTwo {
    ghost use Rattle.std.specs.Prelude.{Some};
    ghost use Rattle.audit_core.specs.Told.{judged_two_text};

    ghost output = { λ j. Some (judged_two_text j) };

    fn fmt<W: fmt::Write>(&self, f: &mut fmt::Formatter<W>) -> fmt::Result {
        match *self {
            JudgedTwo::Legal => write!(f, "legal"),
            JudgedTwo::PlaceAt(number) => write!(f, "illegal at {number}: place"),
            JudgedTwo::UserAt(number) => write!(f, "illegal at {number}: user"),
            JudgedTwo::IllegalAt(number, rule) => write!(f, "illegal at {number}: {rule}"),
        }
    }
}
