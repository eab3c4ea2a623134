// The signals, with their numbers, words and default actions.
ghost use Rattle.std.specs.Prelude.{◌≡◌};
ghost use Rattle.unix_names.specs.Signals.{number_of, word_of, default_of, signal_of, signal_named};

/// A signal (POSIX.1-2017, XBD <signal.h>). The numbers are this project's own where the standard leaves them open.
#[derive(Clone, Copy, Debug, PartialEq, Eq)]
pub enum Signal {
    Hup,
    Int,
    Quit,
    Abrt,
    Kill,
    Usr1,
    Usr2,
    Pipe,
    Alrm,
    Term,
    Chld,
    Cont,
    Stop,
    Tstp,
    Ttin,
    Ttou,
    Urg,
}

/// What a signal does where its action is the default.
#[derive(Clone, Copy, Debug, PartialEq, Eq)]
pub enum DefaultAct {
    End,
    Ignore,
    StopIt,
    ContinueIt,
}

/// The number of a signal.
pub fn number_of(s: Signal) -> u32
    ensures { result ≡ number_of s }
{
    match s {
        Signal::Hup => 1,
        Signal::Int => 2,
        Signal::Quit => 3,
        Signal::Abrt => 6,
        Signal::Kill => 9,
        Signal::Usr1 => 10,
        Signal::Usr2 => 12,
        Signal::Pipe => 13,
        Signal::Alrm => 14,
        Signal::Term => 15,
        Signal::Chld => 17,
        Signal::Cont => 18,
        Signal::Stop => 19,
        Signal::Tstp => 20,
        Signal::Ttin => 21,
        Signal::Ttou => 22,
        Signal::Urg => 23,
    }
}

/// The signals in order of their numbers.
pub const ALL_SIGNALS: [Signal; 17] = [
    Signal::Hup,
    Signal::Int,
    Signal::Quit,
    Signal::Abrt,
    Signal::Kill,
    Signal::Usr1,
    Signal::Usr2,
    Signal::Pipe,
    Signal::Alrm,
    Signal::Term,
    Signal::Chld,
    Signal::Cont,
    Signal::Stop,
    Signal::Tstp,
    Signal::Ttin,
    Signal::Ttou,
    Signal::Urg,
];

/// The signal of a number. None exactly for a number that no signal has.
#[tactic(auto, unfolding(crate::specs::Signals::signal_of))]
pub fn signal_of(n: u32) -> Option<Signal>
    ensures { result ≡ signal_of n }
{
    ALL_SIGNALS.iter().copied().find(|s| number_of(*s) == n)
}

/// The word of a signal in files and histories.
pub fn word_of(s: Signal) -> &'static str
    ensures { result.now ≡ word_of s }
{
    match s {
        Signal::Hup => "HUP",
        Signal::Int => "INT",
        Signal::Quit => "QUIT",
        Signal::Abrt => "ABRT",
        Signal::Kill => "KILL",
        Signal::Usr1 => "USR1",
        Signal::Usr2 => "USR2",
        Signal::Pipe => "PIPE",
        Signal::Alrm => "ALRM",
        Signal::Term => "TERM",
        Signal::Chld => "CHLD",
        Signal::Cont => "CONT",
        Signal::Stop => "STOP",
        Signal::Tstp => "TSTP",
        Signal::Ttin => "TTIN",
        Signal::Ttou => "TTOU",
        Signal::Urg => "URG",
    }
}

/// The signal of a word. None exactly for a word that no signal has.
#[tactic(auto, unfolding(crate::specs::Signals::signal_named))]
pub fn signal_named(word: &[u8]) -> Option<Signal>
    ensures { result ≡ signal_named word.now }
{
    ALL_SIGNALS
        .iter()
        .copied()
        .find(|s| word_of(*s).as_bytes() == word)
}

/// What a signal does by default (POSIX.1-2017, XSH 2.4.3).
pub fn default_of(s: Signal) -> DefaultAct
    ensures { result ≡ default_of s }
{
    match s {
        Signal::Chld | Signal::Urg => DefaultAct::Ignore,
        Signal::Cont => DefaultAct::ContinueIt,
        Signal::Stop | Signal::Tstp | Signal::Ttin | Signal::Ttou => DefaultAct::StopIt,
        _ => DefaultAct::End,
    }
}
