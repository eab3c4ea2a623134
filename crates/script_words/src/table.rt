// The words of files and histories: each word is written of one meaning, and read as it.
ghost use Rattle.std.specs.Prelude.{◌≡◌, map};
ghost use Rattle.script_words.specs.Table as spec;

use crate::words::is_word;
use unix_names::{Act, Errno};

/// What a statement of a file begins with. A call of a history begins with the same word, but for `waitpid`, which is `wait` or `poll` in a file.
#[derive(Clone, Copy, Debug, PartialEq, Eq)]
pub enum Verb {
    Getpid,
    Getppid,
    Getpgid,
    Getsid,
    Fork,
    Exec,
    Exit,
    Wait,
    Poll,
    Kill,
    Setpgid,
    Setsid,
    Action,
    Mask,
    Pending,
    Migrate,
}

const ALL_VERBS: [Verb; 16] = [
    Verb::Getpid,
    Verb::Getppid,
    Verb::Getpgid,
    Verb::Getsid,
    Verb::Fork,
    Verb::Exec,
    Verb::Exit,
    Verb::Wait,
    Verb::Poll,
    Verb::Kill,
    Verb::Setpgid,
    Verb::Setsid,
    Verb::Action,
    Verb::Mask,
    Verb::Pending,
    Verb::Migrate,
];

const ALL_ACTS: [Act; 3] = [Act::Default, Act::Ignore, Act::Catch];

const ALL_ERRNOS: [Errno; 6] = [
    Errno::EPERM,
    Errno::ESRCH,
    Errno::EACCES,
    Errno::EINVAL,
    Errno::ECHILD,
    Errno::EAGAIN,
];

/// The word of a verb.
pub fn verb_word(verb: Verb) -> &'static str
    ensures { result.now ≡ spec.verb_word verb }
{
    match verb {
        Verb::Getpid => "getpid",
        Verb::Getppid => "getppid",
        Verb::Getpgid => "getpgid",
        Verb::Getsid => "getsid",
        Verb::Fork => "fork",
        Verb::Exec => "exec",
        Verb::Exit => "exit",
        Verb::Wait => "wait",
        Verb::Poll => "poll",
        Verb::Kill => "kill",
        Verb::Setpgid => "setpgid",
        Verb::Setsid => "setsid",
        Verb::Action => "action",
        Verb::Mask => "mask",
        Verb::Pending => "pending",
        Verb::Migrate => "migrate",
    }
}

// No verb has a shorter word.
const SHORTEST_VERB: usize = 4;

/// The verb of a word. None exactly for a word that no verb has.
#[tactic(auto, unfolding(crate::specs::Table::verb_named))]
pub fn verb_named(word: &[u8]) -> Option<Verb>
    ensures { result ≡ spec.verb_named word.now }
{
    if word.len() < SHORTEST_VERB {
        return None;
    }
    ALL_VERBS
        .iter()
        .copied()
        .find(|v| is_word(word, verb_word(*v)))
}

/// The word of an action of a signal.
pub fn act_word(act: Act) -> &'static str
    ensures { result.now ≡ spec.act_word act }
{
    match act {
        Act::Default => "default",
        Act::Ignore => "ignore",
        Act::Catch => "catch",
    }
}

/// The action of a word. None exactly for a word that no action has.
#[tactic(auto, unfolding(crate::specs::Table::act_named))]
pub fn act_named(word: &[u8]) -> Option<Act>
    ensures { result ≡ spec.act_named word.now }
{
    ALL_ACTS
        .iter()
        .copied()
        .find(|a| is_word(word, act_word(*a)))
}

/// The word of an error, its name in POSIX.1-2017, XSH <errno.h>.
pub fn errno_word(errno: Errno) -> &'static str
    ensures { result.now ≡ spec.errno_word errno }
{
    match errno {
        Errno::EPERM => "EPERM",
        Errno::ESRCH => "ESRCH",
        Errno::EACCES => "EACCES",
        Errno::EINVAL => "EINVAL",
        Errno::ECHILD => "ECHILD",
        Errno::EAGAIN => "EAGAIN",
    }
}

/// The error of a word. None exactly for a word that no error has.
#[tactic(auto, unfolding(crate::specs::Table::errno_named))]
pub fn errno_named(word: &[u8]) -> Option<Errno>
    ensures { result ≡ spec.errno_named word.now }
{
    ALL_ERRNOS
        .iter()
        .copied()
        .find(|e| is_word(word, errno_word(*e)))
}

/// Which changes of a child are asked for beside its end, by these words and no others: `stopped`, `continued`, both in this order, or none. None exactly for other words.
#[tactic(auto, unfolding(crate::specs::Table::changes_in))]
pub fn changes_in(words: &[&[u8]]) -> Option<(bool, bool)>
    ensures { result ≡ spec.changes_in (map (λ w. w.now) words.now) }
{
    match words {
        [] => Some((false, false)),
        [only] => {
            if is_word(only, "stopped") {
                Some((true, false))
            } else if is_word(only, "continued") {
                Some((false, true))
            } else {
                None
            }
        }
        [first, second] => {
            if is_word(first, "stopped") && is_word(second, "continued") {
                Some((true, true))
            } else {
                None
            }
        }
        _ => None,
    }
}
