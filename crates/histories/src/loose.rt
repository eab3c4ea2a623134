// What the words of a line seem to say.
ghost use Rattle.std.specs.Prelude.{◌≡◌, ◌≤◌, drop, map, length};
ghost use Rattle.script_words.specs.Words.{is_number};
ghost use Rattle.histories.specs.MethodLoose as spec;

use byte_ends::number_at;
use script_words::{Verb, act_named, changes_in, errno_named, is_word, verb_named, word_at};
use unix_calls::{Call, Entry, Event, Reply};
use unix_names::{Act, Pid, SigSet, Signal, WaitStatus, number_of, signal_named};

fn number_in(word: &[u8]) -> u32
    ensures { result ≡ spec.number_in word.now }
{
    number_at(word).unwrap_or(0)
}

fn is_number(word: &[u8]) -> bool
    ensures { result ≡ is_number word.now }
{
    number_at(word).is_some()
}

#[tactic(auto, unfolding(crate::specs::MethodLoose::signed_in))]
fn signed_in(word: &[u8]) -> i64
    ensures { result ≡ spec.signed_in word.now }
{
    match word {
        [] => 0,
        [b'-', digits @ ..] => -i64::from(number_in(digits)),
        [_, ..] => i64::from(number_in(word)),
    }
}

#[tactic(auto, unfolding(crate::specs::MethodLoose::signal_number_in))]
fn signal_number_in(word: &[u8]) -> u32
    ensures { result ≡ spec.signal_number_in word.now }
{
    match signal_named(word) {
        Some(signal) => number_of(signal),
        None => number_in(word),
    }
}

#[tactic(auto, unfolding(crate::specs::MethodLoose::signal_in))]
fn signal_in(word: &[u8]) -> Signal
    ensures { result ≡ spec.signal_in word.now }
{
    signal_named(word).unwrap_or(Signal::Hup)
}

// The words behind the first.
fn behind_first<'a, 'b>(words: &'b [&'a [u8]]) -> &'b [&'a [u8]]
    ensures { map (λ w. w.now) result.now ≡ drop 1 (map (λ w. w.now) words.now) }
{
    match words {
        [] => words,
        [_, rest @ ..] => rest,
    }
}

// The signals that are named.
#[tactic(auto, unfolding(crate::specs::MethodLoose::set_in))]
fn set_in(words: &[&[u8]]) -> SigSet
    ensures { result ≡ spec.set_in (map (λ w. w.now) words.now) }
{
    let mut set = SigSet::empty();
    for word in words {
        set = with_named(set, signal_named(word));
    }
    set
}

fn with_named(set: SigSet, signal: Option<Signal>) -> SigSet
    ensures { result ≡ spec.with_named set signal }
{
    match signal {
        Some(signal) => set.with(signal),
        None => set,
    }
}

// What waitpid tells, from the third word of a reply on.
#[tactic(auto, unfolding(crate::specs::MethodLoose::status_in))]
fn status_in(words: &[&[u8]]) -> WaitStatus
    ensures { result ≡ spec.status_in (map (λ w. w.now) words.now) }
{
    let word = word_at(words, 2);
    let what = word_at(words, 3);
    if is_word(word, "exited") {
        WaitStatus::Exited((number_in(what) % 256) as u8)
    } else if is_word(word, "killed") {
        WaitStatus::Killed(signal_in(what))
    } else if is_word(word, "stopped") {
        WaitStatus::Stopped(signal_in(what))
    } else {
        WaitStatus::Continued
    }
}

// A reply of a word or a set.
#[tactic(auto, unfolding(crate::specs::MethodLoose::worded_reply_in))]
fn worded_reply_in(words: &[&[u8]]) -> Reply
    ensures { result ≡ spec.worded_reply_in (map (λ w. w.now) words.now) }
{
    let word = word_at(words, 1);
    if is_word(word, "ok") {
        return Reply::Fine;
    }
    if is_word(word, "again") {
        return Reply::Again;
    }
    match errno_named(word) {
        Some(errno) => Reply::Refused(errno),
        None => Reply::Set(set_in(behind_first(words))),
    }
}

// A reply, with its equals sign; none where there are no words.
#[tactic(auto, unfolding(crate::specs::MethodLoose::reply_in))]
fn reply_in(words: &[&[u8]]) -> Reply
    ensures { result ≡ spec.reply_in (map (λ w. w.now) words.now) }
{
    if words.is_empty() {
        return Reply::NoReply;
    }
    let word = word_at(words, 1);
    if !is_number(word) {
        worded_reply_in(words)
    } else if words.len() > 2 {
        Reply::Child(Pid(number_in(word)), status_in(words))
    } else {
        Reply::Number(number_in(word))
    }
}

#[tactic(auto, unfolding(crate::specs::MethodLoose::wait_in))]
fn wait_in(words: &[&[u8]]) -> Call
    ensures { result ≡ spec.wait_in (map (λ w. w.now) words.now) }
{
    let sel = signed_in(word_at(words, 1));
    match changes_in(behind_first(behind_first(words))) {
        Some((stopped, continued)) => Call::Waitpid {
            sel,
            stopped,
            continued,
        },
        None => Call::Waitpid {
            sel,
            stopped: false,
            continued: false,
        },
    }
}

// The call of a verb, with its further words; none of a verb of files alone.
#[tactic(auto, unfolding(crate::specs::MethodLoose::call_of))]
fn call_of(verb: Verb, words: &[&[u8]]) -> Option<Call>
    ensures { result ≡ spec.call_of verb (map (λ w. w.now) words.now) }
{
    let word = word_at(words, 1);
    let next = word_at(words, 2);
    match verb {
        Verb::Getpid => Some(Call::Getpid),
        Verb::Getppid => Some(Call::Getppid),
        Verb::Getpgid => Some(Call::Getpgid(number_in(word))),
        Verb::Getsid => Some(Call::Getsid(number_in(word))),
        Verb::Fork => Some(Call::Fork),
        Verb::Exec => Some(Call::Exec),
        Verb::Exit => Some(Call::Exit(number_in(word))),
        Verb::Wait | Verb::Poll => None,
        Verb::Kill => Some(Call::Kill {
            target: signed_in(word),
            sig: signal_number_in(next),
        }),
        Verb::Setpgid => Some(Call::Setpgid {
            pid: number_in(word),
            pgid: signed_in(next),
        }),
        Verb::Setsid => Some(Call::Setsid),
        Verb::Action => Some(Call::Action {
            sig: signal_number_in(word),
            act: act_named(next).unwrap_or(Act::Default),
        }),
        Verb::Mask => Some(Call::Mask(set_in(behind_first(words)))),
        Verb::Pending => Some(Call::Pending),
        Verb::Migrate => Some(Call::Migrate),
    }
}

// The call that words seem to say, if they begin with a call's word.
#[tactic(auto, unfolding(crate::specs::MethodLoose::call_in))]
fn call_in(words: &[&[u8]]) -> Option<Call>
    ensures { result ≡ spec.call_in (map (λ w. w.now) words.now) }
{
    let word = word_at(words, 0);
    if is_word(word, "waitpid") {
        return Some(wait_in(words));
    }
    match verb_named(word) {
        Some(verb) => call_of(verb, words),
        None => None,
    }
}

// How many words stand before the equals sign.
#[tactic(auto, unfolding(crate::specs::MethodLoose::words_before))]
fn words_before(words: &[&[u8]]) -> usize
    ensures value { result ≡ spec.words_before (map (λ w. w.now) words.now) }
    ensures within { result ≤ length words.now }
{
    words.iter().take_while(|word| !is_word(word, "=")).count()
}

// What happened, by its word.
#[tactic(auto, unfolding(crate::specs::MethodLoose::event_in))]
fn event_in(words: &[&[u8]]) -> Event
    ensures { result ≡ spec.event_in (map (λ w. w.now) words.now) }
{
    let word = word_at(words, 0);
    let what = word_at(words, 1);
    if is_word(word, "caught") {
        Event::Caught(signal_in(what))
    } else if is_word(word, "discarded") {
        Event::Discarded(signal_in(what))
    } else if is_word(word, "stopped") {
        Event::StoppedBy(signal_in(what))
    } else if is_word(word, "ended") {
        Event::EndedBy(signal_in(what))
    } else if is_word(word, "continued") {
        Event::Continued
    } else {
        Event::Moved
    }
}

/// The entry that the words of a line seem to say: that which they do say, if they say one.
#[tactic(auto, unfolding(crate::specs::MethodLoose::entry_in))]
pub fn entry_in(words: &[&[u8]]) -> Entry
    ensures { result ≡ spec.entry_in (map (λ w. w.now) words.now) }
{
    let pid = Pid(number_in(word_at(words, 0)));
    let rest = behind_first(words);
    let (call, reply) = rest.split_at(words_before(rest));
    match call_in(call) {
        Some(call) => Entry::Called {
            caller: pid,
            call,
            reply: reply_in(reply),
        },
        None => Entry::Happened {
            pid,
            event: event_in(rest),
        },
    }
}
