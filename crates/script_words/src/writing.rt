// Words that are put behind a text, each behind a space.
ghost use Rattle.std.specs.Prelude.{◌≡◌, ◌++◌, ◌∷◌, OnOk, map, filter, take, length};
ghost use Rattle.std.specs.Fmt.{decimal};
ghost use Rattle.std.specs.String.{string_bytes};
ghost use Rattle.unix_names.specs.Signals.{word_of as word};
ghost use Rattle.unix_names.specs.Sets.{has};
ghost use Rattle.script_words.specs.Table.{change_words};
ghost use Rattle.script_words.specs.Writing.{spaced, signal_word, member_words};

use itoa::Buffer;
use std::alloc::AllocError;
use unix_names::{ALL_SIGNALS, SigSet, Signal, signal_of, word_of};

/// Puts a word behind a text. Where memory runs out part of it may stand there; what stood before stays.
pub fn put_word(text: &mut String, word: &str) -> Result<(), AllocError>
    ensures ok { OnOk result (string_bytes text.new ≡ string_bytes text.old ++ 32 ∷ word.now) }
    ensures kept { take (length (string_bytes text.old)) (string_bytes text.new) ≡ string_bytes text.old }
{
    text.push_str(" ")?;
    text.push_str(word)
}

/// Puts a number behind a text, in decimal. Where memory runs out part of it may stand there; what stood before stays.
pub fn put_number(text: &mut String, number: u32) -> Result<(), AllocError>
    ensures ok { OnOk result (string_bytes text.new ≡ string_bytes text.old ++ 32 ∷ decimal number) }
    ensures kept { take (length (string_bytes text.old)) (string_bytes text.new) ≡ string_bytes text.old }
{
    let mut digits = Buffer::new();
    put_word(text, digits.format(number))
}

/// Puts a signal's word behind a text, or the number where it is no signal's. Where memory runs out part of it may stand there; what stood before stays.
pub fn put_signal(text: &mut String, number: u32) -> Result<(), AllocError>
    ensures ok { OnOk result (string_bytes text.new ≡ string_bytes text.old ++ 32 ∷ signal_word number) }
    ensures kept { take (length (string_bytes text.old)) (string_bytes text.new) ≡ string_bytes text.old }
{
    match signal_of(number) {
        Some(signal) => put_word(text, word_of(signal)),
        None => put_number(text, number),
    }
}

/// Puts the words of a set's signals behind a text, by number. Where memory runs out part of them may stand there; what stood before stays.
pub fn put_members(text: &mut String, set: SigSet) -> Result<(), AllocError>
    ensures ok { OnOk result (string_bytes text.new ≡ string_bytes text.old ++ spaced (member_words set)) }
    ensures kept { take (length (string_bytes text.old)) (string_bytes text.new) ≡ string_bytes text.old }
{
    put_those_in(text, set, &ALL_SIGNALS)
}

fn put_those_in(text: &mut String, set: SigSet, signals: &[Signal]) -> Result<(), AllocError>
    ensures ok { OnOk result (string_bytes text.new ≡ string_bytes text.old ++ spaced (map word (filter (has set) signals.now))) }
    ensures kept { take (length (string_bytes text.old)) (string_bytes text.new) ≡ string_bytes text.old }
{
    for signal in signals {
        if set.has(*signal) {
            put_word(text, word_of(*signal))?;
        }
    }
    Ok(())
}

/// Puts the changes of a child that are asked for beside its end behind a text. Where memory runs out part of them may stand there; what stood before stays.
pub fn put_changes(text: &mut String, stopped: bool, continued: bool) -> Result<(), AllocError>
    ensures ok { OnOk result (string_bytes text.new ≡ string_bytes text.old ++ spaced (change_words stopped continued)) }
    ensures kept { take (length (string_bytes text.old)) (string_bytes text.new) ≡ string_bytes text.old }
{
    match (stopped, continued) {
        (false, false) => Ok(()),
        (true, false) => text.push_str(" stopped"),
        (false, true) => text.push_str(" continued"),
        (true, true) => text.push_str(" stopped continued"),
    }
}
