// The entry that a line means.
ghost use Rattle.std.specs.Prelude.{◌≡◌, ◌↔◌, ◌≤◌, ◌++◌, ◌∷◌, [], IsTrue, IfOk, IfSome, IsNone, length, map};
ghost use Rattle.unix_calls.specs.declared.Entry.{Entry};
ghost use Rattle.script_words.specs.Writing.{spaced};
ghost use Rattle.histories.specs.History.{line_of};
ghost use Rattle.unix_calls.specs.Calls.{HasReply};
ghost use Rattle.histories.specs.Reading.{AreWords, SpellsEntry};

use crate::loose::entry_in;
use crate::writer::put_entry;
use std::alloc::{AllocError, Global};
use unix_calls::{Call, Entry, Reply};

/// The entry that the words of a line spell, if they spell one: the words are those that are written of it.
pub fn entry_of(alloc: Global, words: &[&[u8]]) -> Result<Option<Entry>, AllocError>
    requires { AreWords (map (λ w. w.now) words.now) }
    ensures found { IfOk result (λ o. IfSome o (SpellsEntry (map (λ w. w.now) words.now))) }
    ensures none { IfOk result (λ o. IsNone o → (e : Entry) → SpellsEntry (map (λ w. w.now) words.now) e → ⊥) }
{
    let entry = entry_in(words);
    if !has_reply(&entry) {
        return Ok(None);
    }
    if is_written(alloc, words, &entry)? {
        Ok(Some(entry))
    } else {
        Ok(None)
    }
}

// Whether an entry has a reply exactly where its call is no exit.
fn has_reply(entry: &Entry) -> bool
    ensures { IsTrue result ↔ HasReply entry.now }
{
    match *entry {
        Entry::Called { call, reply, .. } => {
            matches!(call, Call::Exit(_)) == matches!(reply, Reply::NoReply)
        }
        Entry::Happened { .. } => true,
    }
}

// Whether words are written as an entry is.
fn is_written(alloc: Global, words: &[&[u8]], entry: &Entry) -> Result<bool, AllocError>
    ensures { IfOk result (λ b. IsTrue b ↔ (spaced (map (λ w. w.now) words.now) ++ 10 ∷ [] ≡ 32 ∷ line_of entry.now)) }
{
    let mut written = String::new(alloc);
    written.push_str(" ")?;
    put_entry(&mut written, entry)?;
    let joined = joined(alloc, words)?;
    Ok(joined.as_slice() == written.as_bytes())
}

// A line of words, each behind a space.
fn joined(alloc: Global, words: &[&[u8]]) -> Result<Vec<u8>, AllocError>
    ensures { IfOk result (λ v. v.items ≡ spaced (map (λ w. w.now) words.now) ++ 10 ∷ []) }
{
    let mut bytes = Vec::new(alloc);
    for word in words {
        bytes.push(b' ')?;
        bytes.extend_from_slice(word)?;
    }
    bytes.push(b'\n')?;
    Ok(bytes)
}
