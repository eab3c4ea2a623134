// The text of a history.
ghost use Rattle.std.specs.Prelude.{◌≡◌, ◌++◌, ◌∷◌, [], All, IfOk, OnOk, take, length};
ghost use Rattle.std.specs.String.{string_bytes};
ghost use Rattle.unix_calls.specs.Calls.{IsEntry};
ghost use Rattle.script_words.specs.Writing.{spaced};
ghost use Rattle.histories.specs.History.{set_words, call_word, argument_words, call_words, status_words, reply_words, event_words, line_of, last_line, text as text_of};

use script_words::{
    Verb, act_word, errno_word, put_changes, put_members, put_number, put_signal, put_word,
    verb_word,
};
use std::alloc::{AllocError, Global};
use unix_calls::{Call, Entry, Event, Reply};
use unix_names::{NoMemory, SigSet, WaitStatus, word_of};

/// The text of a history: a line for each entry, and the last line, `quiet` or `open`.
pub fn put_history(alloc: Global, entries: &[Entry], is_quiet: bool) -> Result<Vec<u8>, NoMemory>
    requires { All IsEntry entries.now }
    ensures { IfOk result (λ bytes. bytes.items ≡ text_of entries.now is_quiet) }
{
    let mut text = String::new(alloc);
    for entry in entries {
        put_entry(&mut text, entry)?;
    }
    put_last(&mut text, is_quiet)?;
    Ok(text.into_bytes())
}

/// Puts the last line at the end of a text. Where memory runs out the text may have part of it.
pub(crate) fn put_last(text: &mut String, is_quiet: bool) -> Result<(), AllocError>
    ensures { OnOk result (string_bytes text.new ≡ string_bytes text.old ++ last_line is_quiet) }
{
    if is_quiet {
        text.push_str("quiet\n")
    } else {
        text.push_str("open\n")
    }
}

/// Puts the line of an entry at the end of a text. Where memory runs out the text may have part of it.
pub(crate) fn put_entry(text: &mut String, entry: &Entry) -> Result<(), AllocError>
    ensures { OnOk result (string_bytes text.new ≡ string_bytes text.old ++ line_of entry.now) }
{
    match *entry {
        Entry::Called {
            caller,
            call,
            reply,
        } => {
            let pid = caller.0;
            write!(text, "{pid}")?;
            put_call(text, &call)?;
            put_reply(text, reply)?;
        }
        Entry::Happened { pid, event } => {
            let pid = pid.0;
            write!(text, "{pid}")?;
            put_event(text, event)?;
        }
    }
    text.push_str("\n")
}

fn put_call(text: &mut String, call: &Call) -> Result<(), AllocError>
    ensures { OnOk result (string_bytes text.new ≡ string_bytes text.old ++ spaced (call_words call.now)) }
{
    put_word(text, call_text(call))?;
    put_arguments(text, call)
}

fn call_text(call: &Call) -> &'static str
    ensures { result.now ≡ call_word call.now }
{
    match call {
        Call::Getpid => verb_word(Verb::Getpid),
        Call::Getppid => verb_word(Verb::Getppid),
        Call::Getpgid(_) => verb_word(Verb::Getpgid),
        Call::Getsid(_) => verb_word(Verb::Getsid),
        Call::Fork => verb_word(Verb::Fork),
        Call::Exec => verb_word(Verb::Exec),
        Call::Exit(_) => verb_word(Verb::Exit),
        Call::Waitpid { .. } => "waitpid",
        Call::Kill { .. } => verb_word(Verb::Kill),
        Call::Setpgid { .. } => verb_word(Verb::Setpgid),
        Call::Setsid => verb_word(Verb::Setsid),
        Call::Action { .. } => verb_word(Verb::Action),
        Call::Mask(_) => verb_word(Verb::Mask),
        Call::Pending => verb_word(Verb::Pending),
        Call::Migrate => verb_word(Verb::Migrate),
    }
}

fn put_arguments(text: &mut String, call: &Call) -> Result<(), AllocError>
    ensures { OnOk result (string_bytes text.new ≡ string_bytes text.old ++ spaced (argument_words call.now)) }
{
    match *call {
        Call::Getpgid(target) | Call::Getsid(target) => write!(text, " {target}"),
        Call::Exit(number) => write!(text, " {number}"),
        Call::Waitpid {
            sel,
            stopped,
            continued,
        } => {
            write!(text, " {sel}")?;
            put_changes(text, stopped, continued)
        }
        Call::Kill { target, sig } => {
            write!(text, " {target}")?;
            put_signal(text, sig)
        }
        Call::Setpgid { pid, pgid } => write!(text, " {pid} {pgid}"),
        Call::Action { sig, act } => {
            put_signal(text, sig)?;
            put_word(text, act_word(act))
        }
        Call::Mask(set) => put_set(text, set),
        _ => Ok(()),
    }
}

fn put_reply(text: &mut String, reply: Reply) -> Result<(), AllocError>
    ensures { OnOk result (string_bytes text.new ≡ string_bytes text.old ++ spaced (reply_words reply)) }
{
    match reply {
        Reply::Fine => text.push_str(" = ok"),
        Reply::Number(number) => write!(text, " = {number}"),
        Reply::Set(set) => {
            text.push_str(" =")?;
            put_set(text, set)
        }
        Reply::Child(child, status) => {
            let pid = child.0;
            write!(text, " = {pid}")?;
            put_status(text, status)
        }
        Reply::Again => text.push_str(" = again"),
        Reply::Refused(errno) => {
            text.push_str(" =")?;
            put_word(text, errno_word(errno))
        }
        Reply::NoReply => Ok(()),
    }
}

fn put_event(text: &mut String, event: Event) -> Result<(), AllocError>
    ensures { OnOk result (string_bytes text.new ≡ string_bytes text.old ++ spaced (event_words event)) }
{
    match event {
        Event::Caught(signal) => put_two(text, " caught", word_of(signal)),
        Event::Discarded(signal) => put_two(text, " discarded", word_of(signal)),
        Event::StoppedBy(signal) => put_two(text, " stopped", word_of(signal)),
        Event::EndedBy(signal) => put_two(text, " ended", word_of(signal)),
        Event::Continued => text.push_str(" continued"),
        Event::Moved => text.push_str(" moved"),
    }
}

/// Puts how a process ended or changed at the end of a text. Where memory runs out part of it may stand there; what stood before stays.
pub fn put_status(text: &mut String, status: WaitStatus) -> Result<(), AllocError>
    ensures ok { OnOk result (string_bytes text.new ≡ string_bytes text.old ++ spaced (status_words status)) }
    ensures kept { take (length (string_bytes text.old)) (string_bytes text.new) ≡ string_bytes text.old }
{
    match status {
        WaitStatus::Exited(number) => {
            text.push_str(" exited")?;
            put_number(text, u32::from(number))
        }
        WaitStatus::Killed(signal) => put_two(text, " killed", word_of(signal)),
        WaitStatus::Stopped(signal) => put_two(text, " stopped", word_of(signal)),
        WaitStatus::Continued => text.push_str(" continued"),
    }
}

/// Puts the words of a set's signals by number, or a dash, at the end of a text. Where memory runs out part of them may stand there; what stood before stays.
pub fn put_set(text: &mut String, set: SigSet) -> Result<(), AllocError>
    ensures ok { OnOk result (string_bytes text.new ≡ string_bytes text.old ++ spaced (set_words set)) }
    ensures kept { take (length (string_bytes text.old)) (string_bytes text.new) ≡ string_bytes text.old }
{
    if set.is_empty() {
        return text.push_str(" -");
    }
    put_members(text, set)
}

// A first piece, and a word behind a space.
fn put_two(text: &mut String, first: &str, word: &str) -> Result<(), AllocError>
    ensures ok { OnOk result (string_bytes text.new ≡ string_bytes text.old ++ first.now ++ 32 ∷ word.now) }
    ensures kept { take (length (string_bytes text.old)) (string_bytes text.new) ≡ string_bytes text.old }
{
    text.push_str(first)?;
    put_word(text, word)
}

#[cfg(test)]
mod tests {
    use super::*;
    use std::test::Fail;
    use unix_names::{Act, Errno, Pid, Signal};

    fn two_signals() -> SigSet {
        SigSet::empty().with(Signal::Term).with(Signal::Usr1)
    }

    fn waited() -> Call {
        Call::Waitpid {
            sel: -1,
            stopped: true,
            continued: true,
        }
    }

    #[test]
    fn writes_calls(rt: HostRuntime) -> Result<(), Fail> {
        let grouped = Call::Setpgid {
            pid: 0,
            pgid: -4_294_967_295,
        };
        let killed = Call::Kill { target: 2, sig: 77 };
        let caught = Call::Action {
            sig: 17,
            act: Act::Catch,
        };
        let cases = [
            (Call::Getpgid(0), Reply::Number(2), " getpgid 0 = 2"),
            (Call::Exit(263), Reply::NoReply, " exit 263"),
            (
                waited(),
                Reply::Child(Pid(3), WaitStatus::Exited(7)),
                " waitpid -1 stopped continued = 3 exited 7",
            ),
            (
                waited(),
                Reply::Child(Pid(3), WaitStatus::Stopped(Signal::Tstp)),
                " waitpid -1 stopped continued = 3 stopped TSTP",
            ),
            (
                grouped,
                Reply::Refused(Errno::EINVAL),
                " setpgid 0 -4294967295 = EINVAL",
            ),
            (killed, Reply::Fine, " kill 2 77 = ok"),
            (caught, Reply::Fine, " action CHLD catch = ok"),
            (
                Call::Mask(two_signals()),
                Reply::Set(SigSet::empty()),
                " mask USR1 TERM = -",
            ),
            (
                Call::Pending,
                Reply::Set(two_signals()),
                " pending = USR1 TERM",
            ),
        ];
        for (call, reply, line) in cases {
            let mut text = String::new(rt.alloc());
            put_call(&mut text, &call)?;
            put_reply(&mut text, reply)?;
            assert_eq!(rt; text.as_str(), line);
        }
        Ok(())
    }

    #[test]
    fn writes_history(rt: HostRuntime) -> Result<(), Fail> {
        let entries = [Entry::Happened {
            pid: Pid(1_000_002),
            event: Event::EndedBy(Signal::Hup),
        }];
        let text = put_history(rt.alloc(), &entries, false).map_err(|_| Fail::from("no memory"))?;
        assert_eq!(rt; text.as_slice(), "1000002 ended HUP\nopen\n".as_bytes());
        Ok(())
    }
}
