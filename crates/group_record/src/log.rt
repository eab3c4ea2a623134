// The log of a group.
ghost use Rattle.std.specs.Prelude.{◌≡◌, drop, length, ◌≤◌};
ghost use Rattle.group_record.specs.Log.{is_for, allows, concerns};

use unix_names::{Pid, Seq, Signal};

/// Which user ids a signal is for.
#[derive(Clone, Copy, Debug, PartialEq, Eq)]
pub enum Allow {
    All,
    Uid(u32),
}

/// A signal that was sent to a group or to one of its members.
#[derive(Clone, Copy, Debug, PartialEq, Eq)]
pub struct LogEntry {
    pub signal: Signal,
    /// The one process that it is for, or None for every member.
    pub target: Option<Pid>,
    pub allow: Allow,
}

impl Allow {
    /// Whether a process of that user id takes the signal.
    pub fn allows(self, uid: u32) -> bool
        ensures { result ≡ allows self uid }
    {
        match self {
            Allow::All => true,
            Allow::Uid(named) => named == uid,
        }
    }
}

impl LogEntry {
    fn is_for(&self, p: Pid) -> bool
        ensures { result ≡ is_for self.now.target p }
    {
        match self.target {
            None => true,
            Some(q) => q == p,
        }
    }

    /// Whether the signal is for a process, by its target and by its user id.
    pub fn concerns(&self, p: Pid, uid: u32) -> bool
        ensures { result ≡ concerns p uid self.now }
    {
        self.is_for(p) && self.allow.allows(uid)
    }
}

pub(crate) fn drop_front(log: &mut Seq<LogEntry>, count: usize)
    requires { count ≤ length log.old }
    ensures { log.new ≡ drop count log.old }
{
    let kept = log.len() - count;
    log.as_mut_slice().rotate_left(count);
    log.truncate(kept);
}

/// The entries from a place on; none past the end.
pub(crate) fn entries_from(log: &[LogEntry], from: u64) -> &[LogEntry]
    ensures { result.now ≡ drop from log.now }
{
    let begin = (from as usize).min(log.len());
    &log[begin..]
}
