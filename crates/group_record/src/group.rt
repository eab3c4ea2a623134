// The record of a process group.
ghost use Rattle.std.specs.Prelude.{◌≡◌, ◌≢◌, ◌≤◌, ◌++◌, [], ℕ, false, true, ◌↔◌, length, drop, map, All, IsTrue, IfOk, OnOk, OnErr};
ghost use Rattle.unix_names.specs.declared.Pid.{Pid};
ghost use Rattle.group_record.specs.Members.{member_of, has_member, from_of, begun_at};
ghost use Rattle.group_record.specs.Log.{log_part, told};
ghost use Rattle.group_record.specs.Groups.{joined, left, with_entry, cut, spare, trimmed, settled};

use crate::log::{Allow, LogEntry, drop_front, entries_from};
use crate::member::Member;
use crate::members::Members;
use unix_names::{NoMemory, Pid, Seq, Signal};

/// The record of a process group.
#[derive(Debug, Drop)]
pub struct Group {
    pub id: Pid,
    pub session: Pid,
    /// The processes of the group, ended ones too, in the order in which they joined.
    pub members: Members,
    /// The signals that were sent to the group and that some member may not have taken.
    pub log: Seq<LogEntry>,
    /// How many living members have a parent in the session and outside the group.
    pub links: u32,
    /// How many living members are stopped.
    pub stopped: u32,
}

impl Group {
    /// The member of that process id, if there is one.
    pub fn member_of(&self, p: Pid) -> Option<Member>
        ensures { result ≡ member_of self.now.members p }
    {
        self.members.member_of(p)
    }

    /// Whether a process is a member.
    pub fn has_member(&self, p: Pid) -> bool
        ensures { result ≡ has_member self.now.members p }
    {
        self.members.has(p)
    }

    /// The entries of the log from where a process's part begins. For who is no member that is the whole log.
    pub fn part_of(&self, p: Pid) -> &[LogEntry]
        ensures { result.now ≡ drop (from_of self.now.members p) self.now.log }
    {
        // An empty log has nothing for anyone.
        if self.log.is_empty() {
            return self.log.as_slice();
        }
        entries_from(self.log.as_slice(), self.members.from_of(p))
    }

    /// Whether there are no members. It takes no memory.
    pub fn is_empty(&self) -> bool
        ensures { IsTrue result ↔ (self.now.members ≡ []) }
    {
        self.members.is_empty()
    }

    /// Puts a process last among the members. Its part of the log begins at the log's end.
    pub fn join(&mut self, p: Pid, uid: u32) -> Result<(), NoMemory>
        requires { has_member self.old.members p ≡ false }
        ensures ok { OnOk result (self.new ≡ joined self.old p uid) }
        ensures err { OnErr result (self.new ≡ self.old) }
        ensures empty_part { OnOk result (log_part p uid self.new ≡ []) }
        ensures others { OnOk result ((q : Pid) (u : ℕ) → q.0 ≢ p.0 → log_part q u self.new ≡ log_part q u self.old) }
    {
        let from = self.log.len() as u64;
        self.members.add(Member { pid: p, from, uid })
    }

    /// Takes a process out of the members; the others keep their order. Tells whether it was there. It takes no memory.
    pub fn leave(&mut self, p: Pid) -> bool
        ensures was { result ≡ has_member self.old.members p }
        ensures left { self.new ≡ left self.old p }
        ensures others { (q : Pid) (u : ℕ) → q.0 ≢ p.0 → log_part q u self.new ≡ log_part q u self.old }
    {
        self.members.remove(p)
    }

    /// Puts a signal at the end of the log. No target means every member.
    pub fn append(
        &mut self,
        signal: Signal,
        target: Option<Pid>,
        allow: Allow,
    ) -> Result<(), NoMemory>
        ensures ok { OnOk result (self.new ≡ with_entry self.old (record { signal = signal; target = target; allow = allow })) }
        ensures err { OnErr result (self.new ≡ self.old) }
        ensures grows { OnOk result ((p : Pid) (uid : ℕ) → from_of self.old.members p ≤ length self.old.log → log_part p uid self.new ≡ log_part p uid self.old ++ told p uid (record { signal = signal; target = target; allow = allow })) }
    {
        self.log.push(LogEntry {
            signal,
            target,
            allow,
        })?;
        Ok(())
    }

    /// Drops from the front of the log what no member has still to take: as many entries as the least `from` says, once that is half of the log. Each `from` is lowered by that number. It takes no memory.
    pub fn trim(&mut self)
        requires { All (λ m. m.from ≤ length self.old.log) self.old.members }
        ensures trimmed { self.new ≡ trimmed self.old }
        ensures streams { (p : Pid) (uid : ℕ) → has_member self.old.members p ≡ true → log_part p uid self.new ≡ log_part p uid self.old }
        ensures within { All (λ m. m.from ≤ length self.new.log) self.new.members }
    {
        let count = self.spare();
        self.cut(count);
    }

    fn spare(&self) -> u64
        ensures { result ≡ spare self.now }
    {
        if self.members.has_behind(self.log.len() as u64) {
            return 0;
        }
        self.members.least_from()
    }

    fn cut(&mut self, count: u64)
        requires { count ≤ length self.old.log }
        ensures { self.new ≡ cut count self.old }
    {
        // Most decisions find nothing that every member has passed.
        if count == 0 {
            return;
        }
        self.members.lower_each(count);
        drop_front(&mut self.log, count as usize);
    }

    /// Empties a process's part of the log: it begins at the log's end. It takes no memory.
    pub fn settle(&mut self, p: Pid)
        ensures settled { self.new ≡ settled self.old p }
        ensures empty_part { has_member self.old.members p ≡ true → (uid : ℕ) → log_part p uid self.new ≡ [] }
        ensures others { (q : Pid) (u : ℕ) → q.0 ≢ p.0 → log_part q u self.new ≡ log_part q u self.old }
        ensures within { All (λ m. m.from ≤ length self.old.log) self.old.members → All (λ m. m.from ≤ length self.new.log) self.new.members }
    {
        let end = self.log.len() as u64;
        self.begin_at(end, p);
    }

    /// The same, and answers where the part began, 0 for who is no member. It takes no memory.
    pub fn settle_from(&mut self, p: Pid) -> u64
        ensures began { result ≡ from_of self.old.members p }
        ensures settled { self.new ≡ settled self.old p }
    {
        let end = self.log.len() as u64;
        self.members.begin_at(end, p)
    }

    /// The entries of the log from a place on; none past the end.
    pub fn entries_from(&self, from: u64) -> &[LogEntry]
        ensures { result.now ≡ drop from self.now.log }
    {
        entries_from(self.log.as_slice(), from)
    }

    /// A process's part of the log begins at this place, if it is a member. It takes no memory.
    pub fn begin_at(&mut self, from: u64, p: Pid)
        ensures { self.new ≡ record self.old { members = map (begun_at from p) self.old.members } }
    {
        self.members.begin_at(from, p);
    }

    /// An equal record.
    pub fn copy(&self) -> Result<Group, NoMemory>
        ensures { IfOk result (λ g. g ≡ self.now) }
    {
        let members = self.members.copy()?;
        let log = self.log.clone()?;
        Ok(Group {
            id: self.id,
            session: self.session,
            members,
            log,
            links: self.links,
            stopped: self.stopped,
        })
    }
}
