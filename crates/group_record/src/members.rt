// The members of a group, found by where they stood when they joined.
ghost use Rattle.std.specs.Prelude.{◌≡◌, ◌==◌, ◌↔◌, ◌<◌, ◌≤◌, ◌++◌, ◌∷◌, [], false, not, length, map, filter, remove, IsTrue, IfOk, IfSome, OnOk, OnErr};
ghost use Rattle.std.specs.List.{list_any};
ghost use Rattle.list_laws.specs.Keyed.{Distinct};
ghost use Rattle.group_record.specs.Members.{member_number, member_of, has_member, from_of, least_from, is_behind, lowered, begun_at};
ghost use Rattle.group_record.specs.MethodPlaces.{others_first};

use crate::member::{
    Member, begin_at, from_at, has_behind, least_from, lower_each, member_at, place_of,
    place_within, replace_by_last, stands_at,
};
use ordered_table::Table;
use std::alloc::Global;
use std::marker::Model;
use unix_names::{NoMemory, Pid, Seq};

// The first members are looked at one by one, so many of them; where one joined is noted only for those behind them.
const FEW: usize = 16;

// Where a member stood when it joined, and how many had left the group by then.
#[derive(Clone, Copy, Debug, PartialEq, Eq)]
struct Joining {
    at: usize,
    left: usize,
}

/// The members of a group in the order in which they joined, each process once. Contracts see the list.
///
/// A look-up mostly takes as many steps as a look-up in a table. Where some of those who have left since the member joined stood before it, and some behind it, it may go through all members.
#[derive(Debug, Drop)]
pub struct Members {
    list: Seq<Member>,
    // From a note it is only guessed where a member stands, so not every member needs one.
    joinings: Table<Joining>,
    // How many have left.
    left: usize,
}

impl Model for Members {
    ghost use Rattle.std.specs.Prelude.{List};
    ghost use Rattle.list_laws.specs.Keyed.{Distinct};
    ghost use Rattle.group_record.specs.declared.member.Member.{Member as TheMember};
    ghost use Rattle.group_record.specs.Members.{member_number};

    ghost Value = { List TheMember };

    ghost view = { λ m. m.list };

    ghost invariant = { λ m. Distinct member_number m.list };
}

// Notes where a member stands that has just joined, if others stand before it. Where there is no memory for the note it is left out, and the member is looked for.
fn note(joinings: &mut Table<Joining>, p: Pid, at: usize, left: usize) {
    if at >= FEW {
        let _ = joinings.put(p, Joining { at, left });
    }
}

impl Members {
    /// No members. It takes no memory.
    pub fn new(alloc: Global) -> Members
        ensures { result ≡ [] }
    {
        Members {
            list: Seq::new(alloc),
            joinings: Table::new(alloc),
            left: 0,
        }
    }

    /// The members in the order in which they joined.
    pub fn as_slice(&self) -> &[Member]
        ensures items { result.now ≡ self.now }
        ensures distinct { Distinct member_number self.now }
    {
        self.list.as_slice()
    }

    /// How many members there are.
    pub fn len(&self) -> usize
        ensures { result ≡ length self.now }
    {
        self.list.len()
    }

    /// Whether there are no members.
    pub fn is_empty(&self) -> bool
        ensures { IsTrue result ↔ (self.now ≡ []) }
    {
        self.list.is_empty()
    }

    // Where a process stands, if its note tells it. Of those who have left since, as many stood before it as it has moved up: none, all, a few, or all but a few.
    fn noted_place(&self, p: Pid) -> Option<usize>
        ensures { IfSome result (λ at. at ≡ others_first p self.now) }
    {
        let members = self.list.as_slice();
        let Some(joining) = self.joinings.get(p) else {
            return None;
        };
        let unmoved = joining.at;
        let since = self.left.saturating_sub(joining.left);
        let moved = unmoved.saturating_sub(since);
        if stands_at(members, unmoved, p) {
            return Some(unmoved);
        }
        if stands_at(members, moved, p) {
            return Some(moved);
        }
        match place_within(members, unmoved.saturating_sub(FEW), unmoved, p) {
            None => place_within(members, moved, moved.saturating_add(FEW), p),
            found => found,
        }
    }

    // How many members stand before a process.
    fn place(&self, p: Pid) -> usize
        ensures place { result ≡ others_first p self.now }
        ensures within { result ≤ length self.now }
        ensures distinct { Distinct member_number self.now }
    {
        let members = self.list.as_slice();
        let few = members.len().min(FEW);
        let early = place_of(&members[..few], p);
        if early < few {
            return early;
        }
        match self.noted_place(p) {
            Some(at) => at,
            None => few + place_of(&members[few..], p),
        }
    }

    /// The member of that process id, if there is one.
    pub fn member_of(&self, p: Pid) -> Option<Member>
        ensures { result ≡ member_of self.now p }
    {
        member_at(self.list.as_slice(), self.place(p))
    }

    /// Whether a process is a member.
    pub fn has(&self, p: Pid) -> bool
        ensures { result ≡ has_member self.now p }
    {
        self.member_of(p).is_some()
    }

    /// Where a process's part of the log begins, 0 for who is no member.
    pub fn from_of(&self, p: Pid) -> u64
        ensures { result ≡ from_of self.now p }
    {
        from_at(self.list.as_slice(), self.place(p))
    }

    /// The least `from`, or 0 with no member.
    pub fn least_from(&self) -> u64
        ensures { result ≡ least_from self.now }
    {
        least_from(self.list.as_slice())
    }

    /// Whether a member has passed less than half of a log of that length.
    pub fn has_behind(&self, all: u64) -> bool
        ensures { result ≡ list_any (is_behind all) self.now }
    {
        has_behind(self.list.as_slice(), all)
    }

    /// Puts a member last.
    pub fn add(&mut self, m: Member) -> Result<(), NoMemory>
        requires { has_member self.old m.pid ≡ false }
        ensures ok { OnOk result (self.new ≡ self.old ++ m ∷ []) }
        ensures err { OnErr result (self.new ≡ self.old) }
    {
        let at = self.list.len();
        self.list.push(m)?;
        note(&mut self.joinings, m.pid, at, self.left);
        Ok(())
    }

    /// Takes a process out; the others keep their order. Tells whether it was there. It takes no memory.
    pub fn remove(&mut self, p: Pid) -> bool
        ensures was { result ≡ has_member self.old p }
        ensures left { self.new ≡ filter (λ m. not (m.pid.0 == p.0)) self.old }
    {
        let at = self.place(p);
        if at == self.len() {
            return false;
        }
        self.remove_at(at);
        true
    }

    /// Takes the member at a place out; the others keep their order. It takes no memory.
    pub fn remove_at(&mut self, at: usize)
        requires { at < length self.old }
        ensures { self.new ≡ remove self.old at }
    {
        let m = self.list.remove(at);
        self.joinings.remove(m.pid);
        self.left = self.left.saturating_add(1);
    }

    /// The process is a member once, the last. Where it was one already that takes no memory.
    pub fn move_last(&mut self, m: Member) -> Result<(), NoMemory>
        ensures ok { OnOk result (self.new ≡ filter (λ k. not (k.pid.0 == m.pid.0)) self.old ++ m ∷ []) }
        ensures err { OnErr result (self.new ≡ self.old) }
    {
        let at = self.place(m.pid);
        if at == self.len() {
            return self.add(m);
        }
        self.move_to_end(at, m);
        Ok(())
    }

    // A member leaves its place and is the last, as this.
    fn move_to_end(&mut self, at: usize, m: Member)
        requires within { at < length self.old }
        requires place { at ≡ others_first m.pid self.old }
        ensures { self.new ≡ filter (λ k. not (k.pid.0 == m.pid.0)) self.old ++ m ∷ [] }
    {
        let last = self.list.len() - 1;
        replace_by_last(self.list.as_mut_slice(), at, m);
        self.left = self.left.saturating_add(1);
        self.joinings.remove(m.pid);
        note(&mut self.joinings, m.pid, last, self.left);
    }

    /// A process's part of the log begins at this place, if it is a member. Answers where it began before, 0 for who is no member. It takes no memory.
    pub fn begin_at(&mut self, from: u64, p: Pid) -> u64
        ensures began { result ≡ from_of self.old p }
        ensures begun { self.new ≡ map (begun_at from p) self.old }
    {
        let at = self.place(p);
        let began = from_at(self.list.as_slice(), at);
        begin_at(self.list.as_mut_slice(), at, from, p);
        began
    }

    /// Each `from` is lowered by a number. It takes no memory.
    pub fn lower_each(&mut self, by: u64)
        ensures { self.new ≡ map (lowered by) self.old }
    {
        lower_each(self.list.as_mut_slice(), by);
    }

    /// An equal list.
    pub fn copy(&self) -> Result<Members, NoMemory>
        ensures { IfOk result (λ m. m ≡ self.now) }
    {
        let items = self.list.clone()?.into_vec();
        let mut joinings = Table::new(*items.allocator());
        for at in 0..items.len() {
            note(&mut joinings, items[at].pid, at, 0);
        }
        Ok(Members {
            list: Seq::from_vec(items),
            joinings,
            left: 0,
        })
    }
}
