// The members of a group.
ghost use Rattle.std.specs.Prelude.{◌≡◌, ◌<◌, ◌++◌, ◌∷◌, [], length, map, slice_get, remove, IsTrue, IfSome};
ghost use Rattle.std.specs.List.{list_any};
ghost use Rattle.list_laws.specs.Keyed.{Distinct};
ghost use Rattle.group_record.specs.Members.{member_number, from_in, least_of, least_from, is_behind, lowered, begun_at};
ghost use Rattle.group_record.specs.MethodPlaces.{others_first};

use unix_names::Pid;

/// A process of a group.
#[derive(Clone, Copy, Debug, PartialEq, Eq)]
pub struct Member {
    pub pid: Pid,
    /// Where the process's part of the group's log begins, as an index from 0.
    pub from: u64,
    /// The process's user id.
    pub uid: u32,
}

fn place_among(members: &[Member], p: Pid) -> usize
    ensures { result ≡ others_first p members.now }
{
    let mut rest = members;
    while let [m, others @ ..] = rest {
        if m.pid == p {
            break;
        }
        rest = others;
    }
    members.len() - rest.len()
}

// How many members stand before the first process of that id.
pub(crate) fn place_of(members: &[Member], p: Pid) -> usize
    ensures { result ≡ others_first p members.now }
{
    // Four at a time, since a group may have hundreds.
    let mut rest = members;
    while let [a, b, c, d, others @ ..] = rest {
        if a.pid == p || b.pid == p || c.pid == p || d.pid == p {
            break;
        }
        rest = others;
    }
    members.len() - rest.len() + place_among(rest, p)
}

// Whether the process stands at a place. Nobody else has its id, so that is where it stands.
pub(crate) fn stands_at(members: &[Member], at: usize, p: Pid) -> bool
    requires { Distinct member_number members.now }
    ensures { IsTrue result → at ≡ others_first p members.now }
{
    match members.get(at) {
        None => false,
        Some(m) => m.pid == p,
    }
}

// Where the process stands, if that is between two places, the second not counted.
pub(crate) fn place_within(members: &[Member], from: usize, to: usize, p: Pid) -> Option<usize>
    requires { Distinct member_number members.now }
    ensures { IfSome result (λ at. at ≡ others_first p members.now) }
{
    let end = to.min(members.len());
    let begin = from.min(end);
    let at = place_of(&members[begin..end], p).saturating_add(begin);
    if stands_at(members, at, p) {
        Some(at)
    } else {
        None
    }
}

pub(crate) fn member_at(members: &[Member], at: usize) -> Option<Member>
    ensures { result ≡ slice_get members.now at }
{
    match members.get(at) {
        None => None,
        Some(m) => Some(*m),
    }
}

pub(crate) fn least_from(members: &[Member]) -> u64
    ensures { result ≡ least_from members.now }
{
    match members.split_first() {
        None => 0,
        Some((first, others)) => least_of(first.from, others),
    }
}

// The least of a number and of where these members' parts begin. The last ones come first, since who joined early has mostly gone on. Below a 0 there is nothing to look for.
fn least_of(start: u64, members: &[Member]) -> u64
    ensures { result ≡ least_of start members.now }
{
    // Four at a time, since a group may have hundreds.
    let mut least = start;
    let mut rest = members;
    while let [others @ .., a, b, c, d] = rest {
        if least == 0 {
            return 0;
        }
        least = least.min(d.from).min(c.from).min(b.from).min(a.from);
        rest = others;
    }
    least_among(least, rest)
}

fn least_among(start: u64, members: &[Member]) -> u64
    ensures { result ≡ least_of start members.now }
{
    members.iter().fold(start, |least, m| least.min(m.from))
}

fn is_behind(m: &Member, all: u64) -> bool
    ensures { result ≡ is_behind all m.now }
{
    m.from < all.saturating_sub(m.from)
}

// Whether a member has passed less than half of a log of that length. The last ones come first, since who joined early has mostly gone on. In an empty log nobody is behind.
pub(crate) fn has_behind(members: &[Member], all: u64) -> bool
    ensures { result ≡ list_any (is_behind all) members.now }
{
    if all == 0 {
        return false;
    }
    let mut rest = members;
    while let [others @ .., m] = rest {
        if is_behind(m, all) {
            return true;
        }
        rest = others;
    }
    false
}

fn lower(m: &mut Member, by: u64)
    ensures { m.new ≡ lowered by m.old }
{
    m.from = m.from.saturating_sub(by);
}

pub(crate) fn lower_each(members: &mut [Member], by: u64)
    ensures { members.new ≡ map (lowered by) members.old }
{
    // Four at a time, since a group may have hundreds.
    let mut at = 0;
    while at + 4 <= members.len() {
        lower(&mut members[at], by);
        lower(&mut members[at + 1], by);
        lower(&mut members[at + 2], by);
        lower(&mut members[at + 3], by);
        at += 4;
    }
    while at < members.len() {
        lower(&mut members[at], by);
        at += 1;
    }
}

pub(crate) fn from_at(members: &[Member], at: usize) -> u64
    ensures { result ≡ from_in (slice_get members.now at) }
{
    match members.get(at) {
        None => 0,
        Some(m) => m.from,
    }
}

// The part of the log of who stands at this place begins elsewhere, if anyone stands there.
pub(crate) fn begin_at(members: &mut [Member], at: usize, from: u64, p: Pid)
    requires distinct { Distinct member_number members.old }
    requires place { at ≡ others_first p members.old }
    ensures { members.new ≡ map (begun_at from p) members.old }
{
    if at < members.len() {
        members[at].from = from;
    }
}

// In the place of a member another stands at the end; those behind it move up.
pub(crate) fn replace_by_last(members: &mut [Member], at: usize, m: Member)
    requires { at < length members.old }
    ensures { members.new ≡ remove members.old at ++ m ∷ [] }
{
    members[at] = m;
    members[at..].rotate_left(1);
}
