// The forms of replies, and a reply that tells a refusal.
ghost use Rattle.std.specs.Prelude.{◌≡◌};
ghost use Rattle.kernel_rules.specs.Replies.{is_number, is_set, is_same_errno, is_refused_with};

use unix_calls::Reply;
use unix_names::{Errno, SigSet};

pub fn is_number(number: u32, reply: &Reply) -> bool
    ensures { result ≡ is_number number reply.now }
{
    match *reply {
        Reply::Number(other) => other == number,
        _ => false,
    }
}

pub fn is_set(set: SigSet, reply: &Reply) -> bool
    ensures { result ≡ is_set set reply.now }
{
    match *reply {
        Reply::Set(other) => other == set,
        _ => false,
    }
}

fn is_same_errno(errno: Errno, other: Errno) -> bool
    ensures { result ≡ is_same_errno errno other }
{
    errno == other
}

pub fn is_refused_with(errno: Errno, reply: &Reply) -> bool
    ensures { result ≡ is_refused_with errno reply.now }
{
    match *reply {
        Reply::Refused(other) => is_same_errno(errno, other),
        _ => false,
    }
}
