// Why a call was answered as it was.
ghost use Rattle.std.specs.Prelude.{◌≡◌};
ghost use Rattle.unix_calls.specs.Calls.{HasNames, EntryHasNames};
ghost use Rattle.table_view.specs.Grounds.{ground, call_ground};
ghost use Rattle.table_view.specs.MethodNumbers.{number_of, look_number, kill_number, setpgid_number};

use kernel_model::{Kernel, process_of};
use kernel_rules::refusal;
use process_table::{ProcessTable, Row};
use std::fmt;
use unix_calls::{Call, Entry, Target, target_of};
use unix_names::{Errno, SYSTEM};

/// The ground of an entry.
#[derive(Clone, Copy, Debug, PartialEq, Eq)]
pub enum Ground {
    /// The call has a refusal that holds: the number of the first, counted from 1 in the order of the kernel's rules for that call.
    Refusal(u32),
    /// No refusal of the call holds.
    Otherwise,
    /// The entry is no call.
    Event,
}

/// The ground of an entry, where the table before it is this. It takes no memory.
pub fn ground_of(kernel: &Kernel, entry: &Entry) -> Ground
    requires names { EntryHasNames entry.now }
    ensures { result ≡ ground kernel.now entry.now }
{
    match entry {
        Entry::Happened { .. } => Ground::Event,
        Entry::Called { call, .. } => match kernel.table().find(process_of(entry)) {
            None => Ground::Otherwise,
            Some(row) => call_ground(kernel.table(), &row, call),
        },
    }
}

fn call_ground(table: &ProcessTable, caller: &Row, call: &Call) -> Ground
    requires { HasNames call.now }
    ensures { result ≡ call_ground table.now caller.now call.now }
{
    match refusal(table, caller, call) {
        None => Ground::Otherwise,
        Some(errno) => Ground::Refusal(number_of(call, errno)),
    }
}

// The number of the refusal of a call that has this errno. Of `kill` two have EPERM: the one of the system process comes first.
fn number_of(call: &Call, errno: Errno) -> u32
    requires { HasNames call.now }
    ensures { result ≡ number_of call.now errno }
{
    match *call {
        Call::Getpgid(_) | Call::Getsid(_) => look_number(errno),
        Call::Kill { target, .. } => kill_number(target_of(target), errno),
        Call::Setpgid { .. } => setpgid_number(errno),
        _ => 1,
    }
}

fn look_number(errno: Errno) -> u32
    ensures { result ≡ look_number errno }
{
    match errno {
        Errno::ESRCH => 2,
        _ => 1,
    }
}

fn kill_number(target: Target, errno: Errno) -> u32
    ensures { result ≡ kill_number target errno }
{
    match errno {
        Errno::EPERM if target == Target::One(SYSTEM) => 2,
        Errno::EPERM => 4,
        Errno::ESRCH => 3,
        _ => 1,
    }
}

fn setpgid_number(errno: Errno) -> u32
    ensures { result ≡ setpgid_number errno }
{
    match errno {
        Errno::ESRCH => 2,
        Errno::EACCES => 3,
        Errno::EPERM => 4,
        _ => 1,
    }
}

impl fmt::Display for Ground {
    ghost use Rattle.std.specs.Prelude.{Some};
    ghost use Rattle.table_view.specs.Told.{ground_text};

    ghost output = { λ g. Some (ground_text g) };

    fn fmt<W: fmt::Write>(&self, f: &mut fmt::Formatter<W>) -> fmt::Result {
        match *self {
            Ground::Refusal(number) => write!(f, "refusal {number}"),
            Ground::Otherwise => write!(f, "otherwise"),
            Ground::Event => write!(f, "event"),
        }
    }
}
