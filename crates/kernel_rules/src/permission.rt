// Who may signal whom (POSIX.1-2017, XSH kill).
ghost use Rattle.std.specs.Prelude.{◌≡◌};
ghost use Rattle.kernel_rules.specs.Permission.{may};

use process_table::Row;
use unix_names::{Signal, number_of};

/// Whether a caller may send a signal, or 0, to a process (POSIX.1-2017, XSH kill).
pub fn may(caller: &Row, receiver: &Row, signal: u32) -> bool
    ensures { result ≡ may caller.now receiver.now signal }
{
    caller.uid == 0
        || caller.uid == receiver.uid
        || (signal == number_of(Signal::Cont) && receiver.session == caller.session)
}
