// mask and pending.
ghost use Rattle.std.specs.Prelude.{◌≡◌};
ghost use Rattle.kernel_rules.specs.Mask.{is_old_mask, after_mask, is_pending_set};

use crate::replies::is_set;
use process_table::{Change, ProcessTable, Row};
use unix_calls::Reply;
use unix_names::SigSet;

/// Whether a reply is the caller's mask.
pub fn is_old_mask(caller: &Row, reply: &Reply) -> bool
    ensures { result ≡ is_old_mask caller.now reply.now }
{
    is_set(caller.sig.mask, reply)
}

/// Sets the caller's mask.
pub fn set_mask(table: &mut ProcessTable, caller: &Row, set: SigSet)
    ensures { table.new ≡ after_mask table.old caller.now set }
{
    table.change_row(caller.pid, &Change::Masked(set));
}

/// Whether a reply is the caller's pending set.
pub fn is_pending_set(caller: &Row, reply: &Reply) -> bool
    ensures { result ≡ is_pending_set caller.now reply.now }
{
    is_set(caller.sig.pending, reply)
}
