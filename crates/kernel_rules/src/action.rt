// action.
ghost use Rattle.std.specs.Prelude.{◌≡◌, None};
ghost use Rattle.kernel_rules.specs.Action.{action_refusal, after_action};

use process_table::{Change, ProcessTable, Row};
use unix_calls::Reply;
use unix_names::{Act, Errno, Signal};

pub fn action_refusal(signal: Option<Signal>) -> Option<Errno>
    ensures { result ≡ action_refusal signal }
{
    match signal {
        None | Some(Signal::Kill | Signal::Stop) => Some(Errno::EINVAL),
        Some(_) => None,
    }
}

#[tactic(auto, using(crate::proofs::ActionLaws::not_fixed))]
pub fn set_action(
    table: &mut ProcessTable,
    caller: &Row,
    signal: Option<Signal>,
    act: Act,
    reply: &Reply,
)
    requires { reply.now ≡ Reply.Fine → action_refusal signal ≡ None }
    ensures { table.new ≡ after_action table.old caller.now signal act reply.now }
{
    if let Reply::Fine = *reply {
        if let Some(signal) = signal {
            table.change_row(caller.pid, &Change::Acting(signal, act));
        }
    }
}
