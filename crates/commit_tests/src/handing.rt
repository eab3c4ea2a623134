// A token goes from one node to the other.
ghost use Rattle.std.specs.Prelude.{◌≡◌, ◌<◌, ◌∷◌, [], Some};
ghost use Rattle.pasts.specs.Pasts.{Knows};
ghost use Rattle.token_laws.specs.declared.Move.TheVariants.{Give, Take};

use crate::tokens::Tokens;
use commit_log::{CommitLog, NodePass};
use token_laws::Move;

/// The giver gives, and the taker takes when it has heard of it: the places of the two steps.
pub fn hand_over(
    log: &CommitLog<Tokens>,
    giver: &mut NodePass<Tokens>,
    taker: &mut NodePass<Tokens>,
) -> (u64, u64)
    requires giver { giver.old ≡ record { log = log.now.log; node = 0; seen = [] } }
    requires taker { taker.old ≡ record { log = log.now.log; node = 1; seen = [] } }
    ensures order { result.0 < result.1 }
    ensures same { (giver.new.log ≡ log.now.log) × (taker.new.log ≡ log.now.log) }
    ensures given { Knows giver.new.seen result.0 Give × Knows taker.new.seen result.0 Give }
    ensures taken { Knows taker.new.seen result.1 Take }
{
    let given = log.commit(giver, Move::Give);
    let note = log.note(giver);
    log.learn(taker, note);
    let taken = log.commit(taker, Move::Take);
    (given, taken)
}
