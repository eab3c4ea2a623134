// A machine of two nodes.
ghost use Rattle.token_laws.specs.Tokens.{node_of, lawful};

use commit_log::Machine;
use token_laws::Move;

/// The machine in which each take comes after its give.
pub struct Tokens;

impl Machine for Tokens {
    type Step = Move;

    ghost use Rattle.token_laws.proofs.Laws.{merge, causal};

    ghost node_of = { node_of };

    ghost lawful = { lawful };

    ghost empty_law = { tt };

    ghost merge_law = { merge };

    ghost causal_law = { causal };
}
