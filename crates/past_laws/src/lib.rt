//! The merge law and the causal law of the machine of nodes, whatever the decisions, as the contracts of functions without a body.
#![tactic(auto)]

ghost use Rattle.std.specs.Prelude.{ℕ, List};
ghost use Rattle.past_laws.specs.Laws.{MergesPasts, NothingIsPossible, PastsAreTrue, PastsStayTrue, TurnsAreCausal};
ghost use Rattle.past_laws.specs.Numbers.{LargerIsPossible, NumbersChoose, OwnTurnsAreEnough};

/// Two pasts of a list of possible turns are a past together; and a turn that is possible after a past with all turns of its node is possible after the whole list.
pub fn pasts_merge_and_are_causal()
    ensures none { NothingIsPossible }
    ensures merge { MergesPasts }
    ensures causal { TurnsAreCausal }
{}

/// What a past tells is so: of the states of nodes of which it has all turns, of the lines of its turns, and of messages that are not taken yet; in the whole list, and in each larger past.
pub fn pasts_tell_the_truth()
    ensures whole { PastsAreTrue }
    ensures larger { PastsStayTrue }
{}

/// One number a node chooses a past of a list of steps, the larger of two numbers choose what one past or the other has, and each past is chosen so; for any machine.
pub fn numbers_choose_pasts<S>()
    ensures { (node : S → ℕ) → (log : List S) → NumbersChoose node log }
{}

/// The merge law and the causal law, said by numbers: the larger numbers of two possible pasts choose a possible one; and a possible past with all turns of a node gives it the state that the whole list gives it, and a turn that is possible after the past is possible after the list.
pub fn numbers_keep_both_laws()
    ensures merge { LargerIsPossible }
    ensures causal { OwnTurnsAreEnough }
{}
