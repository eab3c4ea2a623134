// What is so of each choice, as the contracts of functions without a body.
ghost use Rattle.kernel_choice.specs.Laws.{ChosenEventMayHappen, NoneIsChosen, NoneIsChosenWhereClear, ChosenReplyIsAllowed, ExitAloneGetsNone, EntriesHaveNames};

/// The event that is chosen may happen; none is chosen exactly where nothing is deliverable and no continuing is due.
pub fn chosen_event()
    ensures may { ChosenEventMayHappen }
    ensures none { NoneIsChosen }
    ensures clear { NoneIsChosenWhereClear }
{}

/// The reply that is chosen is one that the call may get; it is none exactly for an exit; the entry has the call's names.
pub fn chosen_reply()
    ensures allowed { ChosenReplyIsAllowed }
    ensures none { ExitAloneGetsNone }
    ensures names { EntriesHaveNames }
{}
