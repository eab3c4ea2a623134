//! Runs of schedules and the numbers of messages, whatever the decisions, as the contracts of functions without a body.
#![tactic(auto)]

ghost use Rattle.turn_laws.specs.Numbers.{NumbersFit, NodesSendAll};
ghost use Rattle.turn_laws.specs.Schedules.{MadeArePossible, PossibleAreMade, RunsOn, RuleEnds, QuietEndsRule, OneTurn, OneRun, RunsJoin, OneSchedule};

/// The turns that a schedule makes are possible and give what the schedule gives; possible turns are all made; and a schedule that goes on by the rule is the run of the turns that it made.
pub fn schedules_make_possible_turns()
    ensures made { MadeArePossible }
    ensures all { PossibleAreMade }
    ensures on { RunsOn }
{}

/// The rule of `auto` finds no turn exactly where the cluster is quiet.
pub fn the_rule_ends_where_it_is_quiet()
    ensures ends { RuleEnds }
    ensures quiet { QuietEndsRule }
{}

/// A turn, a list of turns and a schedule have one outcome each, and a run after a run is a run.
pub fn each_schedule_has_one_run()
    ensures turn { OneTurn }
    ensures run { OneRun }
    ensures joins { RunsJoin }
    ensures schedule { OneSchedule }
{}

/// The messages on each wire between nodes have the numbers from the one on that their taker expects, and between two turns nothing waits to be sent.
pub fn messages_are_numbered()
    ensures fit { NumbersFit }
    ensures sent { NodesSendAll }
{}
