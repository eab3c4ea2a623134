//! The rules on orphaned groups, told of what members know of their parents, are those of the one kernel.
#![tactic(auto)]

ghost use Rattle.orphan_laws.specs.Laws.{LinksAgree, OrphanedAgrees, NewlyAgrees};

/// A list that has the living members of a group tells of it what the table tells.
pub fn members_tell_what_the_table_tells()
    ensures links { LinksAgree }
    ensures orphaned { OrphanedAgrees }
    ensures newly { NewlyAgrees }
{}
