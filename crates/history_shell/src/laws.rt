// What is so of the answers by the definitions alone.
ghost use Rattle.std.specs.Prelude.{ℕ};
ghost use Rattle.command_ends.specs.Laws.{HasOneAnswer};
ghost use Rattle.history_shell.specs.Audit.{Audits};
ghost use Rattle.history_shell.specs.Tables.{TellsTable, TellsGround};

/// An input has one answer to `audit`: one status, and one text. So no history is judged that has a bad line.
pub fn audit_is_one()
    ensures { HasOneAnswer Audits }
{}

/// An input has one answer to `table`.
pub fn table_is_one()
    ensures { (at : ℕ) → HasOneAnswer (TellsTable at) }
{}

/// An input has one answer to `why`.
pub fn why_is_one()
    ensures { (at : ℕ) → HasOneAnswer (TellsGround at) }
{}
