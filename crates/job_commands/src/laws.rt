// What is so of the texts of the commands by the definitions alone.
ghost use Rattle.command_ends.specs.Laws.{HasOneAnswer};
ghost use Rattle.job_commands.specs.Compiling.{Compiles};

/// `compile` has one answer to each input: a job file is compiled to one text, or has one least fault, and not both.
pub fn compile_is_one()
    ensures { HasOneAnswer Compiles }
{}
