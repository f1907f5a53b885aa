//! Laws of the refusals of commands over a table. Each law is the contract of a function that does nothing.
ghost use Rattle.model_jobs.specs.RefusalLaws.{AnswerIsLowest, HeldBackUnrefused};

/// A command over a table is refused if and only if some refusal holds. The answer is then the lowest refusal that
/// holds.
pub fn answers_are_refused_by_lowest()
    ensures { AnswerIsLowest }
{}

/// A command is blocked if and only if no refusal holds and the command would write to a read-only page.
pub fn unrefused_commands_are_held_back()
    ensures { HeldBackUnrefused }
{}
