//! Laws of the refusals in the reference memory: when each refusal holds, and that the reply is the lowest refusal that
//! holds. Each law is the contract of a function that does nothing.
ghost use Rattle.model_memory.specs.RefusalLaws.{PlainIsRefusedByLowest, StepRepliesLowest};

/// The reference memory's function (`plain`) refuses a command with the lowest refusal that holds, and does the command
/// if and only if no refusal holds. A reference step replies with the lowest refusal that holds, and replies without a
/// refusal if and only if no refusal holds. The law of the step doesn't cover a `new` of 1 to 2,048 bytes.
pub fn commands_are_refused_by_lowest()
    ensures plain { PlainIsRefusedByLowest }
    ensures step { StepRepliesLowest }
{}
