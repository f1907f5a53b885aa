//! The errors of a command.
use model_words::Refusal;
use std::alloc::AllocError;

/// The reason why a command failed.
#[derive(Clone, Copy, PartialEq, Eq)]
pub enum CommandError {
    /// The reference memory refuses the command. Nothing has changed.
    Refused(Refusal),
    /// An allocation failed. The command may have had a part of its effect.
    Memory,
}

impl From<Refusal> for CommandError {
    ghost use Rattle.std.specs.Prelude.{◌≡◌};
    ghost use Rattle.history_in_order.specs.declared.faults.CommandError.TheVariants.{Refused as IsRefused};

    ghost from_gives = { λ refusal fault. fault ≡ IsRefused refusal };

    fn from(refusal: Refusal) -> CommandError {
        CommandError::Refused(refusal)
    }
}

impl From<AllocError> for CommandError {
    ghost use Rattle.std.specs.Prelude.{◌≡◌};
    ghost use Rattle.history_in_order.specs.declared.faults.CommandError.TheVariants.{Memory as OfMemory};

    ghost from_gives = { λ _ fault. fault ≡ OfMemory };

    fn from(_: AllocError) -> CommandError {
        CommandError::Memory
    }
}
