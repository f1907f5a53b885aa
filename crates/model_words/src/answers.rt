//! Why a call makes no object, and what a step of a mesh answers. The heap and its table share these types.
use crate::{Refusal, StepKind};
use thiserror::Error;

/// The reason for which no object was made. The call has changed nothing.
#[derive(Clone, Copy, Debug, PartialEq, Eq, Error)]
pub enum NewFault {
    /// The call was refused.
    #[error("{0}")]
    Refused(Refusal),
    /// The memory allocation for a new span failed.
    #[error("out of memory")]
    Memory,
}

impl From<Refusal> for NewFault {
    ghost use Rattle.std.specs.Prelude.{◌≡◌};
    ghost use Rattle.model_words.specs.declared.answers.NewFault.TheVariants.{Refused};

    ghost from_gives = { λ refusal fault. fault ≡ Refused refusal };

    fn from(refusal: Refusal) -> NewFault {
        NewFault::Refused(refusal)
    }
}

/// The answer of a step of a mesh.
#[derive(Clone, Copy, Debug, PartialEq, Eq)]
pub struct StepDone {
    /// The kind of the step.
    pub kind: StepKind,
    /// The number of remaining steps. 0 if the mesh is over.
    pub left: u32,
}
