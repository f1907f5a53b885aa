//! The text of a fault.
ghost use Rattle.std.specs.Prelude.{◌≡◌, ◌++◌, OnOk};
ghost use Rattle.run_live.specs.Answers.{fault_text};

use model_words::FaultKind;
use std::alloc::AllocError;

/// Appends `fault KIND`.
pub(crate) fn add_fault(text: &mut Vec<u8>, kind: FaultKind) -> Result<(), AllocError>
    ensures { OnOk result (text.new.items ≡ text.old.items ++ fault_text kind) }
{
    text.extend_from_slice(b"fault ")?;
    text.extend_from_slice(kind.name().as_bytes())
}
