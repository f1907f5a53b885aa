//! The text of a phase.
ghost use Rattle.std.specs.Prelude.{◌≡◌, ◌++◌, OnOk};
ghost use Rattle.explore_report.specs.EndTexts.{phase_text};

use crate::LastStep;
use crate::outcome_text::add_numbered;
use mesh_running::kind_name;
use std::alloc::AllocError;

/// Adds the name of a phase.
pub(crate) fn add_phase(text: &mut Vec<u8>, phase: LastStep) -> Result<(), AllocError>
    ensures { OnOk result (text.new.items ≡ text.old.items ++ phase_text phase) }
{
    match phase {
        LastStep::Before => text.extend_from_slice(b"before"),
        LastStep::Begun => text.extend_from_slice(b"begun"),
        LastStep::Stepped(kind, made) => add_numbered(
            text,
            kind_name(kind).as_bytes(),
            u64::from(made),
        ),
        LastStep::Over => text.extend_from_slice(b"over"),
        LastStep::Cancelled(0) => text.extend_from_slice(b"cancelled"),
        LastStep::Cancelled(made) => add_numbered(text, b"unwound", u64::from(made)),
        LastStep::Unwound => text.extend_from_slice(b"unwound"),
        LastStep::Refused => text.extend_from_slice(b"refused"),
    }
}
