//! The judgement of a witness.
ghost use Rattle.std.specs.Prelude.{◌≡◌, true, IfOk};
ghost use Rattle.history_witness.specs.Witnesses.{IsRefuted};

use history_overlaps::{CallVerdict, check_calls};
use history_reading::CallError;
use std::alloc::{AllocError, Global};
use text_devices::Input;

/// Whether `check_calls` finds that the call in this line of the text is the first wrong one. `most` is the limit on
/// configurations.
pub(crate) fn is_refuted(
    alloc: Global,
    text: &[u8],
    line: u32,
    most: usize,
) -> Result<bool, AllocError>
    ensures { IfOk result (λ refuted. refuted ≡ true → IsRefuted text.now line) }
{
    let mut input = Input::new(text);
    match check_calls(alloc, &mut input, most) {
        Ok(CallVerdict::Flawed(wrong, _)) => Ok(wrong == line),
        Ok(_) => Ok(false),
        Err(CallError::Memory) => Err(AllocError),
        Err(_) => Ok(false),
    }
}
