//! The reasons for the faults BYTE and CUT.
ghost use Rattle.std.specs.Prelude.{◌≡◌, false, IfSome};
ghost use Rattle.text_fields.specs.JobFiles.{is_printable};
ghost use Rattle.text_reasons.specs.Reasons.{byte_of};

use crate::places::{Line, Section};
use crate::{ByteReason, CutReason};

/// Returns the first byte of the line that may not stand in a line. Returns `None` if there is no such byte.
pub(crate) fn byte_reason(line: &[u8]) -> Option<ByteReason>
    ensures { IfSome result (λ reason. is_printable (byte_of reason) ≡ false) }
{
    for byte in line {
        if !is_printable(*byte) {
            return Some(reason_for(*byte));
        }
    }
    None
}

/// Whether the byte may stand in a line.
pub(crate) fn is_printable(byte: u8) -> bool
    ensures { result ≡ is_printable byte }
{
    (b' '..=b'~').contains(&byte)
}

/// The reason for a byte that may not stand in a line.
fn reason_for(byte: u8) -> ByteReason
    ensures { byte_of result ≡ byte }
{
    match byte {
        b'\r' => ByteReason::CarriageReturn,
        b'\t' => ByteReason::Tab,
        _ => ByteReason::Other(byte),
    }
}

/// Returns why a text may not end with this line. Returns `None` if the line is ended.
pub(crate) fn cut_reason(line: &Line<'_>) -> Option<CutReason> {
    if line.is_ended {
        return None;
    }
    match (line.bytes, line.place.section) {
        ([], Section::Version | Section::Head) => Some(CutReason::Empty),
        ([], _) => Some(CutReason::End),
        _ => Some(CutReason::Line),
    }
}
