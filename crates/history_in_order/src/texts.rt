//! The line of a verdict.
ghost use Rattle.std.specs.Prelude.{◌≡◌, ◌++◌, IfOk, OnOk};
ghost use Rattle.history_in_order.specs.VerdictTexts.{answers_text, byte_text, found_text, overlapped_text, range_text, ranges_text, reason_text, store_text, verdict_text};
ghost use Rattle.text_words.specs.RecordedTexts.{recorded_text};

use crate::reasons::{AddressRange, DifferentByte, Overlap, Reason};
use crate::verdicts::Verdict;
use history_reading::RecordedReply;
use std::alloc::{AllocError, Global};
use text_words::{add_address, add_decimal, add_recorded};

/// The line of a verdict, with a line end: `legal N entries`, or `line L: REASON`.
pub fn verdict_line(alloc: Global, verdict: &Verdict) -> Result<Vec<u8>, AllocError>
    ensures { IfOk result (λ text. text.items ≡ verdict_text verdict.now) }
{
    let mut text = Vec::new(alloc);
    add_verdict(&mut text, verdict)?;
    text.extend_from_slice(b"\n")?;
    Ok(text)
}

/// Appends the text of a verdict.
fn add_verdict(text: &mut Vec<u8>, verdict: &Verdict) -> Result<(), AllocError>
    ensures { OnOk result (text.new.items ≡ text.old.items ++ found_text verdict.now) }
{
    match verdict {
        Verdict::Legal(entries) => {
            text.extend_from_slice(b"legal ")?;
            add_decimal(text, u64::from(*entries))?;
            text.extend_from_slice(b" entries")
        }
        Verdict::Wrong(line, reason) => {
            text.extend_from_slice(b"line ")?;
            add_decimal(text, u64::from(*line))?;
            text.extend_from_slice(b": ")?;
            add_reason(text, reason)
        }
    }
}

/// Appends the reason why an entry is rejected.
fn add_reason(text: &mut Vec<u8>, reason: &Reason) -> Result<(), AllocError>
    ensures { OnOk result (text.new.items ≡ text.old.items ++ reason_text reason.now) }
{
    match reason {
        Reason::Differs(difference) => {
            text.extend_from_slice(b"answer differs: ")?;
            add_answers(text, &difference.answered, &difference.wanted)?;
            add_byte(text, difference.byte)
        }
        Reason::NoObject(answered) => {
            text.extend_from_slice(b"answer differs: ")?;
            add_recorded(text, answered)?;
            text.extend_from_slice(b", wanted object")
        }
        Reason::LiveRefused(refusal) => {
            text.extend_from_slice(b"live object is refused: ")?;
            add_answers(text, &refusal.answered, &refusal.wanted)
        }
        Reason::SerialAgain => text.extend_from_slice(b"serial again"),
        Reason::Overlaps(overlap) => {
            add_overlapped(text, overlap)?;
            add_ranges(text, overlap)
        }
    }
}

/// Appends an answer and the expected one.
fn add_answers(
    text: &mut Vec<u8>,
    answered: &RecordedReply,
    wanted: &RecordedReply,
) -> Result<(), AllocError>
    ensures { OnOk result (text.new.items ≡ text.old.items ++ answers_text answered.now wanted.now) }
{
    add_recorded(text, answered)?;
    text.extend_from_slice(b", wanted ")?;
    add_recorded(text, wanted)
}

/// Appends the offset of the byte that differs and the line that stored it. Appends nothing if there is no such byte.
fn add_byte(text: &mut Vec<u8>, byte: Option<DifferentByte>) -> Result<(), AllocError>
    ensures { OnOk result (text.new.items ≡ text.old.items ++ byte_text byte) }
{
    match byte {
        Some(byte) => {
            text.extend_from_slice(b"; byte ")?;
            add_decimal(text, byte.offset)?;
            add_store(text, byte.stored_at)
        }
        None => Ok(()),
    }
}

/// Appends ` was last stored at line L`, with the line of the last entry that stored a byte. Appends ` was never
/// stored` if there is no such entry.
fn add_store(text: &mut Vec<u8>, stored_at: Option<u32>) -> Result<(), AllocError>
    ensures { OnOk result (text.new.items ≡ text.old.items ++ store_text stored_at) }
{
    match stored_at {
        Some(line) => {
            text.extend_from_slice(b" was last stored at line ")?;
            add_decimal(text, u64::from(line))
        }
        None => text.extend_from_slice(b" was never stored"),
    }
}

/// Appends the overlapped object: its serial, and the line that made it.
fn add_overlapped(text: &mut Vec<u8>, overlap: &Overlap) -> Result<(), AllocError>
    ensures { OnOk result (text.new.items ≡ text.old.items ++ overlapped_text overlap.now) }
{
    text.extend_from_slice(b"overlaps object ")?;
    add_decimal(text, u64::from(overlap.serial))?;
    text.extend_from_slice(b", made at line ")?;
    add_decimal(text, u64::from(overlap.made_at))
}

/// Adds the addresses of both objects.
fn add_ranges(text: &mut Vec<u8>, overlap: &Overlap) -> Result<(), AllocError>
    ensures { OnOk result (text.new.items ≡ text.old.items ++ ranges_text overlap.now) }
{
    text.extend_from_slice(b": addresses ")?;
    add_range(text, overlap.range)?;
    text.extend_from_slice(b" and ")?;
    add_range(text, overlap.other)
}

/// Adds the addresses of an object.
fn add_range(text: &mut Vec<u8>, range: AddressRange) -> Result<(), AllocError>
    ensures { OnOk result (text.new.items ≡ text.old.items ++ range_text range) }
{
    add_address(text, range.from)?;
    text.extend_from_slice(b"..")?;
    add_address(text, range.to)
}
