//! The witness of a wrong answer.
ghost use Rattle.std.specs.Prelude.{◌≡◌, ◌+◌, ◌<◌, ◌^◌, ℕ, List, true, IfOk, IfSome, IsTrue, length, map};
ghost use Rattle.history_overlaps.specs.Checks.{AreFirstCalls};
ghost use Rattle.history_reading.specs.CallWords.{plain_call};
ghost use Rattle.text_fields.specs.Lines.{text_lines, texts};
ghost use Rattle.history_witness.specs.Slices.{IsSlice};
ghost use Rattle.history_witness.specs.TakenLines.{taken_in};
ghost use Rattle.history_witness.specs.Witnesses.{IsWitness};

use crate::beginnings::begun_by_end;
use crate::choosing::Wrong;
use crate::lines::{line_among, lines_of, taken_lines};
use crate::refuting::is_refuted;
use crate::slices::{is_slice, is_taken};
use history_overlaps::Flaw;
use history_reading::TimedCall;
use std::alloc::{AllocError, Global};

/// Returns a witness for the wrong call in this line of a text of `history 2`, where `check_calls` found this flaw: the
/// text's first line and the lines of a few calls, in their order. `check_calls` finds the same call wrong among them.
/// If some order explained the text's calls, some order would explain these few.
///
/// Returns `None` if no witness is found: if `check_calls` doesn't find this flaw, or stops at more than `most`
/// configurations.
pub fn witness_of(
    alloc: Global,
    text: &[u8],
    line: u32,
    flaw: &Flaw,
    most: usize,
) -> Result<Option<Vec<u8>>, AllocError>
    ensures { IfOk result (λ found. IfSome found (λ witness. IsWitness text.now line witness.items)) }
{
    if line < 2 {
        return Ok(None);
    }
    let number = line - 2;
    let begun = begun_by_end(alloc, text, number)?;
    let split = lines_of(alloc, text)?;
    let calls = begun.as_slice();
    let lines = split.as_slice();
    let wrong = Wrong {
        alloc,
        lines,
        calls,
        number,
        most,
    };
    let Some(taken) = wrong.chosen(flaw)? else {
        return Ok(None);
    };
    checked(alloc, lines, calls, taken.as_slice(), number, most)
}

/// Returns the first line and the lines of the calls that are taken, if these are a slice with the call of this number,
/// and `check_calls` finds that this call is the first wrong one.
fn checked(
    alloc: Global,
    lines: &[&[u8]],
    calls: &[TimedCall],
    taken: &[bool],
    number: u32,
    most: usize,
) -> Result<Option<Vec<u8>>, AllocError>
    requires { number + 2 < 2 ^ 32 }
    ensures { (text : List ℕ) → texts lines.now ≡ text_lines text → AreFirstCalls (map plain_call calls.now) text
        → IfOk result (λ found. IfSome found (λ witness. IsWitness text (number + 2) witness.items)) }
{
    if !is_slice_with(calls, taken, number) {
        return Ok(None);
    }
    let text = taken_lines(alloc, lines, taken)?;
    if !is_refuted(alloc, text.as_slice(), line_among(taken, number), most)? {
        return Ok(None);
    }
    Ok(Some(text))
}

/// Whether the calls that are taken are a slice of the calls, and the call with this number is one of them.
fn is_slice_with(calls: &[TimedCall], taken: &[bool], number: u32) -> bool
    ensures whole { IsTrue result → length taken.now ≡ length calls.now }
    ensures slice { IsTrue result → IsSlice (map plain_call calls.now) (taken_in taken.now) }
    ensures has { IsTrue result → taken_in taken.now number ≡ true }
{
    taken.len() == calls.len() && is_slice(calls, taken) && is_taken(taken, number as usize)
}
