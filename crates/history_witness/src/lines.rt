//! The lines of a text that a witness has.
ghost use Rattle.std.specs.Prelude.{◌≡◌, ◌+◌, ◌++◌, ◌<◌, ◌^◌, IfOk, OnOk};
ghost use Rattle.model_jobs.specs.Texts.{ended};
ghost use Rattle.text_fields.specs.Lines.{text_lines, texts};
ghost use Rattle.history_witness.specs.TakenLines.{is_kept, lines_at, taken_below, taken_in};

use crate::slices::is_taken;
use std::alloc::{AllocError, Global};

/// Returns the lines of a text, without their ends. The last line is the bytes after the last line end.
pub(crate) fn lines_of(alloc: Global, text: &[u8]) -> Result<Vec<&[u8]>, AllocError>
    ensures { IfOk result (λ lines. texts lines.items ≡ text_lines text.now) }
{
    text.split(|byte| *byte == b'\n').collect(alloc)
}

/// Returns the first line and the lines of the calls that are taken. Each line has its end.
pub(crate) fn taken_lines(
    alloc: Global,
    lines: &[&[u8]],
    taken: &[bool],
) -> Result<Vec<u8>, AllocError>
    ensures { IfOk result (λ text. text.items ≡ lines_at (is_kept (taken_in taken.now)) (texts lines.now)) }
{
    let mut text = Vec::new(alloc);
    for (place, line) in lines.iter().enumerate() {
        if is_kept(taken, place) {
            add_line(&mut text, *line)?;
        }
    }
    Ok(text)
}

/// Whether the line at this place is kept: the first line, and each line of a call that is taken.
fn is_kept(taken: &[bool], place: usize) -> bool
    ensures { result ≡ is_kept (taken_in taken.now) place }
{
    if place == 0 {
        return true;
    }
    is_taken(taken, place - 1)
}

/// Returns the line of the call with this number in a text that has a first line and the calls that are taken.
pub(crate) fn line_among(taken: &[bool], number: u32) -> u32
    ensures { number + 2 < 2 ^ 32 → result ≡ taken_below (taken_in taken.now) number + 2 }
{
    let mut line: u32 = 2;
    for place in 0..number {
        if is_taken(taken, place as usize) {
            line = line.saturating_add(1);
        }
    }
    line
}

/// Appends a line and its end.
fn add_line(text: &mut Vec<u8>, line: &[u8]) -> Result<(), AllocError>
    ensures { OnOk result (text.new.items ≡ text.old.items ++ ended line.now) }
{
    text.extend_from_slice(line)?;
    text.extend_from_slice(b"\n")
}
