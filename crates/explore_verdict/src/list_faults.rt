//! Tells why a text is no list of outcomes.
ghost use Rattle.std.specs.Prelude.{◌≡◌};
ghost use Rattle.explore_verdict.specs.ListFaults.{has_return, is_listed_line, line_fault, list_fault, may_come, may_continue, open_behind, opens_outcome};

use crate::listing_lines::{
    is_answer_line, is_command_line, is_end_line, is_free_line, is_outcome_line, is_plan_line,
    is_worker_line,
};
use text_fields::lines::cut;

/// Why a text is no list of outcomes. Lines are counted from 1.
#[derive(Clone, Copy, Debug, PartialEq, Eq)]
pub enum ListFault {
    /// This line has a carriage return.
    CarriageReturn(usize),
    /// A listing doesn't have this line in this place.
    OtherLine(usize),
    /// The text lists no outcome and no command.
    NoOutcome,
}

/// What a line of a listing may continue.
#[derive(Clone, Copy, PartialEq, Eq)]
pub(crate) enum Open {
    Nothing,
    Outcome,
    Command,
}

/// Returns why a text is no list of outcomes, or `None` if it is one. The fault is that of the first faulty line.
pub fn list_fault(text: &[u8]) -> Option<ListFault>
    ensures { result ≡ list_fault text.now }
{
    let mut number = 1;
    let mut before = Open::Nothing;
    let mut is_listed = false;
    let mut rest = text;
    while let Some((line, behind)) = cut(rest, b'\n') {
        if let Some(fault) = line_fault(number, line, before) {
            return Some(fault);
        }
        before = open_behind(line, before);
        is_listed = is_listed || is_listed_line(line);
        number += 1;
        rest = behind;
    }
    if let Some(fault) = line_fault(number, rest, before) {
        return Some(fault);
    }
    if is_listed || is_listed_line(rest) {
        None
    } else {
        Some(ListFault::NoOutcome)
    }
}

/// Returns the fault of a line where this is open, or `None` if a list of outcomes may have the line there.
fn line_fault(number: usize, line: &[u8], before: Open) -> Option<ListFault>
    ensures { result ≡ line_fault number line.now before }
{
    if has_return(line) {
        return Some(ListFault::CarriageReturn(number));
    }
    if may_come(line, before) {
        None
    } else {
        Some(ListFault::OtherLine(number))
    }
}

/// Whether a line has a carriage return.
fn has_return(line: &[u8]) -> bool
    ensures { result ≡ has_return line.now }
{
    for byte in line {
        if *byte == b'\r' {
            return true;
        }
    }
    false
}

/// Whether a listing or a list of outcomes may have this line where this is open.
fn may_come(line: &[u8], before: Open) -> bool
    ensures { result ≡ may_come line.now before }
{
    is_free_line(line) || is_command_line(line) || opens_outcome(line) || may_continue(line, before)
}

/// Whether the line of an outcome's end or plan, or of an answer, may come where this is open.
fn may_continue(line: &[u8], before: Open) -> bool
    ensures { result ≡ may_continue line.now before }
{
    match before {
        Open::Nothing => false,
        Open::Outcome => is_end_line(line) || is_plan_line(line),
        Open::Command => is_answer_line(line),
    }
}

/// What is open behind a line.
fn open_behind(line: &[u8], before: Open) -> Open
    ensures { result ≡ open_behind line.now before }
{
    if opens_outcome(line) {
        return Open::Outcome;
    }
    if is_command_line(line) {
        return Open::Command;
    }
    if line.starts_with(b"  ") {
        before
    } else {
        Open::Nothing
    }
}

/// Whether the line begins or continues an outcome without its end and its plan.
fn opens_outcome(line: &[u8]) -> bool
    ensures { result ≡ opens_outcome line.now }
{
    is_worker_line(line) || is_outcome_line(line)
}

/// Whether the line is of something that is compared.
fn is_listed_line(line: &[u8]) -> bool
    ensures { result ≡ is_listed_line line.now }
{
    is_command_line(line) || opens_outcome(line)
}
