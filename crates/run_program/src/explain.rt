//! Why a text has the fault that a run has reported.
ghost use Rattle.std.specs.Prelude.{◌≡◌, ◌++◌, IfOk, IfSome, OnOk, codes, false};
ghost use Rattle.model_jobs.specs.Texts.{ended};
ghost use Rattle.text_reasons.specs.Added.{HasAddedReason};
ghost use Rattle.run_program.specs.Explains.{HasExplained, IsExplanation, IsFound, IsFoundBySavings, IsLineOf, place_text};
ghost use Rattle.run_program.specs.Savings.{options_of};

use crate::SavingsArgs;
use crate::runs::tell;
use crate::savings::options_of;
use history_judge::{Begun, CallError, judge};
use mesh_text::TextFault;
use savings_report::{SavingsError, report};
use std::alloc::{AllocError, Global};
use text_devices::{ReplayError, Sink, Source, TextSource, read_all};
use text_job::read_job;
use text_reasons::{TextKind, add_reason};
use text_words::add_decimal;

/// The greatest number of configurations that an object may have when a history is judged again. Up to its fault, the
/// history was judged within a limit that isn't greater.
const MOST_CONFIGURATIONS: usize = 0xffff_ffff;

/// A fault of a text.
#[derive(Clone, Copy)]
pub enum Found {
    /// The fault of a line, or of the whole text.
    Text(TextFault),
    /// The call on this line is out of order.
    Order(u32),
    /// The entry on this line frees an object that isn't live, or stores another reference to it.
    NoObject(u32),
}

/// Reads the text in the input again, and writes to `errors` why it has its fault: the line `NAME:LINE: REASON`, or
/// `NAME: REASON` if the fault is that of the whole text. `wanted` is the kind of text that was read, and `name` the
/// name of the input.
///
/// Writes nothing if the text has no fault, if the input fails or if an allocation fails.
pub fn explain_run<I: Source, E: Sink>(
    alloc: Global,
    name: &str,
    wanted: TextKind,
    input: &mut I,
    errors: &mut E,
)
    requires { I.has_failed input.old ≡ false }
    ensures { HasExplained (IsFound wanted) name.now wanted (I.remaining input.old) (E.has_failed errors.new)
        (E.written errors.old) (E.written errors.new) }
{
    match explanation(alloc, name, wanted, input) {
        Ok(Some(line)) => tell(errors, line.as_slice()),
        _ => {}
    }
}

/// Does what `explain_run` does for the history that a report with these arguments has read.
pub fn explain_savings_run<I: Source, E: Sink>(
    alloc: Global,
    name: &str,
    args: &SavingsArgs,
    input: &mut I,
    errors: &mut E,
)
    requires { I.has_failed input.old ≡ false }
    ensures { HasExplained (IsFoundBySavings (options_of args.now)) name.now TextKind.History
        (I.remaining input.old) (E.has_failed errors.new) (E.written errors.old) (E.written errors.new) }
{
    match savings_explanation(alloc, name, args, input) {
        Ok(Some(line)) => tell(errors, line.as_slice()),
        _ => {}
    }
}

/// Returns the line that says why the text in the input has its fault. Returns `None` if the text has none.
fn explanation<I: Source>(
    alloc: Global,
    name: &str,
    wanted: TextKind,
    input: &mut I,
) -> Result<Option<Vec<u8>>, ReplayError>
    requires { I.has_failed input.old ≡ false }
    ensures { IfOk result
        (λ line. IfSome line
        (λ line. IsExplanation (IsFound wanted) name.now wanted (I.remaining input.old) line.items)) }
{
    let text = read_all(alloc, input)?;
    let Some(found) = fault_in(alloc, wanted, text.as_slice()) else {
        return Ok(None);
    };
    let line = line_of(alloc, name, wanted, text.as_slice(), found)?;
    Ok(Some(line))
}

/// Returns the line that says why a report with these arguments stops. Returns `None` if it doesn't stop.
fn savings_explanation<I: Source>(
    alloc: Global,
    name: &str,
    args: &SavingsArgs,
    input: &mut I,
) -> Result<Option<Vec<u8>>, ReplayError>
    requires { I.has_failed input.old ≡ false }
    ensures { IfOk result
        (λ line. IfSome line
        (λ line. IsExplanation (IsFoundBySavings (options_of args.now)) name.now TextKind.History
        (I.remaining input.old) line.items)) }
{
    let text = read_all(alloc, input)?;
    let Some(found) = savings_fault(alloc, args, text.as_slice()) else {
        return Ok(None);
    };
    let line = line_of(alloc, name, TextKind::History, text.as_slice(), found)?;
    Ok(Some(line))
}

/// Returns the fault of a text of this kind.
fn fault_in(alloc: Global, wanted: TextKind, text: &[u8]) -> Option<Found>
    ensures { IfSome result (IsFound wanted text.now) }
{
    match wanted {
        TextKind::Job => job_fault(alloc, text),
        TextKind::History => history_fault(alloc, text),
    }
}

/// Returns the fault of a job's text.
fn job_fault(alloc: Global, text: &[u8]) -> Option<Found>
    ensures { IfSome result (IsFound TextKind.Job text.now) }
{
    match read_job(alloc, &mut TextSource { rest: text }) {
        Err(ReplayError::Text(fault)) => Some(Found::Text(fault)),
        _ => None,
    }
}

/// Returns the fault of a history's text.
fn history_fault(alloc: Global, text: &[u8]) -> Option<Found>
    ensures { IfSome result (IsFound TextKind.History text.now) }
{
    let mut source = Begun::new(TextSource { rest: text });
    match judge(alloc, &mut source, MOST_CONFIGURATIONS) {
        Err(CallError::Text(fault)) => Some(Found::Text(fault)),
        Err(CallError::Order(line)) => Some(Found::Order(line)),
        _ => None,
    }
}

/// Returns the fault for which a report with these arguments stops.
fn savings_fault(alloc: Global, args: &SavingsArgs, text: &[u8]) -> Option<Found>
    ensures { IfSome result (IsFoundBySavings (options_of args.now) text.now) }
{
    match report(
        alloc,
        "-",
        &mut TextSource { rest: text },
        &options_of(args),
    ) {
        Err(SavingsError::Replay(ReplayError::Text(fault))) => Some(Found::Text(fault)),
        Err(SavingsError::NotAHistory(line)) => Some(Found::NoObject(line)),
        _ => None,
    }
}

/// Returns the line that says why a text has this fault.
fn line_of(
    alloc: Global,
    name: &str,
    wanted: TextKind,
    text: &[u8],
    found: Found,
) -> Result<Vec<u8>, AllocError>
    ensures { IfOk result (λ line. IsLineOf name.now wanted found line.items) }
{
    match found {
        Found::Text(fault) => reason_line(alloc, name, wanted, text, fault),
        Found::Order(line) => plain_line(
            alloc,
            name,
            line,
            "BEGIN is below that of the line before, or not above the END of the worker's last call",
        ),
        Found::NoObject(line) => plain_line(
            alloc,
            name,
            line,
            "a free or an alias of a cell that holds no live object",
        ),
    }
}

/// Returns the line with the reason for a fault.
fn reason_line(
    alloc: Global,
    name: &str,
    wanted: TextKind,
    text: &[u8],
    fault: TextFault,
) -> Result<Vec<u8>, AllocError>
    ensures { IfOk result (λ line. IsLineOf name.now wanted (Found.Text fault) line.items) }
{
    let mut line = begun_line(alloc, name, fault.line)?;
    add_reason(&mut line, text, wanted, fault)?;
    line.push(b'\n')?;
    Ok(line)
}

/// Returns the line with these words about a line of a text.
fn plain_line(alloc: Global, name: &str, line: u32, words: &str) -> Result<Vec<u8>, AllocError>
    ensures { IfOk result (λ told. told.items ≡ ended (place_text name.now line ++ words.now)) }
{
    let mut told = begun_line(alloc, name, line)?;
    told.extend_from_slice(words.as_bytes())?;
    told.push(b'\n')?;
    Ok(told)
}

/// Returns the beginning of a line about a line of a text. If its number is 0, it is about the whole text.
fn begun_line(alloc: Global, name: &str, line: u32) -> Result<Vec<u8>, AllocError>
    ensures { IfOk result (λ begun. begun.items ≡ place_text name.now line) }
{
    let mut begun = Vec::new(alloc);
    begun.extend_from_slice(name.as_bytes())?;
    if line > 0 {
        begun.push(b':')?;
        add_decimal(&mut begun, u64::from(line))?;
    }
    begun.extend_from_slice(b": ")?;
    Ok(begun)
}
