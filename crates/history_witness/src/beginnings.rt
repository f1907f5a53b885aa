//! The calls of a text that began before a certain call ended.
ghost use Rattle.std.specs.Prelude.{◌≡◌, ◌++◌, ◌∷◌, ◌<◌, [], ℕ, List, Option, Some, false, IfOk, IfSome, OnOk, map};
ghost use Rattle.model_intervals.specs.Intervals.{Call};
ghost use Rattle.history_reading.specs.CallInputs.{HasCome, HasNext, IsFresh, lines_before};
ghost use Rattle.history_reading.specs.CallWords.{plain_call};
ghost use Rattle.history_overlaps.specs.Checks.{AreFirstCalls};

use history_reading::{CallError, CallInput, TimedCall};
use std::alloc::{AllocError, Global};
use text_devices::{Input, Source};

/// Returns the first calls of a text: those before the first call that begins after the end of the call with this
/// number, before the text's first fault, and before the text's end.
pub(crate) fn begun_by_end(
    alloc: Global,
    text: &[u8],
    number: u32,
) -> Result<Vec<TimedCall>, AllocError>
    ensures { IfOk result (λ calls. AreFirstCalls (map plain_call calls.items) text.now) }
{
    let mut history = CallInput::new(alloc)?;
    let mut input = Input::new(text);
    read_begun(alloc, &mut history, &mut input, number)
}

/// Reads the first calls of the input, as `begun_by_end` does. No call may have been read with `history` before.
fn read_begun<I: Source>(
    alloc: Global,
    history: &mut CallInput,
    input: &mut I,
    number: u32,
) -> Result<Vec<TimedCall>, AllocError>
    requires unread { I.has_failed input.old ≡ false }
    requires fresh { IsFresh history.old }
    ensures { (text : List ℕ) → I.remaining input.old ≡ Some text
        → IfOk result (λ calls. AreFirstCalls (map plain_call calls.items) text) }
{
    let mut calls = Vec::new(alloc);
    while let Some(call) = next_call(history, input)? {
        if has_ended_before(calls.as_slice(), number, call.begin) {
            return Ok(calls);
        }
        add(&mut calls, call)?;
    }
    Ok(calls)
}

/// Reads the next call. Returns `None` at the end of the text, or at its first fault.
fn next_call<I: Source>(
    history: &mut CallInput,
    input: &mut I,
) -> Result<Option<TimedCall>, AllocError>
    requires { I.has_failed input.old ≡ false }
    ensures ok { IfOk result (λ next. IfSome next (λ _. I.has_failed input.new ≡ false)) }
    ensures call { (left : Option (List ℕ)) (calls : List Call)
        → HasCome history.old left (I.remaining input.old) calls
        → IfOk result (λ next. IfSome next (HasNext history.new left (I.remaining input.new) calls)) }
    ensures later { IfOk result (λ next. IfSome next (λ _. lines_before history.old < lines_before history.new)) }
{
    match history.next(input) {
        Ok(next) => Ok(next),
        Err(CallError::Memory) => Err(AllocError),
        Err(_) => Ok(None),
    }
}

/// Whether the call with this number is there and ends before the moment.
fn has_ended_before(calls: &[TimedCall], number: u32, moment: u64) -> bool {
    match calls.get(number as usize) {
        Some(call) => call.end < u128::from(moment),
        None => false,
    }
}

/// Adds a call.
fn add(calls: &mut Vec<TimedCall>, call: TimedCall) -> Result<(), AllocError>
    ensures { OnOk result (calls.new.items ≡ calls.old.items ++ call ∷ []) }
{
    calls.push(call)?;
    Ok(())
}
