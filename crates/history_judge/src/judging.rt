//! The judgement of a history of either kind.
ghost use Rattle.std.specs.Prelude.{◌≡◌, Err, IfErr, IfOk, OnOk, false, true};
ghost use Rattle.history_reading.specs.declared.faults.CallError.{CallError};
ghost use Rattle.history_judge.specs.Judgements.{HasJudged, HasNotJudged, left_of};

use crate::begun::Begun;
use history_in_order::{Verdict, check};
use history_overlaps::{CallVerdict, check_calls};
use history_reading::CallError;
use std::alloc::Global;
use text_devices::Source;

/// The first line of a history of calls that overlap.
const OVERLAPPING: &[u8] = b"history 2\n";

/// The verdict on a recorded history.
#[derive(Drop)]
pub enum Judgement {
    /// The verdict on a history of calls in the order of their effects.
    InOrder(Verdict),
    /// The verdict on a history of calls that overlap.
    Overlapping(CallVerdict),
}

/// Judges the recorded history in the input. The first line determines the kind of the history. If the calls overlap,
/// `most` limits the number of configurations that an object may have at the end of a call.
///
/// The input is read to its end, or until there is a verdict. The error is `Text` or `Order` if a line has a fault,
/// `Read` if and only if the input failed, and `Memory` if an allocation failed.
pub fn judge<I: Source + Drop>(
    alloc: Global,
    input: &mut Begun<I>,
    most: usize,
) -> Result<Judgement, CallError>
    requires { I.has_failed input.old.inner ≡ false }
    ensures ok { OnOk result (I.has_failed input.new.inner ≡ false) }
    ensures judged { IfOk result
        (HasJudged most (left_of input.old.begun.items (I.remaining input.old.inner))
        (left_of input.new.begun.items (I.remaining input.new.inner))) }
    ensures fault { IfErr result
        (HasNotJudged (left_of input.old.begun.items (I.remaining input.old.inner))
        (left_of input.new.begun.items (I.remaining input.new.inner))) }
    ensures read { result ≡ Err CallError.Read → I.has_failed input.new.inner ≡ true }
    ensures failed { I.has_failed input.new.inner ≡ true → result ≡ Err CallError.Read }
{
    if input.begins_with(OVERLAPPING)? {
        let verdict = check_calls(alloc, input, most)?;
        return Ok(Judgement::Overlapping(verdict));
    }
    let verdict = check(alloc, input)?;
    Ok(Judgement::InOrder(verdict))
}
