//! The verdict on a history of overlapping calls from a device.
ghost use Rattle.std.specs.Prelude.{◌≡◌, ◌+◌, ◌<◌, ◌^◌, ◌++◌, ◌∷◌, [], ℕ, List, Err, true, false, IfErr, IfOk, IfSome, IsNone, None, Ok, OnOk, length};
ghost use Rattle.model_intervals.specs.Completions.{EndsInTime, HasCompletion};
ghost use Rattle.model_intervals.specs.Intervals.{Call};
ghost use Rattle.model_intervals.specs.OverlappingCalls.{IsHistory};
ghost use Rattle.history_reading.specs.CallReadings.{is_in_order};
ghost use Rattle.history_reading.specs.CallWords.{IsReadCall, plain_call};
ghost use Rattle.history_reading.specs.declared.faults.CallError.{CallError};
ghost use Rattle.history_reading.specs.CallInputs.{IsFresh};
ghost use Rattle.history_overlaps.specs.Checks.{HasJudged, HasNotJudged, IsJudgedAtEnd, IsJudgedBefore, IsKept, IsTold};
ghost use Rattle.history_overlaps.specs.Standing.{lives_of};
ghost use Rattle.history_overlaps.specs.Stops.{StopsAt, StopsEnd};
ghost use Rattle.history_overlaps.specs.Timelines.{FewOpen};

use crate::misuses::NotBegun;
use crate::stops::Stop;
use crate::timeline::Timeline;
use crate::verdicts::CallVerdict;
use history_object::JudgeFault;
use history_reading::{CallError, CallInput, NEVER, TimedCall};
use std::alloc::Global;
use text_devices::Source;

/// Judges the history of overlapping calls in the input. The verdict is `Undecided` if more than `most` configurations
/// of an object are met at the end of a call. It is also `Undecided` if more than 64 accesses to an object are pending.
///
/// The input is read to its end, or until there is a verdict. Errors:
///
/// - `Text`, if a line has a fault, if the text ends within a line, or if the text has no line.
/// - `Order`, if a call is out of order.
/// - `Read`, if and only if the input failed.
/// - `Memory`, if an allocation failed.
pub fn check_calls<I: Source>(
    alloc: Global,
    input: &mut I,
    most: usize,
) -> Result<CallVerdict, CallError>
    requires { I.has_failed input.old ≡ false }
    ensures ok { OnOk result (I.has_failed input.new ≡ false) }
    ensures judged { IfOk result (HasJudged most (I.remaining input.old) (I.remaining input.new)) }
    ensures fault { IfErr result (HasNotJudged (I.remaining input.old) (I.remaining input.new)) }
    ensures read { result ≡ Err CallError.Read → I.has_failed input.new ≡ true }
    ensures failed { I.has_failed input.new ≡ true → result ≡ Err CallError.Read }
{
    let mut history = CallInput::new(alloc)?;
    let mut timeline = Timeline::new(alloc);
    judge_calls(&mut history, &mut timeline, input, most)
}

/// Judges the calls of an input of which nothing has been read. The errors are those of `check_calls`.
fn judge_calls<I: Source>(
    history: &mut CallInput,
    timeline: &mut Timeline,
    input: &mut I,
    most: usize,
) -> Result<CallVerdict, CallError>
    requires open { I.has_failed input.old ≡ false }
    requires fresh { IsFresh history.old }
    requires kept { IsKept timeline.old [] }
    ensures ok { OnOk result (I.has_failed input.new ≡ false) }
    ensures judged { IfOk result (HasJudged most (I.remaining input.old) (I.remaining input.new)) }
    ensures fault { IfErr result (HasNotJudged (I.remaining input.old) (I.remaining input.new)) }
    ensures read { result ≡ Err CallError.Read → I.has_failed input.new ≡ true }
    ensures failed { I.has_failed input.new ≡ true → result ≡ Err CallError.Read }
{
    while let Some(call) = history.next(input)? {
        let number = history.lines() - 2;
        if let Some(verdict) = decided(timeline.take(number, &call, most))? {
            return Ok(verdict);
        }
    }
    let count = history.lines() - 1;
    if let Some(verdict) = decided(timeline.finish(count, most))? {
        return Ok(verdict);
    }
    Ok(CallVerdict::Linearizable(count))
}

/// Returns the verdict if there is one, or if the judge stopped without a failed allocation. Returns `None` if neither
/// happened. The error is `Memory` if the judge stopped because an allocation failed.
fn decided(found: Result<Option<CallVerdict>, Stop>) -> Result<Option<CallVerdict>, CallError>
    requires { IfErr found (λ stop. stop.number + 2 < 2 ^ 32) }
    ensures none { IfOk result (λ verdict. IsNone verdict → found ≡ Ok None) }
    ensures told { IfOk result (λ verdict. IfSome verdict (IsTold found)) }
    ensures error { IfErr result (λ error. error ≡ CallError.Memory) }
{
    match found {
        Ok(verdict) => Ok(verdict),
        Err(stop) => match stop.fault {
            JudgeFault::Memory => Err(CallError::Memory),
            fault => Ok(Some(CallVerdict::Undecided(stop.number + 2, fault))),
        },
    }
}

impl Timeline {
    /// Handles the ends before the start of the next call, and then this start. Returns the verdict if a call breaks a
    /// rule of use or a flaw is found, and `None` otherwise. The error is the reason why the judge stops.
    fn take(
        &mut self,
        number: u32,
        call: &TimedCall,
        most: usize,
    ) -> Result<Option<CallVerdict>, Stop>
        requires few { FewOpen (lives_of self.old) number }
        requires lines { number + 2 < 2 ^ 32 }
        requires kept { (calls : List Call) × (length calls ≡ number) × IsKept self.old calls
            × (is_in_order calls (plain_call call.now) ≡ true) }
        requires is_read { IsReadCall call.now }
        ensures taken { IfOk result
            (λ found. IsNone found → (calls : List Call) → length calls ≡ number → IsKept self.old calls
            → is_in_order calls (plain_call call.now) ≡ true → IsKept self.new (calls ++ plain_call call.now ∷ [])) }
        ensures judged { IfOk result
            (λ found. IfSome found (λ verdict. (calls : List Call) → length calls ≡ number → IsKept self.old calls
            → is_in_order calls (plain_call call.now) ≡ true
            → IsJudgedBefore calls (plain_call call.now) verdict)) }
        ensures stopped { IfErr result
            (λ stop. (calls : List Call) → length calls ≡ number → IsKept self.old calls
            → is_in_order calls (plain_call call.now) ≡ true → StopsAt calls (plain_call call.now) most stop) }
    {
        if let Some(found) = self.end_before(u128::from(call.begin), most)? {
            return Ok(Some(CallVerdict::Flawed(found.number + 2, found.flaw)));
        }
        match self.begin(number, call.end, &call.entry) {
            Ok(()) => Ok(None),
            Err(NotBegun::Misused(misused)) => {
                Ok(Some(CallVerdict::Misused(misused.number + 2, misused.misuse)))
            }
            Err(NotBegun::Fault(fault)) => Err(Stop { number, fault }),
        }
    }

    /// Handles the remaining ends, of `count` calls. Calls that were pending when the recording stopped don't end.
    /// Returns the verdict if a flaw is found, and `None` otherwise. The error is the reason why the judge stops.
    fn finish(&mut self, count: u32, most: usize) -> Result<Option<CallVerdict>, Stop>
        requires lines { count + 1 < 2 ^ 32 }
        requires kept { (calls : List Call) × (length calls ≡ count) × IsKept self.old calls }
        ensures linearizable { IfOk result
            (λ found. IsNone found → (calls : List Call) → IsKept self.old calls
            → IsHistory calls × HasCompletion calls (EndsInTime calls)) }
        ensures judged { IfOk result
            (λ found. IfSome found
            (λ verdict. (calls : List Call) → IsKept self.old calls → IsJudgedAtEnd calls verdict)) }
        ensures stopped { IfErr result
            (λ stop. (calls : List Call) → IsKept self.old calls
            → (stop.number < length calls) × StopsEnd calls stop.number most stop.fault) }
    {
        let Some(found) = self.end_before(NEVER, most)? else {
            return Ok(None);
        };
        Ok(Some(CallVerdict::Flawed(found.number + 2, found.flaw)))
    }
}
