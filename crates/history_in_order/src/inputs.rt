//! The verdict on a history that is read from a device.
ghost use Rattle.std.specs.Prelude.{◌≡◌, Err, false, true, IfErr, IfOk, OnOk};
ghost use Rattle.model_history.specs.Recorded.{any_allocator, nothing_recorded};
ghost use Rattle.history_in_order.specs.Checks.{HasJudged, HasNotJudged};
ghost use Rattle.history_in_order.specs.Outcomes.{outcome_of};
ghost use Rattle.history_in_order.specs.Stands.{Stands};
ghost use Rattle.text_devices.specs.declared.faults.ReplayError.{ReplayError};
ghost use Rattle.history_reading.specs.EntryInputs.{IsFresh};

use crate::memory::Tracked;
use crate::verdicts::Verdict;
use history_reading::HistoryInput;
use std::alloc::Global;
use text_devices::{ReplayError, Source};

/// Judges the recorded history that is read from `input`.
///
/// The input is read to its end, or until a verdict or a fault is found. Nothing after the first rejected entry or the
/// first fault is examined.
///
/// Errors: Text if a line has a fault, Read if and only if the input failed, and Memory if an allocation failed. Write
/// is never returned.
pub fn check<I: Source>(alloc: Global, input: &mut I) -> Result<Verdict, ReplayError>
    requires { I.has_failed input.old ≡ false }
    ensures ok { OnOk result (I.has_failed input.new ≡ false) }
    ensures judged { IfOk result
        (λ verdict. HasJudged (I.remaining input.old) (I.remaining input.new) (outcome_of verdict)) }
    ensures fault { IfErr result (HasNotJudged (I.remaining input.old) (I.remaining input.new)) }
    ensures read { result ≡ Err ReplayError.Read → I.has_failed input.new ≡ true }
    ensures failed { I.has_failed input.new ≡ true → result ≡ Err ReplayError.Read }
{
    let mut history = HistoryInput::new(alloc)?;
    let mut memory = Tracked::new(alloc);
    judge_input(&mut history, &mut memory, input)
}

/// Judges the entries that are read from `input`, and returns the verdict. Requires that no entry has been read yet.
/// The errors are those of `check`.
fn judge_input<I: Source>(
    history: &mut HistoryInput,
    memory: &mut Tracked,
    input: &mut I,
) -> Result<Verdict, ReplayError>
    requires open { I.has_failed input.old ≡ false }
    requires fresh { IsFresh history.old }
    requires stands { Stands memory.old (nothing_recorded any_allocator) }
    requires made { memory.old.made ≡ 0 }
    ensures ok { OnOk result (I.has_failed input.new ≡ false) }
    ensures judged { IfOk result
        (λ verdict. HasJudged (I.remaining input.old) (I.remaining input.new) (outcome_of verdict)) }
    ensures fault { IfErr result (HasNotJudged (I.remaining input.old) (I.remaining input.new)) }
    ensures read { result ≡ Err ReplayError.Read → I.has_failed input.new ≡ true }
    ensures failed { I.has_failed input.new ≡ true → result ≡ Err ReplayError.Read }
{
    while let Some(entry) = history.next(input)? {
        let line = history.lines();
        if let Some(reason) = memory.judge(line, &entry)? {
            return Ok(Verdict::Wrong(line, reason));
        }
    }
    Ok(Verdict::Legal(history.lines() - 1))
}
