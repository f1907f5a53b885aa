//! The report on a history that is read from a device.
ghost use Rattle.std.specs.Prelude.{◌≡◌, [], Err, false, true, IfErr, IfOk, OnOk};
ghost use Rattle.text_devices.specs.declared.faults.ReplayError.{ReplayError};
ghost use Rattle.history_reading.specs.EntryInputs.{IsFresh};
ghost use Rattle.savings_replay.specs.Followed.{start};
ghost use Rattle.savings_report.specs.Inputs.{HasFollowed, HasNotReported, HasShown};
ghost use Rattle.savings_report.specs.Runs.{IsRun};
ghost use Rattle.savings_report.specs.declared.errors.SavingsError.{SavingsError};
ghost use Rattle.savings_report.specs.declared.options.SavingsOptions.{SavingsOptions};

use crate::errors::SavingsError;
use crate::options::SavingsOptions;
use crate::reports::Report;
use crate::runs::Run;
use history_reading::HistoryInput;
use std::alloc::Global;
use text_devices::Source;

/// Replays the recorded history that is read from `input` on two heaps, and reports what meshing saves. A plot has the
/// name of the file at `path`, which is `-` for standard input.
///
/// The input is read to its end, or until a heap has too few virtual pages left for a `new`. In the second case the
/// report covers the calls before that `new`, and `used_up_at` is the number of that call. The input after that call is
/// ignored.
///
/// Errors: Text if a line has a fault; NotAHistory if a `free` or an `alias` is of a cell that holds no live object;
/// Read if and only if the input failed; Memory if an allocation failed. If both Text and NotAHistory apply, the error
/// is the one whose line comes first in the input. Write is never returned.
pub fn report<I: Source>(
    alloc: Global,
    path: &str,
    input: &mut I,
    options: &SavingsOptions,
) -> Result<Report, SavingsError>
    requires { I.has_failed input.old ≡ false }
    ensures ok { OnOk result (I.has_failed input.new ≡ false) }
    ensures reported { IfOk result
        (λ report. HasShown options.now (I.remaining input.old)
        (I.remaining input.new) report.used_up_at report.text.items) }
    ensures fault { IfErr result (HasNotReported options.now (I.remaining input.old) (I.remaining input.new)) }
    ensures read { result ≡ Err (SavingsError.Replay ReplayError.Read) → I.has_failed input.new ≡ true }
    ensures failed { I.has_failed input.new ≡ true → result ≡ Err (SavingsError.Replay ReplayError.Read) }
{
    let mut history = HistoryInput::new(alloc)?;
    let mut run = Run::new(alloc, options)?;
    let used_up_at = follow(&mut history, &mut run, input)?;
    Ok(Report {
        text: run.text(alloc, path)?,
        used_up_at,
    })
}

/// Makes the calls of the input's entries, up to the first call for which a heap has too few virtual pages left.
/// Returns the number of that call, counted from 1, or `None` if all calls were made.
///
/// Errors: those of `report`.
fn follow<I: Source>(
    history: &mut HistoryInput,
    run: &mut Run,
    input: &mut I,
) -> Result<Option<u32>, SavingsError>
    requires open { I.has_failed input.old ≡ false }
    requires fresh { IsFresh history.old }
    ensures ok { OnOk result (I.has_failed input.new ≡ false) }
    ensures followed { (options : SavingsOptions) → IsRun run.old options (start options.settings) []
        → IfOk result (HasFollowed run.new options (I.remaining input.old) (I.remaining input.new)) }
    ensures fault { (options : SavingsOptions) → IsRun run.old options (start options.settings) []
        → IfErr result (HasNotReported options (I.remaining input.old) (I.remaining input.new)) }
    ensures read { result ≡ Err (SavingsError.Replay ReplayError.Read) → I.has_failed input.new ≡ true }
    ensures failed { I.has_failed input.new ≡ true → result ≡ Err (SavingsError.Replay ReplayError.Read) }
{
    while let Some(entry) = history.next(input)? {
        let used_up_at = run.take_entry(&entry, history.lines())?;
        if used_up_at.is_some() {
            return Ok(used_up_at);
        }
    }
    Ok(None)
}
