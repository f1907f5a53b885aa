//! `Run`: makes calls on both heaps, and adds a sample after each call.
ghost use Rattle.std.specs.Prelude.{◌≡◌, ◌-◌, ◌^◌, ◌≤◌, [], List, true, false, length, IfErr, IfOk, IfSome, IsNone};
ghost use Rattle.savings_report.specs.declared.table.samples.Sample.{Sample};
ghost use Rattle.text_devices.specs.Ends.{too_long};
ghost use Rattle.text_words.specs.RecordedWords.{plain_entry};
ghost use Rattle.savings_replay.specs.Calls.{call_of};
ghost use Rattle.savings_replay.specs.Followed.{Followed, start, step};
ghost use Rattle.savings_report.specs.Reports.{IsShown};
ghost use Rattle.savings_report.specs.Runs.{Fails, HasRoom, IsRun, IsTakenBy, Passes, UsesUp};
ghost use Rattle.savings_report.specs.declared.errors.SavingsError.{SavingsError};
ghost use Rattle.savings_report.specs.declared.options.SavingsOptions.{SavingsOptions};
ghost use Rattle.text_devices.specs.declared.faults.ReplayError.{ReplayError};

use crate::errors::SavingsError;
use crate::gathered::Gathered;
use crate::options::SavingsOptions;
use crate::perfect::Perfect;
use crate::plot::Caption;
use crate::samples::{counts_of, sample_of};
use model_words::{FaultKind, TextFault};
use savings_replay::{Call, RecordedEntry, Savings, Taken, call_of};
use std::alloc::{AllocError, Global};
use text_devices::ReplayError;

/// The state after the calls so far: both heaps, and the data gathered from the samples.
#[derive(Drop)]
pub(crate) struct Run {
    savings: Savings,
    perfect: Perfect,
    gathered: Gathered,
}

impl Run {
    /// Returns a run before its first call.
    pub(crate) fn new(alloc: Global, options: &SavingsOptions) -> Result<Run, AllocError>
        ensures { IfOk result (λ run. IsRun run options.now (start options.now.settings) []) }
    {
        Ok(Run {
            savings: Savings::new(alloc, options.settings)?,
            perfect: Perfect::none(),
            gathered: Gathered::new(alloc, options)?,
        })
    }

    /// Whether 2^32 - 1 calls have been made. In that case `take` must not be called.
    pub(crate) fn is_full(&self) -> bool
        ensures left { result ≡ false → HasRoom self.now }
        ensures full { (options : SavingsOptions) (f : Followed) (samples : List Sample)
            → IsRun self.now options f samples
            → result ≡ true → 2 ^ 32 - 1 ≤ length samples }
    {
        self.savings.is_full() || self.gathered.is_full()
    }

    /// Returns the number of calls that have been made.
    pub(crate) fn calls(&self) -> u32
        ensures { result ≡ self.now.savings.counts.calls }
    {
        self.savings.counts().calls
    }

    /// Makes the next call in both heaps, and adds a sample. If the call can't be made, changes nothing and returns the
    /// reason: `NoObject` or `NoAddresses`.
    pub(crate) fn take(&mut self, call: &Call) -> Result<Taken, AllocError>
        requires { HasRoom self.old }
        ensures { IfOk result (IsTakenBy self.old self.new (λ options f. step options.settings f call.now)) }
    {
        let taken = self.savings.take(call)?;
        if taken == Taken::Made {
            let sample = sample_of(&self.savings, &mut self.perfect);
            self.gathered.look(&sample);
        }
        Ok(taken)
    }

    /// Makes the call of an entry, which is on line `line`. Returns `None` if the call was made, or if the entry has no
    /// call. If a heap has too few virtual pages left for the call, returns the number of the call, counted from 1.
    ///
    /// Errors: NotAHistory if the call is a `free` or an `alias` of a cell that holds no live object, and Memory if an
    /// allocation failed. If 2^32 - 1 calls have been made, the error is a TOO_LONG fault. No input reaches this error,
    /// because a text with that many calls has too many lines already.
    pub(crate) fn take_entry(
        &mut self,
        entry: &RecordedEntry,
        line: u32,
    ) -> Result<Option<u32>, SavingsError>
        ensures passed { IfOk result
            (λ used_up. IsNone used_up → Passes self.old self.new line (call_of (plain_entry entry.now))) }
        ensures used_up { IfOk result
            (λ used_up. IfSome used_up (UsesUp self.old self.new line (call_of (plain_entry entry.now)))) }
        ensures fault { IfErr result (Fails self.old line (call_of (plain_entry entry.now))) }
    {
        let Some(call) = call_of(entry) else {
            return Ok(None);
        };
        if self.is_full() {
            return Err(too_many_calls());
        }
        let number = self.calls() + 1;
        match self.take(&call)? {
            Taken::Made => Ok(None),
            Taken::NoObject => Err(SavingsError::NotAHistory(line)),
            Taken::NoAddresses => Ok(Some(number)),
        }
    }

    /// Returns the table or the plot of the calls so far, as text. The history is that of the path.
    pub(crate) fn text(&self, alloc: Global, path: &str) -> Result<Vec<u8>, AllocError>
        ensures { (options : SavingsOptions) (f : Followed) (samples : List Sample) → IsRun self.now options f samples
            → IfOk result (λ text. IsShown options f samples text.items) }
    {
        let caption = Caption {
            path,
            settings: self.savings.settings(),
        };
        self.gathered
            .text(alloc, &caption, &counts_of(&self.savings))
    }
}

/// Returns the TOO_LONG fault, for a text with more than 2^32 - 1 calls.
fn too_many_calls() -> SavingsError
    ensures { result ≡ SavingsError.Replay (ReplayError.Text too_long) }
{
    SavingsError::Replay(ReplayError::Text(TextFault {
        line: 0,
        kind: FaultKind::TooLong,
    }))
}
