//! The job that is read before its points are shown.
ghost use Rattle.std.specs.Prelude.{◌≡◌, ◌≤◌, ◌<◌, Err, false, true, length, max, IfErr, IfOk, OnOk};
ghost use Rattle.draw_job.specs.PlanEnds.{EndsBefore, HasLine, HasReadNoPlan};
ghost use Rattle.text_job.specs.Read.{HasReadJob};

use crate::DrawError;
use mesh_text::{Job, read_job};
use std::alloc::Global;
use text_devices::{ReplayError, Source};

/// Reads a job file whose plan has the line `from`, or line 1 if `from` is 0. The error is `Replay` with `Read` if the
/// input failed, with `Text` if the input is no job file, and with `Memory` if an allocation failed. The error is
/// `PlanEnds` if the plan ends before the line.
pub(crate) fn read_job_from<I: Source>(
    alloc: Global,
    input: &mut I,
    from: u32,
) -> Result<Job, DrawError>
    requires { I.has_failed input.old ≡ false }
    ensures ok { OnOk result (I.has_failed input.new ≡ false) }
    ensures job { IfOk result (HasReadJob (I.remaining input.old) (I.remaining input.new)) }
    ensures line { IfOk result (HasLine from) }
    ensures none { IfErr result (HasReadNoPlan from (I.remaining input.old) (I.remaining input.new)) }
    ensures read { result ≡ Err (DrawError.Replay ReplayError.Read) → I.has_failed input.new ≡ true }
{
    let job = read_job(alloc, input)?;
    reaches(&job, from)?;
    Ok(job)
}

/// Returns an error if the plan of a job ends before line `from`, or before line 1 if `from` is 0.
fn reaches(job: &Job, from: u32) -> Result<(), DrawError>
    ensures line { OnOk result (HasLine from job.now) }
    ensures ends { IfErr result
        (λ error. (error ≡ DrawError.PlanEnds (length job.now.plan)) × (length job.now.plan < max from 1)) }
{
    let lines = job.plan.lines().len();
    if lines < first_line(from) {
        return Err(DrawError::PlanEnds(lines as u32));
    }
    Ok(())
}

/// The number of the first line that is shown.
pub(crate) fn first_line(from: u32) -> usize
    ensures { result ≡ max from 1 }
{
    (from as usize).max(1)
}
