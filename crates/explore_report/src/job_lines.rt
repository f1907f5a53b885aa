//! The line numbers of commands in a job file.
ghost use Rattle.std.specs.Prelude.{◌≡◌, ◌<◌, length};
ghost use Rattle.explore_report.specs.JobLines.{command_line};

use text_job::Job;

/// The line of a job file, counted from 1, at which the lines of the first worker start.
const FIRST_WORKER_LINE: u64 = 5;

/// Returns the line number, counted from 1, of the command at a place of a worker's script. Returns `u64::MAX` if the
/// number is larger.
pub(crate) fn command_line(job: &Job, worker: u32, place: usize) -> u64
    requires { worker < length job.now.scripts }
    ensures { result ≡ command_line job.now worker place }
{
    let mut line = FIRST_WORKER_LINE;
    for before in 0..worker {
        line = line
            .saturating_add(job.scripts.of(before).len() as u64)
            .saturating_add(1);
    }
    line.saturating_add(place as u64).saturating_add(1)
}
