//! The replay that writes a recorded history instead of the answers.
ghost use Rattle.std.specs.Prelude.{◌≡◌, ◌⊎◌, false, true, length, IfOk, IfErr, OnOk};
ghost use Rattle.std.specs.Io.KnownBytes.{Appends, Keeps};
ghost use Rattle.mesh_text.specs.Recordings.{recorded_text};
ghost use Rattle.mesh_text.specs.Recorded.{HasReplayedRecorded, HasStoppedRecorded, journal_of};
ghost use Rattle.text_devices.specs.Transfer.{AppendsBeginning};
ghost use Rattle.mesh_text.specs.Turns.{StandsBehind};
ghost use Rattle.text_devices.specs.declared.faults.ReplayError.{ReplayError};

use crate::recordings::recorded_journal;
use crate::turns::Turns;
use std::alloc::{AllocError, Global};
use text_devices::{ReplayError, Sink, Source, write_lines};
use text_job::{Job, read_job};

/// Replays the job file that the input contains, and writes the recorded history of its journal instead of the answers.
///
/// The job is read and its plan is run as in `replay`. Nothing is written before the whole plan has been run. The error
/// is `Read` if the input fails, `Text` if the input is no job file, and `Memory` if an allocation fails. After these
/// errors, nothing was written. The error is `Write` if the output fails.
pub fn replay_recorded<I: Source, O: Sink>(
    alloc: Global,
    input: &mut I,
    output: &mut O,
) -> Result<(), ReplayError>
    requires input { I.has_failed input.old ≡ false }
    requires output { O.has_failed output.old ≡ false }
    ensures ok { OnOk result ((I.has_failed input.new ≡ false) × (O.has_failed output.new ≡ false)) }
    ensures replayed { OnOk result
        (HasReplayedRecorded (I.remaining input.old) (I.remaining input.new) (O.written output.old)
        (O.written output.new)) }
    ensures stopped { IfErr result
        (HasStoppedRecorded (I.remaining input.old) (I.remaining input.new) (O.written output.old)
        (O.written output.new)) }
    ensures read { result ≡ Err ReplayError.Read → I.has_failed input.new ≡ true }
    ensures write { result ≡ Err ReplayError.Write → O.has_failed output.new ≡ true }
{
    let job = read_job(alloc, input)?;
    record(alloc, &job, output)
}

/// Runs the plan of a job on a fresh heap, and writes the recorded history of its journal. The error is `Memory` if an
/// allocation fails, and `Write` if the output fails.
#[tactic(auto, using(crate::proofs::PlayEnds::never_ok, crate::proofs::PlayEnds::not_write, crate::proofs::PlayEnds::is_memory))]
fn record<O: Sink>(alloc: Global, job: &Job, output: &mut O) -> Result<(), ReplayError>
    requires { O.has_failed output.old ≡ false }
    ensures ok { OnOk result (O.has_failed output.new ≡ false) }
    ensures whole { OnOk result
        (Appends (O.written output.old) (O.written output.new) (recorded_text (journal_of job.now))) }
    ensures fails { result ≡ Err ReplayError.Write → O.has_failed output.new ≡ true }
    ensures beginning { result ≡ Err ReplayError.Write
        → AppendsBeginning (O.written output.old) (O.written output.new) (recorded_text (journal_of job.now)) }
    ensures nothing { result ≡ Err ReplayError.Memory → Keeps (O.written output.old) (O.written output.new) }
    ensures kinds { IfErr result (λ error. (error ≡ ReplayError.Write) ⊎ (error ≡ ReplayError.Memory)) }
{
    let text = recorded_play(alloc, job)?;
    write_lines(output, text.as_slice())
}

/// Runs the plan of a job on a fresh heap, and returns the recorded history of its journal.
fn recorded_play(alloc: Global, job: &Job) -> Result<Vec<u8>, AllocError>
    ensures { IfOk result (λ text. text.items ≡ recorded_text (journal_of job.now)) }
{
    let mut turns = Turns::open(alloc, job)?;
    play_all(alloc, job, &mut turns)?;
    recorded_journal(alloc, turns.book().journal())
}

/// Runs all lines of a job's plan, and discards the answers.
fn play_all(alloc: Global, job: &Job, turns: &mut Turns) -> Result<(), AllocError>
    requires { StandsBehind job.now 0 turns.old }
    ensures { OnOk result (StandsBehind job.now (length job.now.plan) turns.new) }
{
    let mut answer = Vec::new(alloc);
    for place in 0..job.plan.lines().len() {
        turns.play(alloc, job, place, &mut answer)?;
    }
    Ok(())
}
