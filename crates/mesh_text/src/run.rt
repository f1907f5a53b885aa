//! The replay of a job.
ghost use Rattle.std.specs.Prelude.{◌≡◌, ◌⊎◌, [], false, true, length, vec_len, is_err, IfErr, OnOk, OnErr};
ghost use Rattle.std.specs.Io.KnownBytes.{Appends, Keeps};
ghost use Rattle.model_jobs.specs.Jobs.{initial_state};
ghost use Rattle.mesh_text.specs.Printed.{AppendsLines, printed_output};
ghost use Rattle.mesh_text.specs.Replay.{HasReplayed, HasStopped};
ghost use Rattle.text_devices.specs.Transfer.{AppendsBeginning};
ghost use Rattle.mesh_text.specs.Turns.{IsAt};

use crate::printed::{Printed, add_prefix};
use crate::turns::Turns;
use std::alloc::Global;
use text_devices::{ReplayError, Sink, Source, write_lines};
use text_job::{Job, read_job};

/// Collected lines are written to the output once they have at least this number of bytes, and at the end of the plan.
const CHUNK_BYTES: usize = 8192;

/// Replays the job file that the input contains, and writes the answer lines of its plan.
///
/// The input is read to its end, or to 1,048,577 bytes, which is one more than a job file may have. The output has one
/// line for each line of the plan. Several whole lines are written together. In version 1, a mesh can't begin while a
/// mesh of any class runs, and the lines `step` and `cancel` apply to the running mesh. In version 2, each class may
/// have a running mesh, and the lines `step` and `cancel` name the class.
///
/// The error is `Read` if the input fails, and `Text` if the input is no job file. After these errors, nothing was
/// written. The error is `Memory` if an allocation fails, and `Write` if the output fails.
#[tactic(auto, using(crate::proofs::PlayEnds::never_ok, crate::proofs::PlayEnds::not_write, crate::proofs::PlayEnds::is_memory))]
pub fn replay<I: Source, O: Sink>(
    alloc: Global,
    input: &mut I,
    output: &mut O,
) -> Result<(), ReplayError>
    requires input { I.has_failed input.old ≡ false }
    requires output { O.has_failed output.old ≡ false }
    ensures ok { OnOk result ((I.has_failed input.new ≡ false) × (O.has_failed output.new ≡ false)) }
    ensures replayed { OnOk result
        (HasReplayed (I.remaining input.old) (I.remaining input.new) (O.written output.old) (O.written output.new)) }
    ensures stopped { IfErr result
        (HasStopped (I.remaining input.old) (I.remaining input.new) (O.written output.old) (O.written output.new)) }
    ensures read { result ≡ Err ReplayError.Read → I.has_failed input.new ≡ true }
    ensures write { result ≡ Err ReplayError.Write → O.has_failed output.new ≡ true }
{
    let job = read_job(alloc, input)?;
    let mut turns = Turns::open(alloc, &job)?;
    let mut text = Vec::new(alloc);
    play(alloc, &job, Printed::Answers, &mut turns, &mut text, output)
}

/// Runs the plan of a job from its initial state, and writes what is printed for its lines. The printed lines are
/// collected in `text` before they are written.
#[tactic(auto, using(crate::proofs::PlayEnds::never_ok, crate::proofs::PlayEnds::not_write, crate::proofs::PlayEnds::is_memory))]
pub(crate) fn play<O: Sink>(
    alloc: Global,
    job: &Job,
    printed: Printed,
    turns: &mut Turns,
    text: &mut Vec<u8>,
    output: &mut O,
) -> Result<(), ReplayError>
    requires fresh { O.has_failed output.old ≡ false }
    requires workers { vec_len turns.old.next ≡ length job.now.scripts }
    requires initial_state { IsAt job.now (initial_state job.now) turns.old.book turns.old.next.items }
    requires empty { text.old.items ≡ [] }
    ensures ok { OnOk result (O.has_failed output.new ≡ false) }
    ensures whole { OnOk result
        (Appends (O.written output.old) (O.written output.new) (printed_output printed job.now)) }
    ensures fails { result ≡ Err ReplayError.Write → O.has_failed output.new ≡ true }
    ensures beginning { result ≡ Err ReplayError.Write
        → AppendsBeginning (O.written output.old) (O.written output.new) (printed_output printed job.now) }
    ensures lines { result ≡ Err ReplayError.Memory
        → AppendsLines printed job.now (O.written output.old) (O.written output.new) }
    ensures kinds { IfErr result (λ error. (error ≡ ReplayError.Write) ⊎ (error ≡ ReplayError.Memory)) }
{
    for line in job.plan.lines() {
        add_prefix(printed, job, turns, line, text)?;
        turns.answer(alloc, job, line, text)?;
        text.extend_from_slice(b"\n")?;
        if text.len() >= CHUNK_BYTES {
            write_lines(output, text.as_slice())?;
            text.clear();
        }
    }
    write_lines(output, text.as_slice())
}
