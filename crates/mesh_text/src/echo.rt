//! The replay of a job that prints each line of the plan before its answer.
ghost use Rattle.std.specs.Prelude.{◌≡◌, false, true, IfErr, OnOk};
ghost use Rattle.mesh_text.specs.Echo.{HasEchoed, HasStoppedEcho};

use crate::printed::Printed;
use crate::run::play;
use crate::turns::Turns;
use std::alloc::Global;
use text_devices::{ReplayError, Sink, Source};
use text_job::read_job;

/// Replays the job file that the input contains, and writes each line of its plan with its answer.
///
/// The job is read and its plan is run as in `replay`. The output has one line for each line of the plan: the line as
/// in the job file, ` -> `, and the answer, as in `step -> protect left 5`. If a worker attempts a command at the line,
/// the command is written after the line, as in `run 0 new 0 16 0 -> object 0 at 1000`. A worker without a command left
/// has the line `run 0 -> over`. Several whole lines are written together.
///
/// The error is `Read` if the input fails, and `Text` if the input is no job file. After these errors, nothing was
/// written. The error is `Memory` if an allocation fails; then nothing was written, or the first lines. The error is
/// `Write` if the output fails; then a beginning of the lines was written.
#[tactic(auto, using(crate::proofs::PlayEnds::never_ok, crate::proofs::PlayEnds::not_write, crate::proofs::PlayEnds::is_memory))]
pub fn replay_echoed<I: Source, O: Sink>(
    alloc: Global,
    input: &mut I,
    output: &mut O,
) -> Result<(), ReplayError>
    requires input { I.has_failed input.old ≡ false }
    requires output { O.has_failed output.old ≡ false }
    ensures ok { OnOk result ((I.has_failed input.new ≡ false) × (O.has_failed output.new ≡ false)) }
    ensures replayed { OnOk result
        (HasEchoed (I.remaining input.old) (I.remaining input.new) (O.written output.old) (O.written output.new)) }
    ensures stopped { IfErr result
        (HasStoppedEcho (I.remaining input.old) (I.remaining input.new) (O.written output.old) (O.written output.new)) }
    ensures read { result ≡ Err ReplayError.Read → I.has_failed input.new ≡ true }
    ensures write { result ≡ Err ReplayError.Write → O.has_failed output.new ≡ true }
{
    let job = read_job(alloc, input)?;
    let mut turns = Turns::open(alloc, &job)?;
    let mut text = Vec::new(alloc);
    play(alloc, &job, Printed::Echo, &mut turns, &mut text, output)
}
