//! The text of a job's plan: each line with its answer, and the heap after the line.
ghost use Rattle.std.specs.Prelude.{◌≡◌, ◌+◌, ◌≤◌, ◌<◌, ◌++◌, List, ℕ, Err, false, true, length, IfErr, OnOk};
ghost use Rattle.std.specs.Io.KnownBytes.{Appends};
ghost use Rattle.mesh_text.specs.Turns.{StandsBehind};
ghost use Rattle.draw_job.specs.Forms.{formed};
ghost use Rattle.draw_job.specs.PlanEnds.{StopsBefore};
ghost use Rattle.draw_job.specs.Texts.{HasDescribed, HasNotDescribed, HasParts, HasWrittenUntil, HoldsForAll, IsLineText};

use crate::DrawError;
use crate::forms::{Form, write_formed};
use crate::points::{CHUNK_BYTES, lines_up_to, play_line};
use crate::readings::{first_line, read_job_from};
use draw_text::{Point, add_point};
use mesh_text::{Job, Turns};
use std::alloc::{AllocError, Global};
use text_devices::{ReplayError, Sink, Source};

/// Reads a job file from the input, and writes each line of its plan from `from` to `to` with its answer and the heap
/// after it, as text (`draw_text`).
///
/// Lines are counted from 1, and lines past the plan's end are ignored. Several whole points are written together.
///
/// The error is `Read` if the input failed, `Text` if the input is no job file, and `PlanEnds` if the plan ends before
/// line `from`; nothing was written then. The error is `Memory` if an allocation failed; only whole points were written
/// then. The error is `Write` if the output failed.
pub fn describe<I: Source, O: Sink>(
    alloc: Global,
    input: &mut I,
    output: &mut O,
    from: u32,
    to: u32,
) -> Result<(), DrawError>
    requires input { I.has_failed input.old ≡ false }
    requires output { O.has_failed output.old ≡ false }
    ensures ok { OnOk result ((I.has_failed input.new ≡ false) × (O.has_failed output.new ≡ false)) }
    ensures described { OnOk result
        (HasDescribed from to (I.remaining input.old) (I.remaining input.new) (O.written output.old)
        (O.written output.new)) }
    ensures stopped { IfErr result
        (StopsBefore from (HasNotDescribed from to) (I.remaining input.old) (I.remaining input.new)
        (O.written output.old) (O.written output.new)) }
    ensures read { result ≡ Err (DrawError.Replay ReplayError.Read) → I.has_failed input.new ≡ true }
    ensures write { result ≡ Err (DrawError.Replay ReplayError.Write) → O.has_failed output.new ≡ true }
    ensures memory { result ≡ Err (DrawError.Replay ReplayError.Memory) → O.has_failed output.new ≡ false }
{
    let job = read_job_from(alloc, input, from)?;
    let first = first_line(from);
    write_points(alloc, &job, first, to as usize, Form::Plain, output)?;
    Ok(())
}

/// Plays a job's plan up to line number `to`, and writes the text of the points after the lines `from` to `to` in a
/// form. The error is Memory if an allocation failed, and Write if the output failed.
pub(crate) fn write_points<O: Sink>(
    alloc: Global,
    job: &Job,
    from: usize,
    to: usize,
    form: Form,
    output: &mut O,
) -> Result<(), ReplayError>
    requires few { to < 4294967296 }
    requires fresh { O.has_failed output.old ≡ false }
    ensures ok { OnOk result (O.has_failed output.new ≡ false) }
    ensures written { OnOk result
        (HoldsForAll from to job.now (λ text. Appends (O.written output.old) (O.written output.new) (formed form text))) }
    ensures stopped { IfErr result
        (HasWrittenUntil form from to job.now (O.written output.old) (O.written output.new)) }
    ensures write { result ≡ Err ReplayError.Write → O.has_failed output.new ≡ true }
    ensures memory { result ≡ Err ReplayError.Memory → O.has_failed output.new ≡ false }
{
    let mut turns = Turns::open(alloc, job)?;
    let mut text = Vec::new(alloc);
    let end = lines_up_to(job, to);
    let mut played = 0;
    while played < end {
        describe_point(alloc, job, &mut turns, played, from, &mut text)?;
        played += 1;
        if text.len() >= CHUNK_BYTES {
            write_formed(alloc, text.as_slice(), form, output)?;
            text.clear();
        }
    }
    write_formed(alloc, text.as_slice(), form, output)
}

/// Plays the line of a plan at a place, counted from 0. Appends the text of the point after this line, unless the line
/// comes before line `from`.
fn describe_point(
    alloc: Global,
    job: &Job,
    turns: &mut Turns,
    place: usize,
    from: usize,
    text: &mut Vec<u8>,
) -> Result<(), AllocError>
    requires within { place < length job.now.plan }
    requires few { place < 4294967295 }
    requires stands { StandsBehind job.now place turns.old }
    ensures stands { OnOk result (StandsBehind job.now (place + 1) turns.new) }
    ensures added { OnOk result
        (HasParts (λ first. first ≡ text.old.items) (IsLineText job.now from (place + 1)) text.new.items) }
{
    let Some(played) = play_line(alloc, job, turns, place, from)? else {
        return Ok(());
    };
    let point = Point {
        number: place as u32 + 1,
        words: played.words.as_slice(),
        answer: played.answer.as_slice(),
        frame: &played.frame,
    };
    add_point(text, &point)
}
