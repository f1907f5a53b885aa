//! The points of a plan, shown one by one.
ghost use Rattle.std.specs.Prelude.{◌≡◌, ◌+◌, ◌≤◌, ◌<◌, ◌++◌, ◌⊎◌, ℕ, [], Err, None, Some, false, true, length, min, IfErr, IfOk, IsSomeAnd, OnOk};
ghost use Rattle.std.specs.Io.KnownBytes.{Appends};
ghost use Rattle.text_devices.specs.Transfer.{AppendsBeginning};
ghost use Rattle.draw_job.specs.Captions.{IsCaption, attempt_text};
ghost use Rattle.draw_job.specs.Draws.{HasWritten};
ghost use Rattle.mesh_text.specs.Turns.{StandsBehind};
ghost use Rattle.draw_job.specs.Points.{IsPoint, IsPointFrom, next_shown};

use crate::shown::frame_of;
use draw_picture::{Frame, Line, Text};
use mesh_text::{Turns, add_command, add_decimal, add_plan_line};
use std::alloc::{AllocError, Global};
use text_devices::{ReplayError, Sink, write_all};
use text_job::{Command, Job, PlanLine};

/// A bound on the number of lines of a plan: a job file has at most 1 MiB.
pub(crate) const MAX_LINES: usize = 1_048_576;

/// After each point, the buffer of a picture or of a text is written if it has at least this number of bytes.
pub(crate) const CHUNK_BYTES: usize = 8192;

/// The point after a line of a job's plan: the line with its answer as a replay prints it, and the heap after the line.
#[derive(Clone, Copy)]
pub(crate) struct Point<'a> {
    pub job: &'a Job,
    pub line: &'a Line<'a>,
    pub frame: &'a Frame,
}

/// A line of a plan that was played: its caption, its answer as a replay prints it, and the heap after the line.
#[derive(Drop)]
pub(crate) struct PlayedLine {
    pub words: Vec<u8>,
    pub answer: Vec<u8>,
    pub frame: Frame,
}

/// A consumer of the points of a plan.
pub(crate) trait Painter {
    /// The number of the line whose point the painter takes next.
    ghost next: { Self → ℕ };

    /// Takes the point after the next line, and adds the point's drawing to `text`.
    fn point(&mut self, point: &Point<'_>, text: &mut Text) -> Result<(), AllocError>
        requires few { point.now.line.now.number ≤ 1048576 }
        requires next { point.now.line.now.number ≡ next self.old }
        requires shown { IsPoint point.now.job.now point.now.line.now.number
            point.now.line.now.words.now point.now.line.now.answer.now point.now.frame.now }
        ensures { OnOk result (next self.new ≡ next self.old + 1) };
}

/// Plays a job's plan up to line number `to`, and passes the points after the lines `from` to `to` to a painter. The
/// drawing is written in pieces. What is then left in `text` isn't written yet.
///
/// The error is Memory if an allocation failed, and Write if the output failed.
pub(crate) fn show_points<P: Painter, O: Sink>(
    alloc: Global,
    job: &Job,
    from: usize,
    to: usize,
    painter: &mut P,
    text: &mut Text,
    output: &mut O,
) -> Result<(), ReplayError>
    requires some { 1 ≤ from }
    requires few { to ≤ 1048576 }
    requires next { P.next painter.old ≡ from }
    requires fresh { O.has_failed output.old ≡ false }
    ensures shown { OnOk result (P.next painter.new ≡ next_shown from (min to (length job.now.plan))) }
    ensures wrote { OnOk result (HasWritten (O.written output.old) (O.written output.new)) }
    ensures ok { OnOk result (O.has_failed output.new ≡ false) }
    ensures write { result ≡ Err ReplayError.Write → O.has_failed output.new ≡ true }
    ensures memory { result ≡ Err ReplayError.Memory → O.has_failed output.new ≡ false }
    ensures kinds { IfErr result (λ error. (error ≡ ReplayError.Write) ⊎ (error ≡ ReplayError.Memory)) }
{
    let mut turns = Turns::open(alloc, job)?;
    let end = lines_up_to(job, to);
    let mut played = 0;
    while played < end {
        show_point(alloc, job, &mut turns, played, from, painter, text)?;
        played += 1;
        if text.len() >= CHUNK_BYTES {
            write_out(output, text)?;
        }
    }
    Ok(())
}

/// The number of lines of a job's plan whose line number is at most `to`.
pub(crate) fn lines_up_to(job: &Job, to: usize) -> usize
    ensures { result ≡ min to (length job.now.plan) }
{
    to.min(job.plan.lines().len())
}

/// Plays the line of a plan at a place, counted from 0. Passes the point after this line to the painter, unless the
/// line comes before line `from`.
fn show_point<P: Painter>(
    alloc: Global,
    job: &Job,
    turns: &mut Turns,
    place: usize,
    from: usize,
    painter: &mut P,
    text: &mut Text,
) -> Result<(), AllocError>
    requires within { place < length job.now.plan }
    requires few { place < 1048576 }
    requires stands { StandsBehind job.now place turns.old }
    requires next { P.next painter.old ≡ next_shown from place }
    ensures stands { OnOk result (StandsBehind job.now (place + 1) turns.new) }
    ensures next { OnOk result (P.next painter.new ≡ next_shown from (place + 1)) }
{
    let Some(played) = play_line(alloc, job, turns, place, from)? else {
        return Ok(());
    };
    let line = Line {
        number: place as u32 + 1,
        words: played.words.as_slice(),
        answer: played.answer.as_slice(),
    };
    let point = Point {
        job,
        line: &line,
        frame: &played.frame,
    };
    painter.point(&point, text)
}

/// Plays the line of a plan at a place, counted from 0. Returns the point after this line, or `None` if the line comes
/// before line `from`.
pub(crate) fn play_line(
    alloc: Global,
    job: &Job,
    turns: &mut Turns,
    place: usize,
    from: usize,
) -> Result<Option<PlayedLine>, AllocError>
    requires within { place < length job.now.plan }
    requires few { place < 4294967295 }
    requires stands { StandsBehind job.now place turns.old }
    ensures stands { OnOk result (StandsBehind job.now (place + 1) turns.new) }
    ensures point { IfOk result (IsPointFrom job.now from (place + 1)) }
{
    let mut answer = Vec::new(alloc);
    if place + 1 < from {
        turns.play(alloc, job, place, &mut answer)?;
        return Ok(None);
    }
    let words = caption_at(alloc, job, turns, place)?;
    turns.play(alloc, job, place, &mut answer)?;
    let heap = turns.heap();
    heap.always();
    let frame = frame_of(alloc, heap)?;
    Ok(Some(PlayedLine {
        words,
        answer,
        frame,
    }))
}

/// Returns the caption of the line of a plan at a place, counted from 0. The caption of a worker's line includes the
/// attempted command.
fn caption_at(alloc: Global, job: &Job, turns: &Turns, place: usize) -> Result<Vec<u8>, AllocError>
    requires within { place < length job.now.plan }
    requires stands { StandsBehind job.now place turns.now }
    ensures { IfOk result (λ words. IsCaption job.now place words.items) }
{
    let mut words = Vec::new(alloc);
    let line = &job.plan.lines()[place];
    match line {
        PlanLine::Run(worker) => {
            let command = turns.next_command(job, *worker);
            add_attempt(&mut words, *worker, command)?;
            Ok(words)
        }
        _ => {
            add_plan_line(&mut words, line)?;
            Ok(words)
        }
    }
}

/// Appends `worker W`, and the command that the worker attempts, if there is one.
fn add_attempt(text: &mut Vec<u8>, worker: u32, command: Option<Command>) -> Result<(), AllocError>
    ensures { OnOk result (text.new.items ≡ text.old.items ++ attempt_text worker command) }
{
    text.extend_from_slice(b"worker ")?;
    add_decimal(text, u64::from(worker))?;
    match command {
        None => Ok(()),
        Some(command) => {
            text.extend_from_slice(b": ")?;
            add_command(text, &command)
        }
    }
}

/// Writes the buffered text of a picture, and empties the buffer. The error is Memory if an allocation for the text
/// failed; then nothing was written. The error is Write if the output failed.
pub(crate) fn write_out<O: Sink>(output: &mut O, text: &mut Text) -> Result<(), ReplayError>
    requires { O.has_failed output.old ≡ false }
    ensures wrote { OnOk result
        (IsSomeAnd text.old (λ bytes. Appends (O.written output.old) (O.written output.new) bytes)) }
    ensures emptied { OnOk result (text.new ≡ Some []) }
    ensures ok { OnOk result (O.has_failed output.new ≡ false) }
    ensures write { result ≡ Err ReplayError.Write → O.has_failed output.new ≡ true }
    ensures begun { result ≡ Err ReplayError.Write
        → IsSomeAnd text.old (λ bytes. AppendsBeginning (O.written output.old) (O.written output.new) bytes) }
    ensures memory { result ≡ Err ReplayError.Memory → (text.old ≡ None) × (O.has_failed output.new ≡ false) }
    ensures kinds { IfErr result (λ error. (error ≡ ReplayError.Write) ⊎ (error ≡ ReplayError.Memory)) }
{
    write_all(output, text.whole()?).map_err(|_| ReplayError::Write)?;
    text.clear();
    Ok(())
}
