//! The picture of a job, from its file to an SVG file.
ghost use Rattle.std.specs.Prelude.{◌≡◌, ◌⊎◌, ◌≤◌, Err, false, true, IfErr, IfOk, OnOk, length, min};
ghost use Rattle.std.specs.Io.KnownBytes.{Keeps};
ghost use Rattle.draw_job.specs.Draws.{AreShown, HasDrawn, HasDrawnJob, HasDrawnPicture, HasNotDrawn};
ghost use Rattle.draw_job.specs.Painters.{next_measured};
ghost use Rattle.draw_job.specs.PlanEnds.{StopsBefore};
ghost use Rattle.draw_job.specs.Points.{next_shown};

use crate::DrawError;
use crate::painters::{Drawing, Measuring, Nowhere};
use crate::points::{MAX_LINES, show_points, write_out};
use crate::readings::read_job_from;
use draw_picture::{Picture, Text};
use mesh_text::Job;
use std::alloc::Global;
use text_devices::{ReplayError, Sink, Source};

/// The options of a picture: what it shows, and how.
#[derive(Clone, Copy)]
pub struct DrawOptions<'a> {
    /// The title above the picture: the name of the job file.
    pub title: &'a str,
    /// The number of the first line of the plan whose point is shown, counted from 1.
    pub from: u32,
    /// The number of the last line of the plan whose point is shown. Lines past the plan's end are ignored.
    pub to: u32,
    /// The number of frames that are side by side. 0 is the number that fits.
    pub columns: u32,
}

/// Reads a job file from the input and draws the job as one SVG file.
///
/// The plan is played twice: once to measure the picture, and once to draw and write it in pieces. The error is Read if
/// the input failed, Text if the input is no job file, and PlanEnds if the plan ends before the first line to show;
/// nothing was written then. The error is Memory if an allocation failed, and Write if the output failed.
pub fn draw<I: Source, O: Sink>(
    alloc: Global,
    input: &mut I,
    output: &mut O,
    options: &DrawOptions<'_>,
) -> Result<(), DrawError>
    requires input { I.has_failed input.old ≡ false }
    requires output { O.has_failed output.old ≡ false }
    ensures ok { OnOk result ((I.has_failed input.new ≡ false) × (O.has_failed output.new ≡ false)) }
    ensures none { IfErr result
        (StopsBefore options.now.from HasNotDrawn (I.remaining input.old) (I.remaining input.new)
        (O.written output.old) (O.written output.new)) }
    ensures drawn { OnOk result
        (HasDrawnJob options.now.title.now options.now.from options.now.to (I.remaining input.old)
        (I.remaining input.new) (O.written output.old) (O.written output.new)) }
    ensures read { result ≡ Err (DrawError.Replay ReplayError.Read) → I.has_failed input.new ≡ true }
    ensures write { result ≡ Err (DrawError.Replay ReplayError.Write) → O.has_failed output.new ≡ true }
    ensures memory { result ≡ Err (DrawError.Replay ReplayError.Memory) → O.has_failed output.new ≡ false }
{
    let job = read_job_from(alloc, input, options.from)?;
    let shown = paint(alloc, &job, output, options)?;
    all_shown(&job, options, &shown);
    Ok(())
}

/// The numbers of the lines whose points the two painters would take next.
#[derive(Clone, Copy)]
struct Shown {
    measured: usize,
    drawn: usize,
}

/// States by its requirement that, once a picture is drawn, both painters took each point that the options ask for. The
/// function does nothing.
fn all_shown(job: &Job, options: &DrawOptions<'_>, shown: &Shown)
    requires { AreShown job.now options.now.from options.now.to shown.now }
{}

/// Draws a job and writes the picture. The error is Memory if an allocation failed, and Write if the output failed.
fn paint<O: Sink>(
    alloc: Global,
    job: &Job,
    output: &mut O,
    options: &DrawOptions<'_>,
) -> Result<Shown, ReplayError>
    requires { O.has_failed output.old ≡ false }
    ensures shown { IfOk result (AreShown job.now options.now.from options.now.to) }
    ensures drawn { OnOk result
        (HasDrawn options.now.title.now options.now.from options.now.to job.now (O.written output.old)
        (O.written output.new)) }
    ensures ok { OnOk result (O.has_failed output.new ≡ false) }
    ensures memory { result ≡ Err ReplayError.Memory → O.has_failed output.new ≡ false }
    ensures write { result ≡ Err ReplayError.Write → O.has_failed output.new ≡ true }
    ensures kinds { IfErr result (λ error. (error ≡ ReplayError.Write) ⊎ (error ≡ ReplayError.Memory)) }
{
    let from = (options.from as usize).max(1);
    let to = (options.to as usize).min(MAX_LINES);
    let measuring = measured(alloc, job, from, to)?;
    let measured = measuring.next_line();
    let picture = measuring.picture(alloc, job, options, from)?;
    let drawn = draw_all(alloc, job, from, to, picture, output)?;
    Ok(Shown { measured, drawn })
}

/// Returns a painter that has measured each point after the lines `from` to `to`. The error is Memory if an allocation
/// failed.
fn measured(alloc: Global, job: &Job, from: usize, to: usize) -> Result<Measuring, ReplayError>
    requires some { 1 ≤ from }
    requires few { to ≤ 1048576 }
    ensures shown { IfOk result (λ painter. next_measured painter ≡ next_shown from (min to (length job.now.plan))) }
    ensures kinds { IfErr result (λ error. error ≡ ReplayError.Memory) }
{
    let mut measuring = Measuring::new(alloc, from);
    let mut text = Text::new(alloc);
    show_points(
        alloc,
        job,
        from,
        to,
        &mut measuring,
        &mut text,
        &mut Nowhere,
    )?;
    Ok(measuring)
}

/// Draws the points after the lines `from` to `to`. Returns the number of the line after the last drawn point.
fn draw_all<O: Sink>(
    alloc: Global,
    job: &Job,
    from: usize,
    to: usize,
    picture: Picture,
    output: &mut O,
) -> Result<usize, ReplayError>
    requires some { 1 ≤ from }
    requires few { to ≤ 1048576 }
    requires next { picture.next ≡ from }
    requires fresh { O.has_failed output.old ≡ false }
    ensures shown { IfOk result (λ next. next ≡ next_shown from (min to (length job.now.plan))) }
    ensures drawn { OnOk result (HasDrawnPicture picture (O.written output.old) (O.written output.new)) }
    ensures ok { OnOk result (O.has_failed output.new ≡ false) }
    ensures write { result ≡ Err ReplayError.Write → O.has_failed output.new ≡ true }
    ensures memory { result ≡ Err ReplayError.Memory → O.has_failed output.new ≡ false }
    ensures kinds { IfErr result (λ error. (error ≡ ReplayError.Write) ⊎ (error ≡ ReplayError.Memory)) }
{
    let mut text = Text::new(alloc);
    let mut drawing = Drawing::new(picture, &mut text);
    write_out(output, &mut text)?;
    show_points(alloc, job, from, to, &mut drawing, &mut text, output)?;
    drawing.end(&mut text)?;
    write_out(output, &mut text)?;
    Ok(drawing.next_line())
}
