//! The page that steps through the points of a job's plan.
ghost use Rattle.std.specs.Prelude.{◌≡◌, ◌<◌, Err, false, true, IfErr, OnOk};
ghost use Rattle.std.specs.Io.KnownBytes.{Appends};
ghost use Rattle.draw_html.specs.Pages.{page_end, page_start};
ghost use Rattle.draw_job.specs.Forms.{HasStoppedIn};
ghost use Rattle.draw_job.specs.Pages.{HasNotPresented, HasPresented, HasStoppedPage, HasWrittenPage};
ghost use Rattle.draw_job.specs.PlanEnds.{StopsBefore};

use crate::DrawError;
use crate::forms::{Form, write_whole};
use crate::readings::{first_line, read_job_from};
use crate::texts::write_points;
use draw_html::{end_page, start_page};
use draw_picture::title_of;
use mesh_text::Job;
use std::alloc::Global;
use text_devices::{ReplayError, Sink, Source};

/// Reads a job file from the input, and writes an HTML page that steps through the points after the lines `from` to
/// `to` of its plan. The page has the text that `describe` writes, escaped.
///
/// `name` is the name of the job file, which is in the page's title. Lines are counted from 1, and lines past the
/// plan's end are ignored.
///
/// The error is `Read` if the input failed, `Text` if the input is no job file, and `PlanEnds` if the plan ends before
/// line `from`; nothing was written then. The error is `Memory` if an allocation failed; nothing or a page up to some
/// point was written then. The error is `Write` if the output failed.
pub fn present<I: Source, O: Sink>(
    alloc: Global,
    input: &mut I,
    output: &mut O,
    name: &str,
    from: u32,
    to: u32,
) -> Result<(), DrawError>
    requires input { I.has_failed input.old ≡ false }
    requires output { O.has_failed output.old ≡ false }
    ensures ok { OnOk result ((I.has_failed input.new ≡ false) × (O.has_failed output.new ≡ false)) }
    ensures presented { OnOk result
        (HasPresented name.now from to (I.remaining input.old) (I.remaining input.new) (O.written output.old)
        (O.written output.new)) }
    ensures stopped { IfErr result
        (StopsBefore from (HasNotPresented name.now from to) (I.remaining input.old) (I.remaining input.new)
        (O.written output.old) (O.written output.new)) }
    ensures read { result ≡ Err (DrawError.Replay ReplayError.Read) → I.has_failed input.new ≡ true }
    ensures write { result ≡ Err (DrawError.Replay ReplayError.Write) → O.has_failed output.new ≡ true }
    ensures memory { result ≡ Err (DrawError.Replay ReplayError.Memory) → O.has_failed output.new ≡ false }
{
    let job = read_job_from(alloc, input, from)?;
    let title = title_of(alloc, name.as_bytes())?;
    let first = first_line(from);
    write_page(alloc, &job, title.as_slice(), first, to as usize, output)?;
    Ok(())
}

/// Writes the page with this title of the points after the lines `from` to `to`. The error is Memory if an allocation
/// failed, and Write if the output failed.
fn write_page<O: Sink>(
    alloc: Global,
    job: &Job,
    title: &[u8],
    from: usize,
    to: usize,
    output: &mut O,
) -> Result<(), ReplayError>
    requires few { to < 4294967296 }
    requires fresh { O.has_failed output.old ≡ false }
    ensures ok { OnOk result (O.has_failed output.new ≡ false) }
    ensures written { OnOk result
        (HasWrittenPage title.now from to job.now (O.written output.old) (O.written output.new)) }
    ensures stopped { IfErr result
        (HasStoppedPage title.now from to job.now (O.written output.old) (O.written output.new)) }
    ensures write { result ≡ Err ReplayError.Write → O.has_failed output.new ≡ true }
    ensures memory { result ≡ Err ReplayError.Memory → O.has_failed output.new ≡ false }
{
    write_start(alloc, title, output)?;
    write_points(alloc, job, from, to, Form::Escaped, output)?;
    write_end(alloc, output)
}

/// Writes the page before the points.
fn write_start<O: Sink>(alloc: Global, title: &[u8], output: &mut O) -> Result<(), ReplayError>
    requires { O.has_failed output.old ≡ false }
    ensures ok { OnOk result (O.has_failed output.new ≡ false) }
    ensures wrote { OnOk result (Appends (O.written output.old) (O.written output.new) (page_start title.now)) }
    ensures stopped { IfErr result
        (HasStoppedIn (page_start title.now) (O.written output.old) (O.written output.new)) }
    ensures write { result ≡ Err ReplayError.Write → O.has_failed output.new ≡ true }
    ensures memory { result ≡ Err ReplayError.Memory → O.has_failed output.new ≡ false }
{
    let mut text = Vec::new(alloc);
    start_page(&mut text, title)?;
    write_whole(text.as_slice(), output)
}

/// Writes the page behind the points.
fn write_end<O: Sink>(alloc: Global, output: &mut O) -> Result<(), ReplayError>
    requires { O.has_failed output.old ≡ false }
    ensures ok { OnOk result (O.has_failed output.new ≡ false) }
    ensures wrote { OnOk result (Appends (O.written output.old) (O.written output.new) page_end) }
    ensures stopped { IfErr result (HasStoppedIn page_end (O.written output.old) (O.written output.new)) }
    ensures write { result ≡ Err ReplayError.Write → O.has_failed output.new ≡ true }
    ensures memory { result ≡ Err ReplayError.Memory → O.has_failed output.new ≡ false }
{
    let mut text = Vec::new(alloc);
    end_page(&mut text)?;
    write_whole(text.as_slice(), output)
}
