//! The line that reports why a run stopped.
ghost use Rattle.std.specs.Prelude.{◌≡◌, ◌+◌, ◌≤◌, [], ◌++◌, decimal, length};
ghost use Rattle.model_jobs.specs.Texts.{ended};
ghost use Rattle.run_program.specs.Draws.{draw_error_text, plan_ends_text};
ghost use Rattle.run_program.specs.Runs.{error_text, fault_text};
ghost use Rattle.run_program.specs.Threads.{threads_text};

use crate::ThreadsError;
use arrayvec::ArrayVec;
use draw_job::DrawError;
use itoa::Buffer;
use mesh_text::TextFault;
use text_devices::ReplayError;

/// The bytes of a line, with room for the longest: `too many states: more than 4294967295; --states raises the limit`
/// with a line end.
pub(crate) type Line = ArrayVec<u8, 72>;

/// The line of an error, with a line end.
pub(crate) fn line_of(error: ReplayError) -> Line
    ensures { result.items ≡ ended (error_text error) }
{
    let mut line = Line::new();
    match error {
        ReplayError::Read => add(&mut line, b"read fault"),
        ReplayError::Write => add(&mut line, b"write fault"),
        ReplayError::Memory => add(&mut line, b"out of memory"),
        ReplayError::Text(fault) => add_fault(&mut line, fault),
    }
    add(&mut line, b"\n");
    line
}

/// The line of an error of a run in threads, with a line end.
pub(crate) fn threads_line_of(error: ThreadsError) -> Line
    ensures { result.items ≡ ended (threads_text error) }
{
    match error {
        ThreadsError::Replay(error) => line_of(error),
        ThreadsError::TooShort => line_with(b"history too short"),
        ThreadsError::Thread => line_with(b"thread fault"),
        ThreadsError::Run => line_with(b"run fault"),
    }
}

/// The line of an error of a drawing, with a line end. `from` is the first line that was asked for.
pub(crate) fn draw_line_of(error: DrawError, from: u32) -> Line
    ensures { result.items ≡ ended (draw_error_text from error) }
{
    match error {
        DrawError::Replay(error) => line_of(error),
        DrawError::PlanEnds(lines) => plan_line(lines, from),
    }
}

/// The line about a plan that has this number of lines, and ends before line `from`.
fn plan_line(lines: u32, from: u32) -> Line
    ensures { result.items ≡ ended (plan_ends_text from lines) }
{
    let mut line = Line::new();
    add_number(&mut line, b"the plan ends at line ", lines);
    add_number(&mut line, b", before --from ", from);
    add(&mut line, b"\n");
    line
}

/// A line of these bytes, with a line end.
pub(crate) fn line_with(bytes: &[u8]) -> Line
    requires { length bytes.now ≤ 71 }
    ensures { result.items ≡ ended bytes.now }
{
    let mut line = Line::new();
    add(&mut line, bytes);
    add(&mut line, b"\n");
    line
}

/// A line that consists of `before`, a number in decimal and `behind`, with a line end.
pub(crate) fn number_line(before: &[u8], number: u32, behind: &[u8]) -> Line
    requires { length before.now + length behind.now ≤ 61 }
    ensures { result.items ≡ ended (before.now ++ decimal number ++ behind.now) }
{
    let mut line = Line::new();
    add_number(&mut line, before, number);
    add(&mut line, behind);
    add(&mut line, b"\n");
    line
}

/// A line that consists of `before`, the number of a place in decimal and `behind`, with a line end.
pub(crate) fn place_line(before: &[u8], place: usize, behind: &[u8]) -> Line
    requires { length before.now + length behind.now ≤ 51 }
    ensures { result.items ≡ ended (before.now ++ decimal place ++ behind.now) }
{
    let mut digits = Buffer::new();
    let mut line = Line::new();
    add(&mut line, before);
    add(&mut line, digits.format(place).as_bytes());
    add(&mut line, behind);
    add(&mut line, b"\n");
    line
}

/// Adds the text of a fault.
fn add_fault(line: &mut Line, fault: TextFault)
    requires { line.old.items ≡ [] }
    ensures text { line.new.items ≡ fault_text fault }
    ensures short { length line.new.items ≤ 71 }
{
    let mut digits = Buffer::new();
    add(line, b"line ");
    add(line, digits.format(fault.line).as_bytes());
    add(line, b": ");
    add(line, fault.kind.name().as_bytes());
}

/// Adds bytes and a number in decimal; there must be room for the longest number.
fn add_number(line: &mut Line, before: &[u8], number: u32)
    requires { length line.old.items + length before.now ≤ 62 }
    ensures text { line.new.items ≡ line.old.items ++ before.now ++ decimal number }
    ensures short { length line.new.items ≤ length line.old.items + length before.now + 10 }
{
    let mut digits = Buffer::new();
    add(line, before);
    add(line, digits.format(number).as_bytes());
}

/// Adds bytes; there must be room for them.
pub(crate) fn add(line: &mut Line, bytes: &[u8])
    requires { length line.old.items + length bytes.now ≤ 72 }
    ensures { line.new.items ≡ line.old.items ++ bytes.now }
{
    let _ = line.try_extend_from_slice(bytes);
}
