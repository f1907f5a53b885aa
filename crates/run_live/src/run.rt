//! A whole session: its lines are read from a device, and its answers are written to a device.
ghost use Rattle.std.specs.Prelude.{◌≡◌, ◌≢◌, ◌≤◌, ◌⊎◌, [], Err, false, true, is_err, length, vec_len, IfErr, IfOk, OnErr, OnOk};
ghost use Rattle.std.specs.Io.KnownBytes.{Appends};
ghost use Rattle.model_jobs.specs.Jobs.{initial_state};
ghost use Rattle.model_jobs.specs.Texts.{ended};
ghost use Rattle.text_devices.specs.Transfer.{AppendsBeginning};
ghost use Rattle.run_live.specs.Answers.{told};
ghost use Rattle.run_live.specs.Runs.{HasFed, HasLived, HasStopped, IsFedPart, IsStopped, Keeps, Takes, is_end, told_rest};
ghost use Rattle.run_live.specs.Sessions.{HasFairSizes, IsSession, job_of, sizes_of, state_of};

use crate::answers::add_fault;
use crate::{Session, Sizes};
use std::alloc::{AllocError, Global};
use text_devices::{ReplayError, Sink, Source, read_some, write_lines};
use text_fields::lines::{MAX_LINE_BYTES, rest_fault};

/// The greatest number of bytes of one read.
const READ_BYTES: usize = 16_384;

/// Answers the lines of the input, one by one. Each answer is one line, and is written before the next line is
/// answered.
///
/// A line is answered as `Session::answer` does, so its fault is an answer too. The line `end` ends the session, and so
/// does the input's end. If bytes follow the last line end, they are answered with the fault CUT, or with LONG_LINE if
/// they are more than 1,024.
///
/// The error is Read if the input failed, Write if the output failed, and Memory if an allocation failed. It is never
/// Text.
pub fn live<I: Source, O: Sink>(
    alloc: Global,
    sizes: &Sizes,
    input: &mut I,
    output: &mut O,
) -> Result<(), ReplayError>
    requires sizes { HasFairSizes sizes.now }
    requires input { I.has_failed input.old ≡ false }
    requires output { O.has_failed output.old ≡ false }
    ensures ok { OnOk result ((I.has_failed input.new ≡ false) × (O.has_failed output.new ≡ false)) }
    ensures lived { OnOk result
        (HasLived sizes.now (I.remaining input.old) (I.remaining input.new) (O.written output.old)
        (O.written output.new)) }
    ensures stopped { OnErr result
        (HasStopped sizes.now (I.remaining input.old) (O.written output.old) (O.written output.new)) }
    ensures read { result ≡ Err ReplayError.Read → I.has_failed input.new ≡ true }
    ensures write { result ≡ Err ReplayError.Write → O.has_failed output.new ≡ true }
    ensures memory { result ≡ Err ReplayError.Memory
        → (I.has_failed input.new ≡ false) × (O.has_failed output.new ≡ false) }
{
    let mut session = Session::open(alloc, sizes)?;
    live_on(alloc, &mut session, input, output)
}

/// Does the same as `live`, for a session that has answered no line yet.
fn live_on<I: Source, O: Sink>(
    alloc: Global,
    session: &mut Session,
    input: &mut I,
    output: &mut O,
) -> Result<(), ReplayError>
    requires sound { IsSession session.old }
    requires initial_state { state_of session.old ≡ initial_state (job_of (sizes_of session.old)) }
    requires input { I.has_failed input.old ≡ false }
    requires output { O.has_failed output.old ≡ false }
    ensures ok { OnOk result ((I.has_failed input.new ≡ false) × (O.has_failed output.new ≡ false)) }
    ensures lived { OnOk result
        (HasLived (sizes_of session.old) (I.remaining input.old) (I.remaining input.new) (O.written output.old)
        (O.written output.new)) }
    ensures stopped { OnErr result
        (HasStopped (sizes_of session.old) (I.remaining input.old) (O.written output.old) (O.written output.new)) }
    ensures read { result ≡ Err ReplayError.Read → I.has_failed input.new ≡ true }
    ensures write { result ≡ Err ReplayError.Write → O.has_failed output.new ≡ true }
    ensures memory { result ≡ Err ReplayError.Memory
        → (I.has_failed input.new ≡ false) × (O.has_failed output.new ≡ false) }
{
    let mut line = Vec::new(alloc);
    let mut buffer = room_to_read(alloc)?;
    if feed(alloc, session, &mut line, &mut buffer, input, output)? {
        return Ok(());
    }
    write_rest(alloc, line.as_slice(), output)
}

/// Returns a buffer for the bytes of one read.
fn room_to_read(alloc: Global) -> Result<Vec<u8>, AllocError>
    ensures { IfOk result (λ room. vec_len room ≡ 16384) }
{
    vec![in alloc; 0; READ_BYTES]
}

/// Reads the input piece by piece, and answers its lines. Returns `true` once the line `end` was read, and `false` if
/// the input has ended. If the result is `false`, `line` holds what is kept of the bytes after the last line end.
fn feed<I: Source, O: Sink>(
    alloc: Global,
    session: &mut Session,
    line: &mut Vec<u8>,
    buffer: &mut [u8],
    input: &mut I,
    output: &mut O,
) -> Result<bool, ReplayError>
    requires sound { IsSession session.old }
    requires room { 1 ≤ length buffer.old }
    requires empty { line.old.items ≡ [] }
    requires input { I.has_failed input.old ≡ false }
    requires output { O.has_failed output.old ≡ false }
    ensures ok { OnOk result ((I.has_failed input.new ≡ false) × (O.has_failed output.new ≡ false)) }
    ensures fed { IfOk result
        (λ over. HasFed over session.old session.new line.new.items (I.remaining input.old) (I.remaining input.new)
        (O.written output.old) (O.written output.new)) }
    ensures stopped { OnErr result
        (IsFedPart session.old (I.remaining input.old) (O.written output.old) (O.written output.new)) }
    ensures read { result ≡ Err ReplayError.Read → I.has_failed input.new ≡ true }
    ensures write { result ≡ Err ReplayError.Write → O.has_failed output.new ≡ true }
    ensures memory { result ≡ Err ReplayError.Memory
        → (I.has_failed input.new ≡ false) × (O.has_failed output.new ≡ false) }
{
    for _read in 0..u64::MAX {
        let count = read_some(input, buffer)?;
        if count == 0 {
            return Ok(false);
        }
        if take_bytes(alloc, session, line, &buffer[..count], output)? {
            return Ok(true);
        }
    }
    Ok(false)
}

/// Processes bytes one by one: collects the bytes of a line, and answers the line at its end. Stops at the line `end`,
/// and then returns `true`. Bytes after that line are ignored.
fn take_bytes<O: Sink>(
    alloc: Global,
    session: &mut Session,
    line: &mut Vec<u8>,
    bytes: &[u8],
    output: &mut O,
) -> Result<bool, ReplayError>
    requires sound { IsSession session.old }
    requires output { O.has_failed output.old ≡ false }
    ensures ok { OnOk result ((O.has_failed output.new ≡ false) × IsSession session.new) }
    ensures taken { IfOk result
        (λ over. Takes over session.old session.new line.old.items line.new.items bytes.now (O.written output.old)
        (O.written output.new)) }
    ensures stopped { OnErr result
        (IsStopped session.old line.old.items bytes.now (O.written output.old) (O.written output.new)) }
    ensures kinds { IfErr result (λ error. (error ≡ ReplayError.Write) ⊎ (error ≡ ReplayError.Memory)) }
    ensures write { result ≡ Err ReplayError.Write → O.has_failed output.new ≡ true }
    ensures memory { result ≡ Err ReplayError.Memory → O.has_failed output.new ≡ false }
{
    for byte in bytes {
        if *byte != b'\n' {
            keep(line, *byte)?;
            continue;
        }
        if is_end(line.as_slice()) {
            return Ok(true);
        }
        write_answer(alloc, session, line.as_slice(), output)?;
        line.clear();
    }
    Ok(false)
}

/// Adds a byte to a line, unless the line already has more than 1,024 bytes.
fn keep(line: &mut Vec<u8>, byte: u8) -> Result<(), AllocError>
    requires { byte ≢ 10 }
    ensures { OnOk result (Keeps line.old.items byte line.new.items) }
{
    if line.len() <= MAX_LINE_BYTES {
        line.push(byte)?;
    }
    Ok(())
}

/// Whether a line ends the session.
fn is_end(line: &[u8]) -> bool
    ensures { result ≡ is_end line.now }
{
    line == b"end".as_slice()
}

/// Answers a line, and writes the answer with a line end.
fn write_answer<O: Sink>(
    alloc: Global,
    session: &mut Session,
    line: &[u8],
    output: &mut O,
) -> Result<(), ReplayError>
    requires sound { IsSession session.old }
    requires output { O.has_failed output.old ≡ false }
    ensures ok { OnOk result ((O.has_failed output.new ≡ false) × IsSession session.new) }
    ensures sizes { OnOk result (sizes_of session.new ≡ sizes_of session.old) }
    ensures stands { OnOk result
        (state_of session.new ≡ (told (sizes_of session.old) (state_of session.old) line.now).state) }
    ensures wrote { OnOk result
        (Appends (O.written output.old) (O.written output.new)
        (ended (told (sizes_of session.old) (state_of session.old) line.now).text)) }
    ensures begun { OnErr result
        (AppendsBeginning (O.written output.old) (O.written output.new)
        (ended (told (sizes_of session.old) (state_of session.old) line.now).text)) }
    ensures kinds { IfErr result (λ error. (error ≡ ReplayError.Write) ⊎ (error ≡ ReplayError.Memory)) }
    ensures write { result ≡ Err ReplayError.Write → O.has_failed output.new ≡ true }
    ensures memory { result ≡ Err ReplayError.Memory → O.has_failed output.new ≡ false }
{
    let mut text = Vec::new(alloc);
    session.answer(alloc, line, &mut text)?;
    write_line(&mut text, output)
}

/// Writes a text with a line end after it.
fn write_line<O: Sink>(text: &mut Vec<u8>, output: &mut O) -> Result<(), ReplayError>
    requires { O.has_failed output.old ≡ false }
    ensures ok { OnOk result (O.has_failed output.new ≡ false) }
    ensures wrote { OnOk result (Appends (O.written output.old) (O.written output.new) (ended text.old.items)) }
    ensures begun { OnErr result
        (AppendsBeginning (O.written output.old) (O.written output.new) (ended text.old.items)) }
    ensures kinds { IfErr result (λ error. (error ≡ ReplayError.Write) ⊎ (error ≡ ReplayError.Memory)) }
    ensures write { result ≡ Err ReplayError.Write → O.has_failed output.new ≡ true }
    ensures memory { result ≡ Err ReplayError.Memory → O.has_failed output.new ≡ false }
{
    text.extend_from_slice(b"\n")?;
    write_lines(output, text.as_slice())
}

/// Writes the fault of the bytes after the last line end. Writes nothing if there are no such bytes.
fn write_rest<O: Sink>(alloc: Global, rest: &[u8], output: &mut O) -> Result<(), ReplayError>
    requires { O.has_failed output.old ≡ false }
    ensures ok { OnOk result (O.has_failed output.new ≡ false) }
    ensures wrote { OnOk result (Appends (O.written output.old) (O.written output.new) (told_rest rest.now)) }
    ensures begun { OnErr result (AppendsBeginning (O.written output.old) (O.written output.new) (told_rest rest.now)) }
    ensures kinds { IfErr result (λ error. (error ≡ ReplayError.Write) ⊎ (error ≡ ReplayError.Memory)) }
    ensures write { result ≡ Err ReplayError.Write → O.has_failed output.new ≡ true }
    ensures memory { result ≡ Err ReplayError.Memory → O.has_failed output.new ≡ false }
{
    if rest.is_empty() {
        return Ok(());
    }
    let mut text = Vec::new(alloc);
    add_fault(&mut text, rest_fault(rest, MAX_LINE_BYTES))?;
    write_line(&mut text, output)
}
