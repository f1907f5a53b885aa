//! The reading of a job from a device.
ghost use Rattle.std.specs.Prelude.{◌≡◌, ◌+◌, ◌≤◌, ◌⊎◌, false, true, ℕ, List, [], length, take, vec_len, IfOk, IfErr, OnOk};
ghost use Rattle.text_job.specs.Taken.{HasTaken, IsReading, bytes_taken};
ghost use Rattle.text_job.specs.Read.{HasReadInto, HasReadJob, HasReadNoJob, IsHeld};

use crate::job::Job;
use crate::reader::{MAX_FILE_BYTES, Reading};
use std::alloc::{AllocError, Global};
use text_devices::{ReplayError, Source, read_some};

/// The greatest number of bytes that are read: one more than a job file may have. With the additional byte, a file that
/// is too long is recognized.
const MAX_READ: usize = MAX_FILE_BYTES + 1;

/// The greatest number of bytes of one read.
const READ_BYTES: usize = 16_384;

/// The number of bytes in the buffer for the start of a line whose end hasn't been read yet.
const MAX_LINE_BYTES: usize = 1024;

/// Reads a job file from the input, and returns its job.
///
/// The input is read to its end, or to 1,048,577 bytes, which is one more than a job file may have. The error is `Read`
/// if the input fails, `Text` if the bytes that were read are no job file, and `Memory` if an allocation fails. It is
/// never `Write`.
pub fn read_job<I: Source>(alloc: Global, input: &mut I) -> Result<Job, ReplayError>
    requires { I.has_failed input.old ≡ false }
    ensures ok { OnOk result (I.has_failed input.new ≡ false) }
    ensures job { IfOk result (HasReadJob (I.remaining input.old) (I.remaining input.new)) }
    ensures none { IfErr result (HasReadNoJob (I.remaining input.old) (I.remaining input.new)) }
    ensures read { result ≡ Err ReplayError.Read → I.has_failed input.new ≡ true }
{
    let mut reading = Reading::new(alloc);
    let mut buffer = room_to_read(alloc)?;
    let held = read_pieces(input, &mut reading, &mut buffer)?;
    Ok(reading.finish(&buffer[..held])?)
}

/// Returns a buffer with room for the start of a line, followed by the bytes of one read.
fn room_to_read(alloc: Global) -> Result<Vec<u8>, AllocError>
    ensures { IfOk result (λ room. vec_len room ≡ 17408) }
{
    vec![in alloc; 0; READ_BYTES + MAX_LINE_BYTES]
}

/// Reads the input to its end, or to its first 1,048,577 bytes. After each read, passes the whole lines to `reading`.
/// Returns the number of remaining bytes, which are at the front of the buffer. The error is `Read` if the input fails,
/// and `Memory` if an allocation fails.
fn read_pieces<I: Source>(
    input: &mut I,
    reading: &mut Reading,
    buffer: &mut [u8],
) -> Result<usize, ReplayError>
    requires fresh { I.has_failed input.old ≡ false }
    requires none { HasTaken reading.old [] }
    requires room { length buffer.old ≡ 17408 }
    ensures held { IfOk result
        (λ held. HasReadInto (I.remaining input.old) (I.remaining input.new) reading.new (take held buffer.new)) }
    ensures within { IfOk result (λ held. held ≤ length buffer.new) }
    ensures ok { OnOk result (I.has_failed input.new ≡ false) }
    ensures read { IfErr result (λ error. error ≡ ReplayError.Read → I.has_failed input.new ≡ true) }
    ensures kinds { IfErr result (λ error. (error ≡ ReplayError.Read) ⊎ (error ≡ ReplayError.Memory)) }
{
    let mut held = 0;
    let mut count = 0;
    while count < MAX_READ {
        let room = READ_BYTES.min(MAX_READ - count);
        let more = read_some(input, &mut buffer[held..held + room])?;
        if more == 0 {
            return Ok(held);
        }
        count += more;
        held = take_lines(reading, buffer, held + more)?;
    }
    Ok(held)
}

/// Passes the whole lines among the first `held` bytes of a buffer to `reading`, and moves the remaining bytes to the
/// buffer's front. Returns the number of remaining bytes.
fn take_lines(reading: &mut Reading, buffer: &mut [u8], held: usize) -> Result<usize, AllocError>
    requires sound { IsReading reading.old }
    requires held { held ≤ length buffer.old }
    requires most { bytes_taken reading.old + held ≤ 1048577 }
    ensures len { length buffer.new ≡ length buffer.old }
    ensures few { IfOk result (λ left. left ≤ 1024) }
    ensures held { IfOk result
        (λ left. (text : List ℕ) → IsHeld reading.old (take held buffer.old) text
        → IsHeld reading.new (take left buffer.new) text) }
{
    let taken = reading.take(&buffer[..held])?;
    buffer.copy_within(taken..held, 0);
    Ok(held - taken)
}
