//! Reading a text to the end of its device.
ghost use Rattle.std.specs.Prelude.{◌≡◌, ◌≤◌, false, IfErr, IfOk, OnOk, length, vec_len};
ghost use Rattle.text_devices.specs.Transfer.{HasNotReadAll, HasReadAll};

use crate::{ReplayError, Source, read_some};
use std::alloc::{AllocError, Global};

/// The greatest number of bytes of one read.
const READ_BYTES: usize = 16_384;

/// Reads the input to its end, and returns all bytes that were read.
///
/// The error is `Read` if and only if a read failed. Otherwise it is `Memory`: an allocation failed.
pub fn read_all<I: Source>(alloc: Global, input: &mut I) -> Result<Vec<u8>, ReplayError>
    requires { I.has_failed input.old ≡ false }
    ensures ok { OnOk result (I.has_failed input.new ≡ false) }
    ensures text { IfOk result (λ text. HasReadAll (I.remaining input.old) (I.remaining input.new) text.items) }
    ensures stopped { IfErr result (HasNotReadAll (I.has_failed input.new)) }
{
    let mut room = room_to_read(alloc)?;
    read_into(alloc, input, &mut room)
}

/// Returns a buffer for the bytes of one read.
fn room_to_read(alloc: Global) -> Result<Vec<u8>, AllocError>
    ensures { IfOk result (λ room. vec_len room ≡ 16384) }
{
    vec![in alloc; 0; READ_BYTES]
}

/// Reads the input to its end through the buffer `room`, and returns all bytes that were read. The error is `Read` if a
/// read failed, and `Memory` if an allocation failed.
fn read_into<I: Source>(
    alloc: Global,
    input: &mut I,
    room: &mut [u8],
) -> Result<Vec<u8>, ReplayError>
    requires input { I.has_failed input.old ≡ false }
    requires room { 1 ≤ length room.old }
    ensures ok { OnOk result (I.has_failed input.new ≡ false) }
    ensures text { IfOk result (λ text. HasReadAll (I.remaining input.old) (I.remaining input.new) text.items) }
    ensures stopped { IfErr result (HasNotReadAll (I.has_failed input.new)) }
{
    let mut text = Vec::new(alloc);
    for _read in 0..u64::MAX {
        let count = read_some(input, room)?;
        if count == 0 {
            return Ok(text);
        }
        text.extend_from_slice(&room[..count])?;
    }
    Err(ReplayError::Memory)
}
