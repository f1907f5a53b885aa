//! The kept chunks of an object's bytes, in the order of their numbers.
ghost use Rattle.std.specs.Prelude.{◌≡◌, ◌+◌, ◌*◌, ◌<◌, ◌≤◌, OnOk, length};
ghost use Rattle.model_memory.specs.Memory.{overwritten};
ghost use Rattle.history_object.specs.Chunks.{chunk_bytes, index_of, stored};

use crate::chunk::{CHUNK_BYTES, Chunk, ZEROS};
use std::alloc::AllocError;

/// Returns the 64 bytes of the chunk with this number. They are zeros if the chunk isn't kept.
pub(crate) fn chunk(chunks: &[Chunk], number: u64) -> &[u8]
    ensures bytes { result.now ≡ chunk_bytes number chunks.now }
    ensures sized { length result.now ≡ 64 }
{
    let index = index_of(chunks, number);
    if index < chunks.len() && chunks[index].number == number {
        return all_bytes(&chunks[index].bytes);
    }
    all_bytes(&ZEROS)
}

/// Returns the place of the first kept chunk whose number is this number or above. Returns the count of kept chunks if
/// no chunk has such a number.
fn index_of(chunks: &[Chunk], number: u64) -> usize
    ensures is { result ≡ index_of number chunks.now }
    ensures within { result ≤ length chunks.now }
{
    let mut index = 0;
    for chunk in chunks {
        if number <= chunk.number {
            return index;
        }
        index += 1;
    }
    index
}

/// The bytes of an array as a slice.
fn all_bytes(bytes: &[u8; CHUNK_BYTES]) -> &[u8]
    ensures same { result.now ≡ bytes.now }
    ensures sized { length bytes.now ≡ 64 }
{
    bytes.as_slice()
}

/// Stores bytes in the chunk with this number, starting at `place`.
pub(crate) fn store_run(
    chunks: &mut Vec<Chunk>,
    number: u64,
    place: usize,
    bytes: &[u8],
) -> Result<(), AllocError>
    requires one_chunk { place + length bytes.now ≤ 64 }
    requires some { 0 < length bytes.now }
    ensures { OnOk result (chunks.new.items ≡ stored chunks.old.items (number * 64 + place) bytes.now) }
{
    let index = index_of(chunks.as_slice(), number);
    if index < chunks.len() && chunks[index].number == number {
        let chunk = &mut chunks[index];
        write(&mut chunk.bytes, place, bytes);
        return Ok(());
    }
    let mut fresh = ZEROS;
    write(&mut fresh, place, bytes);
    chunks.insert(
        index,
        Chunk {
            number,
            bytes: fresh,
        },
    )?;
    Ok(())
}

/// Writes bytes into a chunk, starting at `place`.
fn write(chunk: &mut [u8; CHUNK_BYTES], place: usize, bytes: &[u8])
    requires { place + length bytes.now ≤ 64 }
    ensures written { chunk.new ≡ overwritten chunk.old place bytes.now }
    ensures sized { length chunk.old ≡ 64 }
{
    chunk[place..place + bytes.len()].copy_from_slice(bytes);
}
