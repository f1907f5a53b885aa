//! The kept chunks of an object's bytes, by number.
ghost use Rattle.std.specs.Prelude.{◌≡◌, ◌+◌, ◌≤◌, ◌<◌, None, IfOk, OnOk, OnErr, length};
ghost use Rattle.std.specs.Ordering.{nat_cmp};
ghost use Rattle.std.specs.BTreeMap.{IsUnchanged, get};
ghost use Rattle.model_memory.specs.Memory.{overwritten};
ghost use Rattle.history_in_order.specs.Chunks.{IsSetAt, chunk_bytes};

use std::alloc::{AllocError, Global};
use std::collections::BTreeMap;
use std::marker::Model;

/// The number of bytes of a chunk, this project's own choice.
pub const CHUNK_BYTES: usize = 64;

/// Proves the value 64, which contracts contain in place of the constant.
const _: () = prove!(CHUNK_BYTES == 64);

/// The bytes of a chunk that is not kept.
static ZEROS: [u8; CHUNK_BYTES] = [0; CHUNK_BYTES];

/// A kept chunk. In contracts, a `Chunk` is the list of its bytes.
///
/// The stores are boxed, because a node of a B-tree has room for several values even if it has only one.
#[derive(Drop)]
pub struct Chunk {
    stores: Box<Stores>,
}

/// A chunk's bytes, and for each byte the line that stored it last.
#[derive(Drop)]
struct Stores {
    /// The bytes.
    bytes: [u8; CHUNK_BYTES],
    /// For each byte, the line of the last entry that stored the byte, or 0 if no entry did.
    lines: [u32; CHUNK_BYTES],
}

impl Model for Chunk {
    ghost use Rattle.std.specs.Prelude.{ℕ, List};
    ghost use Rattle.std.specs.Coded.{coded_list, coded_ℕ};

    ghost Value = { List ℕ };

    ghost coded = { coded_list coded_ℕ };

    ghost view = { λ s. s.stores.value.bytes };
}

impl Chunk {
    /// Returns a chunk in which nothing was stored.
    fn new(alloc: Global) -> Result<Chunk, AllocError>
        ensures { IfOk result (λ chunk. chunk ≡ chunk_bytes None) }
    {
        let stores = Stores {
            bytes: ZEROS,
            lines: [0; CHUNK_BYTES],
        };
        Ok(Chunk {
            stores: Box::new(alloc, stores)?,
        })
    }

    /// The bytes.
    fn bytes(&self) -> &[u8]
        ensures bytes { result.now ≡ self.now }
        ensures sized { length result.now ≡ 64 }
    {
        &self.stores.bytes
    }

    /// Overwrites the bytes that begin at `place`, for the entry on a line.
    fn write(&mut self, place: usize, bytes: &[u8], line: u32)
        requires { place + length bytes.now ≤ 64 }
        ensures written { self.new ≡ overwritten self.old place bytes.now }
        ensures sized { length self.old ≡ 64 }
    {
        write(&mut self.stores.bytes, place, bytes);
        mark(&mut self.stores.lines, place, bytes.len(), line);
    }

    /// Returns the line of the last entry that stored the byte at a place, or `None` if no entry did.
    fn stored_at(&self, place: usize) -> Option<u32>
        requires { place < 64 }
    {
        match self.stores.lines[place] {
            0 => None,
            line => Some(line),
        }
    }
}

/// Returns the bytes of the chunk with this number: 64 zeros if the chunk isn't kept.
pub fn chunk_bytes(chunks: &BTreeMap<u64, Chunk>, number: u64) -> &[u8]
    ensures bytes { result.now ≡ chunk_bytes (get nat_cmp chunks.now number) }
    ensures sized { length result.now ≡ 64 }
{
    match chunks.get(&number) {
        Some(kept) => kept.bytes(),
        None => &ZEROS,
    }
}

/// Returns the line of the last entry that stored the byte at a place of a chunk, or `None` if no entry did.
pub fn stored_at(chunks: &BTreeMap<u64, Chunk>, number: u64, place: usize) -> Option<u32>
    requires { place < 64 }
{
    chunks.get(&number)?.stored_at(place)
}

/// Overwrites the bytes of a chunk that begin at `place`, for the entry on a line. The only error is an allocation
/// failure, which is possible only if the chunk was not kept. After the error nothing has changed.
pub fn store_in(
    alloc: Global,
    chunks: &mut BTreeMap<u64, Chunk>,
    number: u64,
    place: usize,
    bytes: &[u8],
    line: u32,
) -> Result<(), AllocError>
    requires { place + length bytes.now ≤ 64 }
    ensures stored { OnOk result
        (IsSetAt (get nat_cmp chunks.old) (get nat_cmp chunks.new) number
        (overwritten (chunk_bytes (get nat_cmp chunks.old number)) place bytes.now)) }
    ensures unchanged { OnErr result (IsUnchanged chunks.old chunks.new) }
    ensures kept { OnErr result (get nat_cmp chunks.old number ≡ None) }
    ensures sized { length (chunk_bytes (get nat_cmp chunks.old number)) ≡ 64 }
{
    if let Some(kept) = chunks.get_mut(&number) {
        kept.write(place, bytes, line);
        return Ok(());
    }
    let mut fresh = Chunk::new(alloc)?;
    fresh.write(place, bytes, line);
    match chunks.insert(number, fresh) {
        Ok(_) => Ok(()),
        Err(_) => Err(AllocError),
    }
}

/// Overwrites the bytes of a chunk that begin at `place`.
fn write(chunk: &mut [u8; CHUNK_BYTES], place: usize, bytes: &[u8])
    requires { place + length bytes.now ≤ 64 }
    ensures written { chunk.new ≡ overwritten chunk.old place bytes.now }
    ensures sized { length chunk.old ≡ 64 }
{
    chunk[place..place + bytes.len()].copy_from_slice(bytes);
}

/// Records `line` as the last line that stored the `len` bytes that begin at `place`.
fn mark(lines: &mut [u32; CHUNK_BYTES], place: usize, len: usize, line: u32)
    requires { place + len ≤ 64 }
{
    lines[place..place + len].fill(line);
}
