//! `SparseBytes`: the bytes of one object.
ghost use Rattle.std.specs.Prelude.{◌≡◌, ◌+◌, ◌*◌, ◌^◌, ◌≤◌, ◌<◌, ◌↔◌, IfOk, IsOk, IsTrue, OnOk, OnErr, length, replicate, slice_index, slice_range};
ghost use Rattle.model_memory.specs.Memory.{overwritten};
ghost use Rattle.history_in_order.specs.Chunks.{IsPartlyStored};

use crate::chunks::{CHUNK_BYTES, Chunk, chunk_bytes, store_in, stored_at};
use history_bytes::RecordedBytes;
use std::alloc::{AllocError, Global};
use std::collections::BTreeMap;
use std::marker::Model;

/// The bytes of one object, and for each byte the line that stored it last. Bytes that were never stored are 0. Only
/// chunks in which some byte was stored take memory.
#[derive(Drop)]
pub struct SparseBytes {
    // The number of bytes of the object.
    len: u64,
    // The chunks in which bytes were stored, by number.
    chunks: BTreeMap<u64, Chunk>,
    alloc: Global,
}

impl Model for SparseBytes {
    ghost use Rattle.std.specs.Prelude.{ℕ, List};
    ghost use Rattle.std.specs.Ordering.{nat_cmp};
    ghost use Rattle.std.specs.Coded.{coded_list, coded_ℕ};
    ghost use Rattle.std.specs.BTreeMap.{get};
    ghost use Rattle.history_in_order.specs.Chunks.{bytes_in};

    ghost Value = { List ℕ };

    ghost coded = { coded_list coded_ℕ };

    ghost view = { λ s. bytes_in (get nat_cmp s.chunks) s.len };
}

impl SparseBytes {
    /// Returns `len` zeros. Nothing is allocated.
    pub fn new(alloc: Global, len: u64) -> Self
        ensures { result ≡ replicate len 0 }
    {
        SparseBytes {
            len,
            chunks: BTreeMap::new(alloc),
            alloc,
        }
    }

    /// The number of bytes.
    pub fn len(&self) -> u64
        ensures { result ≡ length self.now }
    {
        self.len
    }

    /// Returns the `len` bytes that begin at offset `start`. It allocates nothing for up to 32 bytes.
    pub fn load(&self, alloc: Global, start: u64, len: u32) -> Result<RecordedBytes, AllocError>
        requires fits { start + len ≤ length self.now }
        requires few { len ≤ 4096 }
        ensures bytes { IfOk result (λ bytes. bytes.items ≡ slice_range self.now start (start + len)) }
        ensures inline { len ≤ 32 → IsOk result }
    {
        let (mut number, mut place) = chunk_and_place(start);
        let mut bytes = RecordedBytes::with_capacity(alloc, len as usize)?;
        while bytes.len() < len as usize {
            let run = first_run(place, len as usize - bytes.len());
            bytes.extend(self.run(number, place, run))?;
            number += 1;
            place = 0;
        }
        Ok(bytes)
    }

    /// Whether these bytes begin at offset `start`. Nothing is allocated.
    pub fn has(&self, start: u64, bytes: &[u8]) -> bool
        requires { start + length bytes.now ≤ length self.now }
        ensures { IsTrue result ↔ (slice_range self.now start (start + length bytes.now) ≡ bytes.now) }
    {
        let (mut number, mut place) = chunk_and_place(start);
        let mut done = 0;
        while done < bytes.len() {
            let run = first_run(place, bytes.len() - done);
            if !are_equal(self.run(number, place, run), &bytes[done..done + run]) {
                return false;
            }
            done += run;
            number += 1;
            place = 0;
        }
        true
    }

    /// Returns the byte at an offset.
    pub fn byte(&self, off: u64) -> u8
        requires { off < length self.now }
        ensures { result ≡ slice_index self.now off }
    {
        let (number, place) = chunk_and_place(off);
        self.run(number, place, 1)[0]
    }

    /// Returns the line of the last entry that stored the byte at an offset, or `None` if no entry did. No clause
    /// states this.
    pub fn stored_at(&self, off: u64) -> Option<u32> {
        let (number, place) = chunk_and_place(off);
        stored_at(&self.chunks, number, place)
    }

    /// Overwrites the bytes that begin at offset `start`, for the entry on a line. Lines are numbered from 1.
    ///
    /// After the error, a prefix of the bytes is stored, and all other bytes are unchanged. The error is possible only
    /// if the range touches a chunk of 64 bytes in which no byte was stored before. No clause states this condition,
    /// because the list of bytes doesn't show which chunks take memory.
    pub fn store(&mut self, start: u64, bytes: &[u8], line: u32) -> Result<(), AllocError>
        requires { start + length bytes.now ≤ length self.old }
        ensures stored { OnOk result (self.new ≡ overwritten self.old start bytes.now) }
        ensures partly { OnErr result (IsPartlyStored self.old self.new start bytes.now) }
        ensures len { length self.new ≡ length self.old }
    {
        let (mut number, mut place) = chunk_and_place(start);
        let mut done = 0;
        while done < bytes.len() {
            let run = first_run(place, bytes.len() - done);
            self.store_run(number, place, &bytes[done..done + run], line)?;
            done += run;
            number += 1;
            place = 0;
        }
        Ok(())
    }

    /// Returns the `len` bytes of one chunk that begin at `place`.
    fn run(&self, number: u64, place: usize, len: usize) -> &[u8]
        requires one_chunk { place + len ≤ 64 }
        requires fits { number * 64 + place + len ≤ length self.now }
        ensures { result.now ≡ slice_range self.now (number * 64 + place) (number * 64 + place + len) }
    {
        &chunk_bytes(&self.chunks, number)[place..place + len]
    }

    /// Overwrites the bytes of one chunk that begin at `place`, for the entry on a line. The only error is an
    /// allocation failure, which is possible only if the chunk was not kept (`store_in`).
    fn store_run(
        &mut self,
        number: u64,
        place: usize,
        bytes: &[u8],
        line: u32,
    ) -> Result<(), AllocError>
        requires one_chunk { place + length bytes.now ≤ 64 }
        requires fits { number * 64 + place + length bytes.now ≤ length self.old }
        ensures stored { OnOk result (self.new ≡ overwritten self.old (number * 64 + place) bytes.now) }
        ensures unchanged { OnErr result (self.new ≡ self.old) }
    {
        store_in(self.alloc, &mut self.chunks, number, place, bytes, line)
    }
}

/// The number of the chunk that contains an offset, and the offset's place in that chunk.
fn chunk_and_place(offset: u64) -> (u64, usize)
    ensures offset { result.0 * 64 + result.1 ≡ offset }
    ensures place { result.1 < 64 }
    ensures few { result.0 < 2 ^ 58 }
{
    let chunk = CHUNK_BYTES as u64;
    (offset / chunk, (offset % chunk) as usize)
}

/// Returns how many of the `len` bytes that begin at `place` are in that place's chunk.
fn first_run(place: usize, len: usize) -> usize
    requires { place < 64 }
    ensures within { result ≤ len }
    ensures some { 1 ≤ len → 1 ≤ result }
    ensures one_chunk { place + result ≤ 64 }
    ensures rest { result < len → place + result ≡ 64 }
{
    len.min(CHUNK_BYTES - place)
}

/// Whether two runs of bytes are the same.
fn are_equal(one: &[u8], other: &[u8]) -> bool
    ensures { IsTrue result ↔ (one.now ≡ other.now) }
{
    one == other
}
