//! `ObjectBytes`, the bytes of one object.
ghost use Rattle.std.specs.Prelude.{◌≡◌, ◌+◌, ◌*◌, ◌^◌, ◌≤◌, ◌<◌, ◌&&◌, IfOk, IsOk, OnOk, length, nat_eq, not, replicate, slice_range};
ghost use Rattle.std.specs.Str.{bytes_eq};
ghost use Rattle.model_intervals.specs.Objects.{ends_past};
ghost use Rattle.history_object.specs.Chunks.{stored};
ghost use Rattle.history_object.specs.ObjectBytes.{bytes_of, first_state};

use crate::chunk::{CHUNK_BYTES, Chunk};
use crate::chunks::{chunk, store_run};
use history_bytes::RecordedBytes;
use std::alloc::{AllocError, Global};
use std::marker::Model;

mod prints;

/// The bytes of one object. Bytes that were never stored are 0. Only a chunk of 64 bytes in which some byte was stored
/// takes memory.
///
/// The kept chunks depend only on which stores took effect. Assume that the same calls took effect in two
/// configurations of a judge, and that their bytes are equal. Then both keep the same chunks, and the judge counts them
/// as one configuration.
#[derive(Drop)]
pub struct ObjectBytes {
    len: u64,
    chunks: Vec<Chunk>,
}

impl Model for ObjectBytes {
    ghost use Rattle.history_object.specs.ObjectBytes.{State};

    ghost Value = { State };

    ghost view = { λ s. record { len = s.len; chunks = s.chunks.items } };
}

impl ObjectBytes {
    /// Returns `len` zero bytes. It allocates nothing.
    pub fn new(alloc: Global, len: u64) -> ObjectBytes
        ensures first { result ≡ first_state len }
        ensures zeros { bytes_of result ≡ replicate len 0 }
    {
        ObjectBytes {
            len,
            chunks: Vec::new(alloc),
        }
    }

    /// Returns the number of bytes.
    pub fn len(&self) -> u64
        ensures { result ≡ length (bytes_of self.now) }
    {
        self.len
    }

    /// Returns the `len` bytes that begin at offset `off`. It allocates nothing for up to 32 bytes.
    pub fn load(&self, alloc: Global, off: u64, len: u32) -> Result<RecordedBytes, AllocError>
        requires fits { off + len ≤ length (bytes_of self.now) }
        requires few { len ≤ 4096 }
        ensures bytes { IfOk result (λ bytes. bytes.items ≡ slice_range (bytes_of self.now) off (off + len)) }
        ensures inline { len ≤ 32 → IsOk result }
    {
        let mut bytes = RecordedBytes::with_capacity(alloc, len as usize)?;
        let (mut number, mut place) = chunk_and_place(off);
        let mut left = len as usize;
        while left > 0 {
            let run = self.run(number, place, first_run(place, left));
            bytes.extend(run)?;
            left -= run.len();
            number += 1;
            place = 0;
        }
        Ok(bytes)
    }

    /// Returns the `len` bytes that begin at `place` in the chunk with this number.
    fn run(&self, number: u64, place: usize, len: usize) -> &[u8]
        requires one_chunk { place + len ≤ 64 }
        requires fits { number * 64 + place + len ≤ length (bytes_of self.now) }
        ensures { result.now ≡ slice_range (bytes_of self.now) (number * 64 + place) (number * 64 + place + len) }
    {
        &chunk(self.chunks.as_slice(), number)[place..place + len]
    }

    /// Whether the range of `len` bytes that begins at offset `off` ends past the object's bytes.
    pub(crate) fn ends_past(&self, off: u64, len: usize) -> bool
        ensures { result ≡ ends_past (bytes_of self.now) off len }
    {
        self.len < off || self.len - off < len as u64
    }

    /// Whether a load of `len` bytes from offset `off` stays within the object and returns exactly `answered`.
    pub(crate) fn answers(&self, off: u64, len: u32, answered: &[u8]) -> bool
        ensures { result ≡ (nat_eq len (length answered.now) &&
            (not (ends_past (bytes_of self.now) off (length answered.now))
            && bytes_eq answered.now (slice_range (bytes_of self.now) off (off + length answered.now)))) }
    {
        len as usize == answered.len() && self.has(off, answered)
    }

    /// Whether the object has exactly these bytes at offset `off`. `false` if they would end past the object's bytes.
    fn has(&self, off: u64, bytes: &[u8]) -> bool
        ensures { result ≡ (not (ends_past (bytes_of self.now) off (length bytes.now))
            && bytes_eq bytes.now (slice_range (bytes_of self.now) off (off + length bytes.now))) }
    {
        if self.ends_past(off, bytes.len()) {
            return false;
        }
        let (mut number, mut place) = chunk_and_place(off);
        let mut rest = bytes;
        while !rest.is_empty() {
            let (run, more) = rest.split_at(first_run(place, rest.len()));
            if !self.has_run(number, place, run) {
                return false;
            }
            rest = more;
            number += 1;
            place = 0;
        }
        true
    }

    /// Whether the chunk with this number has exactly these bytes at `place`.
    fn has_run(&self, number: u64, place: usize, bytes: &[u8]) -> bool
        requires one_chunk { place + length bytes.now ≤ 64 }
        requires fits { number * 64 + place + length bytes.now ≤ length (bytes_of self.now) }
        ensures { result ≡ bytes_eq bytes.now
            (slice_range (bytes_of self.now) (number * 64 + place) (number * 64 + place + length bytes.now)) }
    {
        bytes == self.run(number, place, bytes.len())
    }

    /// Returns a copy in which `bytes` are stored at offset `off`.
    pub(crate) fn stored(
        &self,
        alloc: Global,
        off: u64,
        bytes: &[u8],
    ) -> Result<ObjectBytes, AllocError>
        ensures { IfOk result
            (λ next. next ≡ record { len = self.now.len; chunks = stored self.now.chunks off bytes.now }) }
    {
        let mut chunks = self.chunks.as_slice().to_vec(alloc)?;
        store_in(&mut chunks, off, bytes)?;
        Ok(ObjectBytes {
            len: self.len,
            chunks,
        })
    }

    /// Returns a copy.
    pub(crate) fn copied(&self, alloc: Global) -> Result<ObjectBytes, AllocError>
        ensures { IfOk result (λ copy. copy ≡ self.now) }
    {
        let chunks = self.chunks.as_slice().to_vec(alloc)?;
        Ok(ObjectBytes {
            len: self.len,
            chunks,
        })
    }
}

/// Stores `bytes` in the chunks at offset `off`.
fn store_in(chunks: &mut Vec<Chunk>, off: u64, bytes: &[u8]) -> Result<(), AllocError>
    ensures { OnOk result (chunks.new.items ≡ stored chunks.old.items off bytes.now) }
{
    let (mut number, mut place) = chunk_and_place(off);
    let mut rest = bytes;
    while !rest.is_empty() {
        let (run, more) = rest.split_at(first_run(place, rest.len()));
        store_run(chunks, number, place, run)?;
        rest = more;
        number += 1;
        place = 0;
    }
    Ok(())
}

/// Returns the number of the chunk that contains an offset, and the offset's place in that chunk.
fn chunk_and_place(offset: u64) -> (u64, usize)
    ensures offset { result.0 * 64 + result.1 ≡ offset }
    ensures place { result.1 < 64 }
    ensures few { result.0 < 2 ^ 58 }
{
    let chunk_bytes = CHUNK_BYTES as u64;
    (offset / chunk_bytes, (offset % chunk_bytes) as usize)
}

/// Returns how many of the `len` bytes that begin at `place` of a chunk are in that chunk.
fn first_run(place: usize, len: usize) -> usize
    requires { place < 64 }
    ensures within { result ≤ len }
    ensures one_chunk { place + result ≤ 64 }
    ensures rest { result < len → place + result ≡ 64 }
    ensures some { 0 < len → 0 < result }
{
    len.min(CHUNK_BYTES - place)
}
