//! The bytes that were read from a device, and that aren't used yet.
ghost use Rattle.std.specs.Prelude.{◌≡◌, ◌-◌, ◌≤◌, [], false, drop, is_err, length, vec_len, IfErr, IfOk};
ghost use Rattle.text_devices.specs.declared.faults.ReplayError.{ReplayError};
ghost use Rattle.text_devices.specs.Pendings.{HasBytes};

use crate::{ReplayError, Source, read_some};
use std::alloc::{AllocError, Global};
use std::marker::Model;

/// The maximal number of bytes of one read.
const READ_BYTES: usize = 65_536;

/// The unused bytes of the last read.
#[derive(Drop)]
pub struct Pending {
    /// The bytes of the last read.
    buffer: Vec<u8>,
    /// The start of the unused bytes in the buffer.
    start: usize,
    /// The end of the unused bytes in the buffer.
    end: usize,
}

impl Model for Pending {
    ghost use Rattle.std.specs.Prelude.{ℕ, List, slice_range};
    ghost use Rattle.text_devices.specs.Pendings.{AreWithin};

    ghost Value = { List ℕ };

    ghost view = { λ p. slice_range p.buffer.items p.start p.end };

    ghost invariant = { λ p. AreWithin p.buffer.items p.start p.end };
}

impl Pending {
    /// Allocates the buffer for one read, without unused bytes.
    pub fn new(alloc: Global) -> Result<Pending, AllocError>
        ensures { IfOk result (λ pending. pending ≡ []) }
    {
        Ok(Pending {
            buffer: room_to_read(alloc)?,
            start: 0,
            end: 0,
        })
    }

    /// The unused bytes.
    pub fn as_slice(&self) -> &[u8]
        ensures { result.now ≡ self.now }
    {
        &self.buffer[self.start..self.end]
    }

    /// Keeps only the last `count` bytes.
    pub fn keep_last(&mut self, count: usize)
        requires { count ≤ length self.old }
        ensures { self.new ≡ drop (length self.old - count) self.old }
    {
        self.start = self.end - count;
    }

    /// Replaces the bytes by the bytes of the next read, and returns whether the read returned any. The error is `Read`
    /// if the input failed.
    pub fn read<I: Source>(&mut self, input: &mut I) -> Result<bool, ReplayError>
        requires { I.has_failed input.old ≡ false }
        ensures bytes { IfOk result (HasBytes self.new (I.remaining input.old) (I.remaining input.new)) }
        ensures fault { IfErr result (λ error. error ≡ ReplayError.Read) }
        ensures fails { I.has_failed input.new ≡ is_err result }
    {
        let count = read_some(input, &mut self.buffer)?;
        self.start = 0;
        self.end = count;
        Ok(count > 0)
    }
}

/// Allocates the buffer for one read.
fn room_to_read(alloc: Global) -> Result<Vec<u8>, AllocError>
    ensures { IfOk result (λ room. vec_len room ≡ 65536) }
{
    vec![in alloc; 0; READ_BYTES]
}
