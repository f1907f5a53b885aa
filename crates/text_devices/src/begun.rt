//! The beginning of a line whose end hasn't been read yet.
ghost use Rattle.std.specs.Prelude.{◌≡◌, ◌-◌, ◌≤◌, ◌++◌, ◌↔◌, [], length, IsTrue, OnOk};
ghost use Rattle.text_fields.specs.KeptLines.{IsUnended};

use std::alloc::{AllocError, Global};
use text_fields::lines::MAX_RECORDED_BYTES;

/// At most 16,384 bytes of a line of a history, without its line end.
#[derive(Drop)]
pub struct BegunLine {
    bytes: Vec<u8>,
    ghost short: { length bytes.items ≤ 16384 },
    ghost unended: { IsUnended bytes.items },
}

impl BegunLine {
    /// Returns an empty line. The call allocates nothing.
    pub fn new(alloc: Global) -> BegunLine
        ensures { result.bytes.items ≡ [] }
    {
        BegunLine {
            bytes: Vec::new(alloc),
        }
    }

    /// Whether the line is empty so far.
    pub fn is_empty(&self) -> bool
        ensures { IsTrue result ↔ self.now.bytes.items ≡ [] }
    {
        self.bytes.is_empty()
    }

    /// The bytes so far.
    pub fn as_slice(&self) -> &[u8]
        ensures { result.now ≡ self.now.bytes.items }
    {
        self.bytes.as_slice()
    }

    /// Returns how many more bytes the line may have. The maximum of a line is 16,384 bytes.
    pub fn room(&self) -> usize
        ensures { result ≡ 16384 - length self.now.bytes.items }
    {
        MAX_RECORDED_BYTES - self.bytes.len()
    }

    /// Adds bytes to the line, which must have room for them.
    pub fn add(&mut self, bytes: &[u8]) -> Result<(), AllocError>
        requires room { length bytes.now ≤ 16384 - length self.old.bytes.items }
        requires unended { IsUnended bytes.now }
        ensures { OnOk result (self.new.bytes.items ≡ self.old.bytes.items ++ bytes.now) }
    {
        self.bytes.extend_from_slice(bytes)
    }

    /// Empties the line.
    pub fn clear(&mut self)
        ensures { self.new.bytes.items ≡ [] }
    {
        self.bytes.clear();
    }
}
