//! `Block`, the text of an outcome or of a reply.
ghost use Rattle.std.specs.Prelude.{◌≡◌, ◌++◌, [], IfOk, OnOk};
ghost use Rattle.model_jobs.specs.Texts.{ended};

use states_pool::{Value, with_bytes};
use std::alloc::{AllocError, Global};
use std::marker::Model;

/// The text of an outcome: for each worker that has a reply, a line with a line end. In a pattern, a block is the text
/// of one reply.
#[derive(Drop)]
pub struct Block {
    bytes: Vec<u8>,
}

impl Model for Block {
    ghost use Rattle.std.specs.Prelude.{ℕ, List};

    ghost Value = { List ℕ };

    ghost view = { λ b. b.bytes.items };
}

impl Block {
    /// Returns a block without lines. Nothing is allocated.
    pub(crate) fn new(alloc: Global) -> Block
        ensures { result ≡ [] }
    {
        Block {
            bytes: Vec::new(alloc),
        }
    }

    /// Returns the block with these bytes.
    pub(crate) fn of(bytes: Vec<u8>) -> Block
        ensures { result ≡ bytes.items }
    {
        Block { bytes }
    }

    /// Appends bytes.
    pub(crate) fn add(&mut self, bytes: &[u8]) -> Result<(), AllocError>
        ensures { OnOk result (self.new ≡ self.old ++ bytes.now) }
    {
        self.bytes.extend_from_slice(bytes)
    }

    /// Appends a line and a line end.
    pub(crate) fn add_line(&mut self, line: &[u8]) -> Result<(), AllocError>
        ensures { OnOk result (self.new ≡ self.old ++ ended line.now) }
    {
        self.bytes.extend_from_slice(line)?;
        self.bytes.push(b'\n')?;
        Ok(())
    }

    /// Returns a copy of the block.
    pub(crate) fn copied(&self) -> Result<Block, AllocError>
        ensures { IfOk result (λ copy. copy ≡ self.now) }
    {
        let bytes = self.bytes.clone()?;
        Ok(Block { bytes })
    }

    /// The bytes.
    pub fn as_slice(&self) -> &[u8]
        ensures { result.now ≡ self.now }
    {
        self.bytes.as_slice()
    }
}

impl Value for Block {
    ghost use Rattle.states_pool.specs.Words.{bytes_mixed};

    ghost print = { bytes_mixed 0 };

    fn is_same(&self, other: &Block) -> bool {
        self.bytes.as_slice() == other.bytes.as_slice()
    }

    fn fingerprint(&self) -> u64 {
        with_bytes(0, self.bytes.as_slice())
    }
}
