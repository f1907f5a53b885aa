//! `Bin`, a set of numbers below 65,536.
ghost use Rattle.std.specs.Prelude.{◌≡◌, ℕ, ◌<◌, ◌≤◌, true, false, length, IfOk, IfNone};
ghost use Rattle.std.specs.FinSet as set;
ghost use Rattle.mesh_bins.specs.Words.{IsLeast, has, IsMarked};

use crate::words::{
    WORD_BITS, clear_bit, has_bit, is_zero, least_in, least_marked, mark, set_bit, unmark,
};
use std::alloc::{AllocError, Global};
use std::marker::Model;

/// The number of words of a set.
const WORDS: usize = 1024;

/// The number of words of the summary.
const SUMMARY: usize = 16;

/// A set of numbers below 65,536.
#[derive(Drop)]
pub struct Bin {
    // Number `n` is in the set if bit `n % 64` of word `n / 64` is set.
    words: Vec<u64>,
    // Bit `j % 64` of word `j / 64` is set if word `j` of the set isn't zero.
    summary: [u64; SUMMARY],
    // Bit `j` is set if word `j` of the summary isn't zero.
    top: [u64; 1],
}

impl Model for Bin {
    ghost use Rattle.std.specs.Ordering.{nat_cmp};
    ghost use Rattle.std.specs.FinSet as set;
    ghost use Rattle.std.specs.Coded.{coded_ℕ};

    ghost Value = { set.FinSet nat_cmp };

    ghost coded = { set.code coded_ℕ };

    ghost use Rattle.mesh_bins.specs.Words.{set_of, IsBin};

    ghost view = { λ b. set_of b.words.items };

    ghost invariant = { λ b. IsBin b.words.items b.summary b.top };
}

impl Bin {
    /// Creates an empty set. Allocates all the memory that the set will ever use. The only error is an allocation
    /// failure.
    pub fn new(alloc: Global) -> Result<Bin, AllocError>
        ensures { IfOk result (λ bin. bin ≡ set.empty) }
    {
        let words = vec![in alloc; 0; WORDS]?;
        Ok(Bin {
            words,
            summary: [0; SUMMARY],
            top: [0],
        })
    }

    /// Adds a number to the set.
    pub fn insert(&mut self, n: u32)
        requires { n < 65536 }
        ensures { self.new ≡ set.insert self.old n }
    {
        set_bit(self.words.as_mut_slice(), n);
        mark(&mut self.summary, &mut self.top, n / WORD_BITS);
    }

    /// Removes a number from the set.
    pub fn remove(&mut self, n: u32)
        requires { n < 65536 }
        ensures { self.new ≡ set.remove self.old n }
    {
        clear_bit(self.words.as_mut_slice(), n);
        if is_zero(self.words.as_slice(), n / WORD_BITS) {
            unmark(&mut self.summary, &mut self.top, n / WORD_BITS);
        }
    }

    /// Whether a number is in the set.
    pub fn has(&self, n: u32) -> bool
        requires { n < 65536 }
        ensures { result ≡ set.contains self.now n }
    {
        has_bit(self.words.as_slice(), n)
    }

    /// Returns the least element of the set that is at or above `from`. Returns `None` if and only if the set has no
    /// such element.
    pub fn least(&self, from: u32) -> Option<u32>
        ensures { IsLeast (set.contains self.now) from 65536 result }
    {
        let place = from / WORD_BITS;
        let word = *self.words.get(place as usize)?;
        if let Some(bit) = least_in(word, from % WORD_BITS) {
            return Some(place * WORD_BITS + bit);
        }
        let next = least_marked(&self.summary, &self.top, place + 1)?;
        let bit = least_in(self.words[next as usize], 0)?;
        Some(next * WORD_BITS + bit)
    }
}
