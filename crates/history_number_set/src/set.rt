//! `NumberSet`, a set of numbers.
ghost use Rattle.std.specs.Prelude.{◌≡◌, ◌≢◌, ◌↔◌, ◌⊎◌, ℕ, IsTrue, OnErr, OnOk, length};
ghost use Rattle.history_number_set.specs.Ranges.{AreApart, Has, last_in};

use crate::ranges::{first_with, has, join, last_with, part};
use std::alloc::{AllocError, Global};
use std::collections::BTreeMap;
use std::marker::Model;

/// A set of numbers, kept as ranges. No two ranges touch.
///
/// The set's memory depends on the number of ranges, not on the number of elements.
#[derive(Drop)]
pub struct NumberSet {
    // The last number of each range, by the range's first number.
    ranges: BTreeMap<u32, u32>,
}

impl Model for NumberSet {
    ghost use Rattle.std.specs.Prelude.{ℕ, List};
    ghost use Rattle.history_number_set.specs.Ranges.{AreApart, last_in};

    ghost Value = { List (ℕ × ℕ) };

    ghost view = { λ s. s.ranges.entries };

    ghost invariant = { λ s. AreApart (last_in s.ranges.entries) };
}

impl NumberSet {
    /// Returns an empty set. It allocates nothing.
    pub fn new(alloc: Global) -> NumberSet
        ensures { (n : ℕ) → Has result n → ⊥ }
    {
        NumberSet {
            ranges: BTreeMap::new(alloc),
        }
    }

    /// Whether a number is in the set.
    pub fn contains(&self, number: u32) -> bool
        ensures { IsTrue result ↔ Has self.now number }
    {
        has(&self.ranges, number)
    }

    /// Returns the number of ranges. No two ranges touch, so no smaller number of ranges has the same elements.
    pub fn ranges(&self) -> usize
        ensures many { result ≡ length self.now }
        ensures apart { AreApart (last_in self.now) }
    {
        self.ranges.len()
    }

    /// Adds a number that isn't in the set. If an allocation fails, returns an error and leaves the set unchanged.
    pub fn add(&mut self, number: u32) -> Result<(), AllocError>
        requires { Has self.old number → ⊥ }
        ensures added { OnOk result ((n : ℕ) → Has self.new n ↔ ((n ≡ number) ⊎ Has self.old n)) }
        ensures unchanged { OnErr result ((n : ℕ) → Has self.new n ↔ Has self.old n) }
    {
        let first = first_with(&self.ranges, number);
        let last = last_with(&self.ranges, number);
        join(&mut self.ranges, number, first, last)
    }

    /// Removes a number that is in the set. If an allocation fails, returns an error and leaves the set unchanged. An
    /// allocation is made only if the number just after is in the set too.
    pub fn remove(&mut self, number: u32) -> Result<(), AllocError>
        requires { Has self.old number }
        ensures removed { OnOk result ((n : ℕ) → Has self.new n ↔ (Has self.old n × (n ≢ number))) }
        ensures unchanged { OnErr result ((n : ℕ) → Has self.new n ↔ Has self.old n) }
    {
        part(&mut self.ranges, number)
    }
}
