//! `Marks`, the marks of 64 places.
ghost use Rattle.std.specs.Int.{bit_at};
ghost use Rattle.std.specs.Prelude.{◌≡◌, ◌≢◌, ◌↔◌, ◌<◌, ℕ, true, false, replicate, slice_set, IsTrue};
ghost use Rattle.history_object.specs.Marks.{has_bit, is_marked, word_of};

use std::marker::Model;

/// The marks of 64 places, as the bits of a word. A contract sees them as a list of booleans.
#[derive(Drop)]
pub struct Marks {
    word: u64,
}

impl Model for Marks {
    ghost use Rattle.std.specs.Prelude.{◌<◌, ◌^◌, List, Bool};
    ghost use Rattle.history_object.specs.Marks.{marks_in};

    ghost Value = { List Bool };

    ghost view = { λ m. marks_in m.word };

    ghost invariant = { λ m. m.word < 2 ^ 64 };
}

impl Marks {
    /// Marks of no place.
    pub fn none() -> Marks
        ensures { result ≡ replicate 64 false }
    {
        Marks { word: 0 }
    }

    /// A copy of the marks.
    pub fn copied(&self) -> Marks
        ensures { result ≡ self.now }
    {
        Marks { word: self.word }
    }

    /// Whether a place is marked.
    pub fn has(&self, place: usize) -> bool
        requires { place < 64 }
        ensures { result ≡ is_marked self.now place }
    {
        has_bit(self.word, place)
    }

    /// Marks a place.
    pub fn set(&mut self, place: usize)
        requires { place < 64 }
        ensures { self.new ≡ slice_set self.old place true }
    {
        self.word = with_bit(self.word, place);
    }

    /// Removes the mark of a place.
    pub fn clear(&mut self, place: usize)
        requires { place < 64 }
        ensures { self.new ≡ slice_set self.old place false }
    {
        self.word = without_bit(self.word, place);
    }

    /// The marks as the bits of a word.
    pub fn word(&self) -> u64
        ensures { result ≡ word_of self.now }
    {
        self.word
    }

    /// Whether the same places are marked.
    pub fn are_same(&self, other: &Marks) -> bool
        ensures { IsTrue result ↔ (self.now ≡ other.now) }
    {
        self.word == other.word
    }
}

/// Whether a bit of a word is set.
fn has_bit(word: u64, i: usize) -> bool
    requires { i < 64 }
    ensures { result ≡ has_bit word i }
{
    (word >> i) & 1 == 1
}

/// Returns a word with a bit set.
fn with_bit(word: u64, i: usize) -> u64
    requires { i < 64 }
    ensures here { has_bit result i ≡ true }
    ensures others { (k : ℕ) → k < 64 → k ≢ i → bit_at result k ≡ bit_at word k }
{
    word | (1 << i)
}

/// Returns a word with a bit cleared.
fn without_bit(word: u64, i: usize) -> u64
    requires { i < 64 }
    ensures here { has_bit result i ≡ false }
    ensures others { (k : ℕ) → k < 64 → k ≢ i → bit_at result k ≡ bit_at word k }
{
    word & !(1 << i)
}
