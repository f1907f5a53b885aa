//! `Bits`, a set of numbers below a width.
ghost use Rattle.std.specs.Prelude.{◌≡◌, ◌<◌, ◌≤◌, ◌+◌, ◌%◌, ◌||◌, ◌↔◌, ◌⊎◌, true, false, length, replicate, slice_index, slice_set, take, IsTrue, IfSome, IfNone, ℕ, ◌^◌};
ghost use Rattle.std.specs.Int.{bit_at};
ghost use Rattle.std.specs.Int.Bits.{bit_and, bit_or};
ghost use Rattle.std.specs.Simd.Lanes.{fold_l, zip2};
ghost use Rattle.mesh_bits.specs.Bits.{is_member, member_count, clear_count, are_meshable, AreApart, union_of, has, low_ones, members, ones_of, PutsBit, HaveNoBitInBoth, HasBitsOfEither};

use std::marker::Model;
use std::simd::prelude::*;

/// The number of bits of a word.
const WORD_BITS: u32 = 64;

/// The number of words of a set.
const WORDS: usize = 4;

/// A set of numbers below a width of 1 to 256.
#[derive(Drop)]
pub struct Bits {
    // Number `i` is in the set if bit `i % 64` of word `i / 64` is set. No bit at the width or above is set.
    words: [u64; WORDS],
    width: u32,
}

impl Model for Bits {
    ghost use Rattle.std.specs.Prelude.{List, Bool};
    ghost use Rattle.mesh_bits.specs.Bits.{members, IsBitmap};

    ghost Value = { List Bool };

    ghost view = { λ b. members b.words b.width };

    ghost invariant = { λ b. IsBitmap b.words b.width };
}

impl Bits {
    /// The empty set below `width`.
    pub fn new(width: u32) -> Bits
        requires some { 1 ≤ width }
        requires most { width ≤ 256 }
        ensures { result ≡ replicate width false }
    {
        Bits {
            words: [0; WORDS],
            width,
        }
    }

    /// A copy of the set.
    pub fn copied(&self) -> Bits
        ensures { result ≡ self.now }
    {
        Bits {
            words: self.words,
            width: self.width,
        }
    }

    /// The width, 1 to 256.
    pub fn width(&self) -> u32
        ensures value { result ≡ length self.now }
        ensures some { 1 ≤ result }
        ensures most { result ≤ 256 }
    {
        self.width
    }

    /// Whether `i` is in the set.
    #[tactic(auto, using(crate::proofs::BitsLemmas::bit_read))]
    pub fn get(&self, i: u32) -> bool
        requires { i < length self.now }
        ensures { result ≡ is_member self.now i }
    {
        has_bit(&self.words, i)
    }

    /// Adds `i` to the set.
    #[tactic(auto, using(crate::proofs::BitsLemmas::bit_put))]
    pub fn set(&mut self, i: u32)
        requires { i < length self.old }
        ensures { self.new ≡ slice_set self.old i true }
    {
        set_bit(&mut self.words, i);
    }

    /// Removes `i` from the set.
    #[tactic(auto, using(crate::proofs::BitsLemmas::bit_put))]
    pub fn clear(&mut self, i: u32)
        requires { i < length self.old }
        ensures { self.new ≡ slice_set self.old i false }
    {
        clear_bit(&mut self.words, i);
    }

    /// Returns the number that has index `place`, from 0, among the numbers that are not in the set, ascending. Returns
    /// `None` if at most `place` numbers below the width are not in the set.
    pub fn nth_clear(&self, place: u32) -> Option<u32>
        ensures clear { IfSome result (λ i. (i < length self.now) × (is_member self.now i ≡ false)) }
        ensures place { IfSome result (λ i. clear_count (take i self.now) ≡ place) }
        ensures none { IfNone result (clear_count self.now ≤ place) }
    {
        nth_clear_bit(&self.words, self.width, place)
    }

    /// Returns the number of elements of the set.
    pub fn count(&self) -> u32
        ensures { result ≡ member_count self.now }
    {
        count_bits(&self.words)
    }

    /// Whether no number is in both sets. The sets must have the same width.
    pub fn disjoint(&self, other: &Bits) -> bool
        requires { length self.now ≡ length other.now }
        ensures meshable { result ≡ are_meshable self.now other.now }
        ensures apart { IsTrue result ↔ AreApart self.now other.now }
    {
        share_no_bit(&self.words, &other.words)
    }

    /// Returns the set of the numbers that are in at least one of the two sets. The sets must have the same width.
    pub fn union(&self, other: &Bits) -> Bits
        requires { length self.now ≡ length other.now }
        ensures union { result ≡ union_of self.now other.now }
        ensures length { length result ≡ length self.now }
        ensures members { (i : ℕ)
            → is_member result i ≡ (is_member self.now i || is_member other.now i) }
    {
        Bits {
            words: either_bits(&self.words, &other.words),
            width: self.width,
        }
    }
}

/// Whether the words have bit `i`.
fn has_bit(words: &[u64; WORDS], i: u32) -> bool
    requires { i < 256 }
    ensures { result ≡ has words.now i }
{
    (words[(i / WORD_BITS) as usize] >> (i % WORD_BITS)) & 1 == 1
}

/// Sets bit `i` of the words.
fn set_bit(words: &mut [u64; WORDS], i: u32)
    requires { i < 256 }
    ensures { PutsBit words.old words.new i true }
{
    let at = (i / WORD_BITS) as usize;
    words[at] |= 1 << (i % WORD_BITS);
}

/// Clears bit `i` of the words.
fn clear_bit(words: &mut [u64; WORDS], i: u32)
    requires { i < 256 }
    ensures { PutsBit words.old words.new i false }
{
    let at = (i / WORD_BITS) as usize;
    words[at] &= !(1 << (i % WORD_BITS));
}

/// Returns the number of the clear bit that has index `place`, from 0, among the clear bits below the width. Returns
/// `None` if at most `place` bits below the width are clear.
fn nth_clear_bit(words: &[u64; WORDS], width: u32, place: u32) -> Option<u32>
    requires { width ≤ 256 }
    ensures clear { IfSome result (λ i. (i < width) × (has words.now i ≡ false)) }
    ensures place { IfSome result (λ i. clear_count (members words.now i) ≡ place) }
    ensures none { IfNone result (clear_count (members words.now width) ≤ place) }
{
    let (first, left) = skip_words(words, width, place);
    let i = first + nth_one(!words[(first / WORD_BITS) as usize], left)?;
    if i < width { Some(i) } else { None }
}

/// Finds the word that contains the clear bit at index `place`, if that bit is below the width. Returns the number of
/// the word's first bit, and the index of the clear bit among the clear bits of that word. Earlier words are skipped by
/// their counts of clear bits.
fn skip_words(words: &[u64; WORDS], width: u32, place: u32) -> (u32, u32)
    requires { width ≤ 256 }
    ensures word { result.0 % 64 ≡ 0 }
    ensures within { result.0 ≤ 192 }
    ensures place { result.1 + clear_count (members words.now result.0) ≡ place }
    ensures last { (width ≤ result.0 + 64) ⊎ (place < clear_count (members words.now (result.0 + 64))) }
{
    let mut first = 0;
    let mut left = place;
    while first + WORD_BITS < width {
        let clear = WORD_BITS - words[(first / WORD_BITS) as usize].count_ones();
        if left < clear {
            break;
        }
        left -= clear;
        first += WORD_BITS;
    }
    (first, left)
}

/// Returns the number of the bit that has index `place`, from 0, among the set bits of a word, ascending. Returns
/// `None` if at most `place` bits are set.
fn nth_one(word: u64, place: u32) -> Option<u32>
    ensures one { IfSome result (λ k. (k < 64) × (bit_at word k ≡ 1)) }
    ensures place { IfSome result (λ k. low_ones k word ≡ place) }
    ensures none { IfNone result (low_ones 64 word ≤ place) }
{
    let mut rest = word;
    for _gone in 0..place {
        if rest == 0 {
            return None;
        }
        rest &= rest - 1;
    }
    if rest == 0 {
        return None;
    }
    Some(rest.trailing_zeros())
}

/// Returns the number of bits that are set in the words.
fn count_bits(words: &[u64; WORDS]) -> u32
    ensures count { result ≡ ones_of words.now }
    ensures words { (j : ℕ) → slice_index words.now j < 2 ^ 64 }
{
    let [a, b, c, d] = *words;
    a.count_ones() + b.count_ones() + c.count_ones() + d.count_ones()
}

/// Whether no bit is set in both lists of words. For most pairs that share a bit, the first words decide. The other
/// pairs are compared in all four lanes at once.
fn share_no_bit(words: &[u64; WORDS], others: &[u64; WORDS]) -> bool
    ensures { IsTrue result ↔ HaveNoBitInBoth words.now others.now }
{
    words[0] & others[0] == 0 && any_lane(both_lanes(*words, *others)) == 0
}

/// Returns, for each lane, the bits that are set in both words of that lane.
fn both_lanes(words: [u64; WORDS], others: [u64; WORDS]) -> [u64; WORDS]
    ensures both { result ≡ zip2 bit_and words others }
    ensures words { (j : ℕ) → slice_index words j < 2 ^ 64 }
    ensures many { length words ≡ 4 }
    ensures as_many { length others ≡ 4 }
{
    (u64x4::from_array(words) & u64x4::from_array(others)).to_array()
}

/// Returns the bits that are set in at least one lane.
fn any_lane(lanes: [u64; WORDS]) -> u64
    ensures { result ≡ fold_l bit_or 0 lanes }
{
    u64x4::from_array(lanes).reduce_or()
}

/// Returns, for each place, the bits that are set in at least one of the two words at that place.
fn either_bits(words: &[u64; WORDS], others: &[u64; WORDS]) -> [u64; WORDS]
    ensures { HasBitsOfEither words.now others.now result }
{
    let [a, b, c, d] = *words;
    let [e, f, g, h] = *others;
    [a | e, b | f, c | g, d | h]
}
