//! The words of the shuffles.
ghost use Rattle.std.specs.Prelude.{◌≡◌, IfOk};
ghost use Rattle.run_program.specs.Words.{words_of};

use rand_core::SeedableRng;
use rand_core::utils::NextWord;
use rand_xoshiro::Xoshiro256PlusPlus;
use std::alloc::{AllocError, Global};

/// The number of words of a round of meshing.
const ROUND_WORDS: usize = 256;

/// Returns 256 words for each of this number of rounds. They are the first outputs of xoshiro256++ (Blackman and
/// Vigna), seeded by SplitMix64 from this seed.
///
/// The Rust crate `rand_xoshiro` returns the same words.
pub fn words(alloc: Global, seed: u64, rounds: u32) -> Result<Vec<u64>, AllocError>
    ensures { IfOk result (λ words. words.items ≡ words_of seed rounds) }
{
    let count = ROUND_WORDS * rounds as usize;
    let mut generator = Xoshiro256PlusPlus::seed_from_u64(seed);
    let mut words = Vec::with_capacity(alloc, count)?;
    for _ in 0..count {
        words.push(generator.next_word())?;
    }
    Ok(words)
}
