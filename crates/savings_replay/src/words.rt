//! The words for `new` and for shuffles.
ghost use Rattle.std.specs.Prelude.{◌≡◌, IfOk, OnOk};
ghost use Rattle.rand_core.specs.Steps.{first_words};
ghost use Rattle.rand_xoshiro.specs.Xoshiro256.{plus_plus};
ghost use Rattle.savings_replay.specs.Words.{after_new_word, after_words, new_word, state_of};

use crate::settings::Words;
use rand_core::SeedableRng;
use rand_core::utils::NextWord;
use rand_xoshiro::Xoshiro256PlusPlus;
use std::alloc::{AllocError, Global};

/// Returns the generator with a seed.
pub(crate) fn seeded(seed: u64) -> Xoshiro256PlusPlus
    ensures { result ≡ state_of seed }
{
    Xoshiro256PlusPlus::seed_from_u64(seed)
}

/// Returns the next `count` words of a generator.
pub(crate) fn draw(
    alloc: Global,
    generator: &mut Xoshiro256PlusPlus,
    count: usize,
) -> Result<Vec<u64>, AllocError>
    ensures words { IfOk result (λ words. words.items ≡ first_words plus_plus count generator.old) }
    ensures after { OnOk result (generator.new ≡ after_words count generator.old) }
{
    let mut words = Vec::with_capacity(alloc, count)?;
    for _ in 0..count {
        words.push(generator.next_word())?;
    }
    Ok(words)
}

/// Returns the word for the next object: the next word of the generator, or 0 with `FirstFit`.
pub(crate) fn draw_new(words: Words, generator: &mut Xoshiro256PlusPlus) -> u64
    ensures word { result ≡ new_word words generator.old }
    ensures after { generator.new ≡ after_new_word words generator.old }
{
    match words {
        Words::Seeded(_) => generator.next_word(),
        Words::FirstFit => 0,
    }
}
