//! A pool of values that all share one fingerprint.
use states_pool::{Pool, Value};
use std::alloc::{AllocError, Global};

/// A value type whose values all have the same fingerprint.
#[derive(Drop)]
struct Alike {
    word: u32,
}

impl Value for Alike {
    ghost print = { λ _. 7 };

    fn is_same(&self, other: &Alike) -> bool {
        self.word == other.word
    }

    fn fingerprint(&self) -> u64 {
        7
    }
}

/// Returns the numbers that a pool gives to some values, one after another. The only error is an allocation failure.
fn numbers(alloc: Global, words: &[u32]) -> Result<Vec<u32>, AllocError> {
    let mut pool = Pool::new(alloc);
    let mut numbers = Vec::new(alloc);
    for word in words {
        numbers.push(pool.number_of(Alike { word: *word })?)?;
    }
    Ok(numbers)
}

#[test]
fn values_of_one_fingerprint_have_their_own_numbers(rt: HostRuntime) {
    let numbers = numbers(rt.alloc(), &[9, 8, 9, 7, 8]).expect(&rt, "memory");
    assert!(rt; numbers.as_slice() == [0, 1, 0, 2, 1].as_slice());
}
