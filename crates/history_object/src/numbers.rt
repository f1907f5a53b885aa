//! The number of the pending call at each place.
ghost use Rattle.std.specs.Prelude.{◌≡◌, ◌↔◌, ℕ, Some, IsTrue, MatchOption, slice_get};
ghost use Rattle.history_object.specs.Placed.{none_taken};

/// Returns 64 places without numbers.
pub fn no_numbers() -> [Option<u32>; 64]
    ensures { result ≡ none_taken }
{
    [None; 64]
}

/// Returns the first place that has this number. Returns `None` if no place has the number.
pub fn place_of(numbers: &[Option<u32>; 64], number: u32) -> Option<usize>
    ensures { MatchOption result ((place : ℕ) → slice_get numbers.now place ≡ Some (Some number) → ⊥)
        (λ place. slice_get numbers.now place ≡ Some (Some number)) }
{
    for (place, there) in numbers.iter().enumerate() {
        if let Some(one) = there
            && *one == number
        {
            return Some(place);
        }
    }
    None
}
