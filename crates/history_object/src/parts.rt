//! The part of a call: the pending calls that matter at its end.
ghost use Rattle.std.specs.Prelude.{◌≡◌, ◌<◌, ◌≤◌, ℕ, None, true, false, length, replicate, MatchOption};
ghost use Rattle.history_object.specs.Parts.{HasAllOf, IsPartOf};
ghost use Rattle.history_object.specs.Marks.{is_marked};
ghost use Rattle.history_object.specs.Standings.{call_at};

use crate::calls::Calls;

/// Returns the marks of a part that has the call at a place: with a call, the part has each pending call that conflicts
/// with it. No call is pending at the place `places` or behind it.
pub fn part_of<O: Calls>(pending: &[Option<O::Call>], place: usize, places: usize) -> [bool; 64]
    requires long { length pending.now ≡ 64 }
    requires within { place < 64 }
    requires few { places ≤ 64 }
    requires none { (n : ℕ) → places ≤ n → call_at pending.now n ≡ None }
    ensures { IsPartOf O.conflict pending.now place (is_marked result) }
{
    let mut inside = unmarked();
    inside[place] = true;
    let mut looked = unmarked();
    while let Some(next) = unlooked(&inside, &looked) {
        looked[next] = true;
        add_conflicting::<O>(pending, next, places, &mut inside);
    }
    inside
}

/// Returns marks of no place.
fn unmarked() -> [bool; 64]
    ensures { result ≡ replicate 64 false }
{
    [false; 64]
}

/// Returns the first place that is marked in `inside` and not in `looked`, or `None` if there is none.
fn unlooked(inside: &[bool; 64], looked: &[bool; 64]) -> Option<usize>
    ensures { MatchOption result ((n : ℕ) → is_marked inside.now n ≡ true → is_marked looked.now n ≡ true)
        (λ place. (place < 64) × (is_marked looked.now place ≡ false)) }
{
    for place in 0..64 {
        if inside[place] && !looked[place] {
            return Some(place);
        }
    }
    None
}

/// Marks the place of each pending call that conflicts with the call at `next`. No call is pending at the place
/// `places` or behind it.
fn add_conflicting<O: Calls>(
    pending: &[Option<O::Call>],
    next: usize,
    places: usize,
    inside: &mut [bool; 64],
)
    requires long { length pending.now ≡ 64 }
    requires few { places ≤ 64 }
    requires none { (n : ℕ) → places ≤ n → call_at pending.now n ≡ None }
    ensures stay { (n : ℕ) → is_marked inside.old n ≡ true → is_marked inside.new n ≡ true }
    ensures all { HasAllOf O.conflict pending.now next (is_marked inside.new) }
{
    let Some(Some(other)) = pending.get(next) else {
        return;
    };
    for place in 0..places {
        if let Some(call) = &pending[place]
            && O::conflict(call, other)
        {
            inside[place] = true;
        }
    }
}
