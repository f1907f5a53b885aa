//! Which seat is missing.
ghost use Rattle.std.specs.Prelude.{◌≡◌, ◌↔◌, ℕ, ◌<◌, ◌≤◌, IsTrue, Some, None, true, false, length, slice_get};
ghost use Rattle.std.specs.List.{All};
ghost use Rattle.model_memory.specs.Plain.{Entry};
ghost use Rattle.model_memory.specs.Seats.{missing_seat};
ghost use Rattle.mesh_lock.specs.Seat.{numbers_of};

use crate::seat::Seat;
use mesh_mutator::Journal;
use model_memory::seat_laws::missing_seat_is_least;

/// Returns the first place below `count` whose seat is missing or doesn't have the place's number. If there is no such
/// place, returns `count` if there are more seats, or if an entry is of a worker without a seat. Otherwise returns
/// `None`.
pub fn missing(seats: &[Seat], count: u32, journal: &Journal) -> Option<u32>
    ensures missing { result ≡ missing_seat count (numbers_of seats.now) journal.now.entries }
    ensures many { result ≡ None → length seats.now ≡ count }
    ensures known { result ≡ None → All (λ entry. entry.worker < count) journal.now.entries }
{
    missing_seat_is_least();
    for w in 0..count {
        if !is_seated(seats, w) {
            return Some(w);
        }
    }
    if seats.len() > count as usize || has_stranger(journal, count) {
        return Some(count);
    }
    None
}

/// Whether there is a seat at the place, and the seat has the place's number.
fn is_seated(seats: &[Seat], place: u32) -> bool
    ensures { IsTrue result ↔ (slice_get (numbers_of seats.now) place ≡ Some place) }
{
    match seats.get(place as usize) {
        Some(seat) => seat.number() == place,
        None => false,
    }
}

/// Whether some entry is of a worker without a seat: its worker's number is `count` or greater.
fn has_stranger(journal: &Journal, count: u32) -> bool
    ensures some { result ≡ true
        → (i : ℕ) × (entry : Entry) × (slice_get journal.now.entries i ≡ Some entry) × (count ≤ entry.worker) }
    ensures none { result ≡ false → All (λ entry. entry.worker < count) journal.now.entries }
{
    for n in 0..journal.len() {
        if journal.worker(n) >= count {
            return true;
        }
    }
    false
}
