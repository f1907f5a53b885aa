//! Compares a seat's recorded calls with the entries of the seat's worker, and allocates nothing.
ghost use Rattle.std.specs.Prelude.{◌≡◌, ◌↔◌, ℕ, ◌^◌, ◌<◌, ◌≤◌, ◌∷◌, IsTrue, IfSome, None, length};
ghost use Rattle.std.specs.List.{All};
ghost use Rattle.model_memory.specs.Reads.{call_of, kept_by, recorded};
ghost use Rattle.model_memory.specs.Seats.{AreSettled, DifferFirstAt, SeatDiffers, calls_of};
ghost use Rattle.mesh_lock.specs.Seat.{calls_of_seats};
ghost use Rattle.mesh_lock.specs.Settle.{recorded_of};
ghost use Rattle.mesh_lock.specs.RecordedCalls.{IsRecordedFirst};

use crate::kept::Kept;
use crate::seat::Seat;
use mesh_mutator::{Entry, Journal};

/// Returns the first seat whose recorded calls differ from its worker's entries, and the first place at which the two
/// lists differ. `None` if no seat differs.
///
/// The function reads the journal once per seat. With 64 seats and a journal of 65,536 entries, it reads some 4 million
/// entries.
pub fn differing(seats: &[Seat], journal: &Journal) -> Option<(u32, usize)>
    requires few { length seats.now < 2 ^ 32 }
    ensures settled { result ≡ None → AreSettled (length seats.now) (recorded_of seats.now) journal.now.entries }
    ensures differs { IfSome result
        (λ found. (found.0 < length seats.now)
        × SeatDiffers (recorded_of seats.now) journal.now.entries found.0 found.1) }
{
    for w in 0..seats.len() {
        let worker = w as u32;
        if let Some(place) = first_difference(seats[w].calls(), journal, worker) {
            return Some((worker, place));
        }
    }
    None
}

/// Returns the first place at which a seat's recorded calls differ from a worker's entries. `None` if the two lists are
/// the same.
fn first_difference(calls: &[Kept], journal: &Journal, worker: u32) -> Option<usize>
    ensures same { result ≡ None → recorded calls.now ≡ calls_of worker journal.now.entries }
    ensures differs { IfSome result
        (λ place. DifferFirstAt (recorded calls.now) (calls_of worker journal.now.entries) place) }
{
    let mut rest = skip_reads(calls);
    let mut place = 0;
    for n in 0..journal.len() {
        if journal.worker(n) == worker {
            let Some((kept, tail)) = rest.split_first() else {
                return Some(place);
            };
            if !is_of(kept, &journal.entry(n)) {
                return Some(place);
            }
            rest = skip_reads(tail);
            place += 1;
        }
    }
    if rest.is_empty() { None } else { Some(place) }
}

/// Returns the calls without the reads before the first recorded call.
fn skip_reads(calls: &[Kept]) -> &[Kept]
    ensures { IsRecordedFirst calls.now result.now }
{
    let mut rest = calls;
    while let Some((kept, tail)) = rest.split_first() {
        if kept.seen.is_none() {
            return rest;
        }
        rest = tail;
    }
    rest
}

/// Whether the entry has the call's command and reply.
fn is_of(kept: &Kept, entry: &Entry) -> bool
    ensures { IsTrue result ↔ (call_of kept.now ≡ record { command = entry.now.command; reply = entry.now.reply }) }
{
    kept.command == entry.command && kept.reply == entry.reply
}
