//! The walk of the journal that builds the history.
ghost use Rattle.std.specs.Prelude.{◌≡◌, ℕ, ◌^◌, ◌<◌, ◌≤◌, [], ◌∷◌, ◌++◌, IfErr, IfOk, IfSome, OnOk, length};
ghost use Rattle.std.specs.List.{All};
ghost use Rattle.model_memory.specs.Memory.{empty_memory};
ghost use Rattle.model_memory.specs.Reads.{AreRight, kept_by, recorded};
ghost use Rattle.model_memory.specs.Seats.{calls_of};
ghost use Rattle.mesh_lock.specs.Seat.{IsKept, calls_of_seats};
ghost use Rattle.mesh_lock.specs.Walk.{IsFirstLeft, IsStep, IsWalkFault, Tells, Walks};

use crate::faults::FinishError;
use crate::reads::take_all;
use crate::rest::Rest;
use crate::seat::Seat;
use mesh_mutator::{Entry, Journal};
use mesh_plain::Plain;
use model_memory::read_laws::few_are_made;
use std::alloc::{AllocError, Global};

/// Builds the history of a journal and seats, in one walk of the journal. The recorded calls of each seat must be the
/// entries of the seat's worker in the journal, and each entry's worker must have a seat. Returns ReadDiffers if a read
/// is wrong, or Memory if an allocation fails.
///
/// After a wrong read, only the seats with lower numbers are examined further, because a wrong read of such a seat is
/// reported instead.
pub fn weave(alloc: Global, seats: &[Seat], journal: &Journal) -> Result<Vec<Entry>, FinishError>
    requires few { length seats.now < 2 ^ 32 }
    requires short { length journal.now.entries ≤ 65536 }
    requires own { (w : ℕ) → w < length seats.now
        → recorded (kept_by (calls_of_seats seats.now) w) ≡ calls_of w journal.now.entries }
    requires known { All (λ entry. entry.worker < length seats.now) journal.now.entries }
    ensures walked { IfOk result
        (λ history. Walks 0 empty_memory (calls_of_seats seats.now) journal.now.entries [] history.items) }
    ensures right { OnOk result (AreRight (calls_of_seats seats.now) journal.now.entries) }
    ensures kept { OnOk result ((w : ℕ) → All IsKept (kept_by (calls_of_seats seats.now) w)) }
    ensures fault { IfErr result (IsWalkFault (calls_of_seats seats.now) journal.now.entries) }
{
    few_are_made();
    let mut plain = Plain::new(alloc);
    let mut rests = rests_of(alloc, seats)?;
    let mut history = Vec::new(alloc);
    let mut told = None;
    for n in 0..journal.len() {
        let wrong = take_all(&plain, n as u32, rests.as_mut_slice(), &mut history)?;
        tell(seats, &mut rests, wrong, &mut told);
        let next = journal.entry(n);
        let early = step(rests.as_mut_slice(), next.worker);
        tell(seats, &mut rests, early, &mut told);
        plain.apply(&next.command, &next.reply)?;
        add(&mut history, next)?;
    }
    let wrong = take_all(
        &plain,
        journal.len() as u32,
        rests.as_mut_slice(),
        &mut history,
    )?;
    tell(seats, &mut rests, wrong, &mut told);
    let late = first_left(rests.as_slice());
    tell(seats, &mut rests, late, &mut told);
    unless_told(history, told)
}

/// Appends an entry. The only error is an allocation failure.
fn add(history: &mut Vec<Entry>, entry: Entry) -> Result<(), AllocError>
    ensures { OnOk result (history.new.items ≡ history.old.items ++ entry ∷ []) }
{
    history.push(entry)?;
    Ok(())
}

/// Returns the history if no wrong read was found, and otherwise ReadDiffers with the wrong read.
fn unless_told(history: Vec<Entry>, told: Option<(u32, usize)>) -> Result<Vec<Entry>, FinishError>
    ensures ok { IfOk result (λ whole. (told ≡ None) × (whole.items ≡ history.items)) }
    ensures fault { IfErr result
        (λ error. (seat call : ℕ) × ((told ≡ Some (seat, call)) × (error ≡ FinishError.ReadDiffers seat call))) }
{
    match told {
        None => Ok(history),
        Some((seat, call)) => Err(FinishError::ReadDiffers { seat, call }),
    }
}

/// Returns, for each seat, the calls that remain before the walk: all calls of the seat. The only error is an
/// allocation failure.
fn rests_of<'a>(alloc: Global, seats: &'a [Seat]) -> Result<Vec<Rest<'a>>, AllocError>
    ensures rests { IfOk result (λ rests. rests.items ≡ calls_of_seats seats.now) }
    ensures kept { OnOk result ((w : ℕ) → All IsKept (kept_by (calls_of_seats seats.now) w)) }
{
    let mut rests = Vec::with_capacity(alloc, seats.len())?;
    for k in 0..seats.len() {
        rests.push_reserved(Rest::of(seats[k].calls()));
    }
    Ok(rests)
}

/// Removes the first call of the entry's seat, if that call isn't a read. Returns the seat if its first call is a read,
/// or if it has no call left. Changes nothing and returns `None` if `rests` has no such seat.
fn step<'a>(rests: &mut [Rest<'a>], worker: u32) -> Option<usize>
    ensures length { length rests.new ≡ length rests.old }
    ensures step { IsStep worker rests.old rests.new result }
{
    let w = worker as usize;
    if w >= rests.len() {
        return None;
    }
    let Some((kept, tail)) = rests[w].calls().split_first() else {
        return Some(w);
    };
    if kept.seen.is_some() {
        return Some(w);
    }
    rests[w] = Rest::of(tail);
    None
}

/// Returns the first seat with a call left, or `None` if no seat has one.
fn first_left<'a>(rests: &[Rest<'a>]) -> Option<usize>
    ensures { IsFirstLeft rests.now result }
{
    for w in 0..rests.len() {
        if !rests[w].calls().is_empty() {
            return Some(w);
        }
    }
    None
}

/// If `found` is a seat, stores in `told` the seat and the place of the seat's first remaining call. Then removes this
/// seat and the seats with higher numbers from `rests`.
fn tell<'a>(
    seats: &[Seat],
    rests: &mut Vec<Rest<'a>>,
    found: Option<usize>,
    told: &mut Option<(u32, usize)>,
)
    requires few { length seats.now < 2 ^ 32 }
    requires as_many { length rests.old.items ≤ length seats.now }
    requires below { IfSome found (λ w. w < length rests.old.items) }
    ensures { Tells (calls_of_seats seats.now) found rests.old.items rests.new.items told.old told.new }
{
    if let Some(w) = found {
        let call = seats[w]
            .calls()
            .len()
            .saturating_sub(rests[w].calls().len());
        *told = Some((w as u32, call));
        rests.truncate(w);
    }
}
