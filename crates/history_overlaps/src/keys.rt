//! Sorts the calls by their points.
ghost use Rattle.std.specs.Prelude.{◌≡◌, ◌<◌, ◌^◌, IfOk, Some, length, map, slice_get};
ghost use Rattle.std.specs.List.{All, range_with_len};
ghost use Rattle.std.specs.List.Sorted.{IsPermutation};
ghost use Rattle.text_fields.specs.Commands.{plain_command};
ghost use Rattle.history_reading.specs.CallWords.{plain_call};
ghost use Rattle.history_overlaps.specs.Keys.{IsKeyOf, rank_at};
ghost use Rattle.history_overlaps.specs.Orders.{calls_in_order};
ghost use Rattle.history_overlaps.specs.Points.{AreSortedByPoints};
ghost use Rattle.history_overlaps.specs.declared.points.Point.{Point};

use crate::points::Point;
use history_reading::{SpeltCommand, TimedCall};
use std::alloc::{AllocError, Global};

/// The order of calls at one moment. A `free` comes before a `new`, so that a range is freed before it is used again.
#[derive(Clone, Copy, PartialEq, Eq, PartialOrd, Ord)]
pub enum Rank {
    /// A `free`.
    Free,
    /// An access of an object.
    Access,
    /// A `new`.
    New,
}

/// The sort key of a call. The keys of two calls differ.
#[derive(Clone, Copy, PartialEq, Eq, PartialOrd, Ord)]
pub struct Key {
    /// The moment of the call's effect.
    pub moment: u128,
    /// The rank among the calls at one moment.
    pub rank: Rank,
    /// The place of an access in the order of its object's accesses.
    pub place: u64,
    /// The number of the call.
    pub number: u32,
}

/// Returns the numbers of the calls, sorted by their points.
pub fn order_by(
    alloc: Global,
    calls: &[TimedCall],
    points: &[Point],
) -> Result<Vec<u32>, AllocError>
    requires { length calls.now < 2 ^ 32 }
    ensures each { IfOk result (λ order. IsPermutation (range_with_len 0 (length calls.now)) order.items) }
    ensures keyed { IfOk result
        (λ order. AreSortedByPoints (map plain_call calls.now) points.now (calls_in_order calls.now order.items)) }
{
    let mut keys = keys_of(alloc, calls, points)?;
    keys.sort_unstable();
    numbers_of(alloc, keys.as_slice())
}

/// Returns the keys of the calls, in the order of the calls' numbers.
fn keys_of(alloc: Global, calls: &[TimedCall], points: &[Point]) -> Result<Vec<Key>, AllocError>
    requires { length calls.now < 2 ^ 32 }
    ensures numbers { IfOk result (λ keys. map (λ key. key.number) keys.items ≡ range_with_len 0 (length calls.now)) }
    ensures own { IfOk result (λ keys. All (IsKeyOf (map plain_call calls.now) points.now) keys.items) }
{
    let mut keys = Vec::new(alloc);
    for (number, call) in calls.iter().enumerate() {
        keys.push(key_of(number as u32, call, points))?;
    }
    Ok(keys)
}

/// The key of a call, from its point.
fn key_of(number: u32, call: &TimedCall, points: &[Point]) -> Key
    ensures number { result.number ≡ number }
    ensures ranked { result.rank ≡ rank_at (plain_command call.now.entry.command) }
    ensures pointed { (point : Point) → slice_get points.now number ≡ Some point
        → (result.moment ≡ point.moment) × (result.place ≡ point.place) }
{
    let (moment, place) = match points.get(number as usize) {
        Some(point) => (point.moment, point.place),
        None => (u128::from(call.begin), 0),
    };
    Key {
        moment,
        rank: rank_of(&call.entry.command),
        place,
        number,
    }
}

/// The rank of a command.
fn rank_of(command: &SpeltCommand) -> Rank
    ensures { result ≡ rank_at (plain_command command.now) }
{
    match command {
        SpeltCommand::Free(_) => Rank::Free,
        SpeltCommand::New(_, _, _) => Rank::New,
        _ => Rank::Access,
    }
}

/// The numbers of the calls with these keys.
fn numbers_of(alloc: Global, keys: &[Key]) -> Result<Vec<u32>, AllocError>
    ensures { IfOk result (λ numbers. numbers.items ≡ map (λ key. key.number) keys.now) }
{
    keys.iter().map(|key| key.number).collect(alloc)
}
