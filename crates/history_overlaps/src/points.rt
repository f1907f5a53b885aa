//! The moments at which calls have their effects.
ghost use Rattle.std.specs.Prelude.{◌≡◌, ◌≢◌, ◌<◌, ◌^◌, ℕ, List, map, length, slice_get, true, false, IfErr, IfOk, IfSome, IsNone, OnOk};
ghost use Rattle.std.specs.Ordering.{nat_cmp};
ghost use Rattle.std.specs.BTreeMap.{get};
ghost use Rattle.std.specs.List.{All, AllPairs};
ghost use Rattle.history_object.specs.Orders.{IsIn};
ghost use Rattle.model_intervals.specs.Intervals.{IsLinearizable};
ghost use Rattle.model_intervals.specs.OverlappingCalls.{IsHistory};
ghost use Rattle.text_fields.specs.Commands.{plain_command};
ghost use Rattle.history_reading.specs.CallWords.{IsReadCall, plain_call};
ghost use Rattle.history_overlaps.specs.Followed.{IsStopped, IsStoppedBy};
ghost use Rattle.history_overlaps.specs.OwnOrders.{AreGrouped, BeginInOrder};
ghost use Rattle.history_overlaps.specs.Points.{AreOwnPoints, ArePlacedFrom, HasNoOrder, HasPlaced, HavePoints, own_moment};

use crate::accesses::{accesses_by_cell, made_by};
use crate::own_orders::order_of;
use history_object::JudgeFault;
use history_reading::{SpeltCommand, TimedCall};
use std::alloc::{AllocError, Global};
use std::collections::BTreeMap;

/// The moment of a call's effect, and its place among the accesses of its object.
#[derive(Clone, Copy)]
pub struct Point {
    /// The moment.
    pub moment: u128,
    /// The place of an access in the order of its object's accesses.
    pub place: u64,
}

/// Returns the point of each call, or `None` if no order explains the accesses to some object.
///
/// A `new` has its effect at its end, and any other call at its start. But an access never has its effect earlier than
/// the accesses that precede it in the order of its object.
///
/// The error is `TooMany` if more than `most` configurations of an object are met at the end of an access,
/// `TooManyPending` if more than 64 accesses to an object are pending, and `Memory` if an allocation fails.
pub fn points_of(
    alloc: Global,
    calls: &[TimedCall],
    most: usize,
) -> Result<Option<Vec<Point>>, JudgeFault>
    requires read { All IsReadCall calls.now }
    requires in_order { BeginInOrder (map plain_call calls.now) }
    requires few { length calls.now < 2 ^ 32 }
    ensures points { IfOk result
        (λ found. IfSome found
        (λ points. IsHistory (map plain_call calls.now) → HavePoints (map plain_call calls.now) points.items)) }
    ensures none { IfOk result
        (λ found. IsNone found
        → IsHistory (map plain_call calls.now) → IsLinearizable (map plain_call calls.now) → ⊥) }
    ensures stopped { IfErr result (IsStopped (map plain_call calls.now) most) }
{
    let accesses = accesses_by_cell(alloc, calls)?;
    let mut points = own_points(alloc, calls)?;
    for call in calls {
        if !place_object(alloc, calls, call, &accesses, &mut points, most)? {
            return Ok(None);
        }
    }
    Ok(Some(points))
}

/// If a call made an object, sets the points of the accesses to the object, and returns whether some order explains
/// these accesses. Returns `true` for any other call. The errors are those of `points_of`.
fn place_object(
    alloc: Global,
    calls: &[TimedCall],
    call: &TimedCall,
    accesses: &BTreeMap<u32, Vec<u32>>,
    points: &mut Vec<Point>,
    most: usize,
) -> Result<bool, JudgeFault>
    requires read { All IsReadCall calls.now }
    requires in_order { BeginInOrder (map plain_call calls.now) }
    requires few { length calls.now < 2 ^ 32 }
    requires grouped { AreGrouped (map plain_call calls.now) (get nat_cmp accesses.now) }
    requires many { length points.old.items ≡ length calls.now }
    ensures many { OnOk result (length points.new.items ≡ length points.old.items) }
    ensures placed { IfOk result
        (λ placed. placed ≡ true
        → HasPlaced (map plain_call calls.now) points.old.items points.new.items (plain_call call.now)) }
    ensures none { IfOk result
        (λ placed. placed ≡ false → HasNoOrder (map plain_call calls.now) (plain_call call.now)) }
    ensures stopped { IfErr result (IsStoppedBy (map plain_call calls.now) (plain_call call.now) most) }
{
    let Some(made) = made_by(&call.entry) else {
        return Ok(true);
    };
    let numbers = match accesses.get(&made.cell) {
        Some(numbers) => numbers.as_slice(),
        None => &[],
    };
    let Some(order) = order_of(alloc, calls, made, numbers, most)? else {
        return Ok(false);
    };
    place_accesses(calls, order.as_slice(), points);
    Ok(true)
}

/// Returns the point of each call, without regard to the other calls.
fn own_points(alloc: Global, calls: &[TimedCall]) -> Result<Vec<Point>, AllocError>
    ensures { IfOk result (λ points. AreOwnPoints (map plain_call calls.now) points.items) }
{
    let mut points = Vec::new(alloc);
    for call in calls {
        points.push(own_point(call))?;
    }
    Ok(points)
}

/// Returns the point of a call, without regard to the other calls: the end of a `new`, and the start of any other call.
fn own_point(call: &TimedCall) -> Point
    ensures { result.moment ≡ own_moment (plain_command call.now.entry.command) call.now.begin call.now.end }
{
    let moment = match &call.entry.command {
        SpeltCommand::New(_, _, _) => call.end,
        _ => u128::from(call.begin),
    };
    Point { moment, place: 0 }
}

/// Sets the points of an object's accesses so that they follow `order`.
fn place_accesses(calls: &[TimedCall], order: &[u32], points: &mut Vec<Point>)
    requires numbers { All (λ number. number < length calls.now) order.now }
    requires once { AllPairs (λ front back. front ≢ back) order.now }
    requires many { length points.old.items ≡ length calls.now }
    ensures many { length points.new.items ≡ length points.old.items }
    ensures placed { ArePlacedFrom (map plain_call calls.now) points.new.items 0 0 order.now }
    ensures others { (i : ℕ) → (IsIn i order.now → ⊥) → slice_get points.new.items i ≡ slice_get points.old.items i }
{
    let mut moment = 0;
    for (place, number) in order.iter().enumerate() {
        let number = *number as usize;
        moment = u128::from(calls[number].begin).max(moment);
        points[number] = Point {
            moment,
            place: place as u64,
        };
    }
}
