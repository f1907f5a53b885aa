//! An order of effects of the accesses to one object.
ghost use Rattle.std.specs.Prelude.{◌≡◌, ◌≤◌, ℕ, List, map, true, false, IfErr, IfOk, IfSome, IsNone};
ghost use Rattle.std.specs.List.{All};
ghost use Rattle.model_intervals.specs.Intervals.{Call};
ghost use Rattle.model_intervals.specs.Objects.{ExplainsAccesses};
ghost use Rattle.history_reading.specs.CallWords.{IsReadCall, plain_call};
ghost use Rattle.history_object.specs.declared.access.Access.{Access};
ghost use Rattle.history_object.specs.TimedCalls.{Timed};
ghost use Rattle.history_overlaps.specs.Followed.{AreOf, AreOpenFrom, HasStoppedAt, IsFirstOf, IsRefutedAt, IsStoppedFor, IsUpTo, end_of, sooner};
ghost use Rattle.history_overlaps.specs.OwnOrders.{BeginInOrder, IsOwnOrder, numbers_of};

use crate::accesses::Made;
use crate::begins::access_of;
use history_object::{JudgeFault, ObjectAccesses, ObjectBytes, OrderedJudge};
use history_reading::TimedCall;
use std::alloc::Global;

/// A moment after the end of every call, pending ones among them: 2^64 + 1.
const LAST_MOMENT: u128 = 18_446_744_073_709_551_617;

/// Returns an order of effects that explains the accesses to an object, as the numbers of the calls. Returns `None` if
/// no order does. `numbers` has the numbers of the accesses, in ascending order.
///
/// The error is `TooMany` if more than `most` configurations are met at the end of an access, `TooManyPending` if more
/// than 64 accesses are pending, and `Memory` if an allocation fails.
pub fn order_of(
    alloc: Global,
    calls: &[TimedCall],
    made: Made,
    numbers: &[u32],
    most: usize,
) -> Result<Option<Vec<u32>>, JudgeFault>
    requires read { All IsReadCall calls.now }
    requires in_order { BeginInOrder (map plain_call calls.now) }
    requires numbers { numbers.now ≡ numbers_of made.cell (map plain_call calls.now) }
    ensures order { IfOk result
        (λ found. IfSome found (λ order. IsOwnOrder (map plain_call calls.now) made order.items)) }
    ensures none { IfOk result
        (λ found. IsNone found → (order : List Call)
        → ExplainsAccesses (map plain_call calls.now) made.cell made.len made.address order → ⊥) }
    ensures stopped { IfErr result (IsStoppedFor (map plain_call calls.now) made most) }
{
    let mut judge = OrderedJudge::new(alloc, ObjectBytes::new(alloc, made.len))?;
    for number in numbers {
        let call = &calls[*number as usize];
        if !end_before(alloc, &mut judge, calls, u128::from(call.begin), most)? {
            return Ok(None);
        }
        let access = access_of(made.address, &call.entry)?;
        judge.begin(*number, access)?;
    }
    if !end_before(alloc, &mut judge, calls, LAST_MOMENT, most)? {
        return Ok(None);
    }
    let order = judge.order(alloc)?;
    Ok(order)
}

/// Ends the open accesses that end before a moment, in the order of their ends. Returns whether some configuration is
/// left. The errors are those of `order_of`.
fn end_before(
    alloc: Global,
    judge: &mut OrderedJudge<ObjectAccesses>,
    calls: &[TimedCall],
    moment: u128,
    most: usize,
) -> Result<bool, JudgeFault>
    ensures ended { IfOk result
        (λ left. left ≡ true → (len earlier : ℕ) (timeds : List (Timed Access)) → AreOf calls.now timeds
        → earlier ≤ moment → IsUpTo len timeds earlier judge.old
        → IsUpTo len timeds moment judge.new × AreOpenFrom timeds moment judge.new.judge) }
    ensures refuted { IfOk result
        (λ left. left ≡ false → (len earlier : ℕ) (timeds : List (Timed Access)) → AreOf calls.now timeds
        → earlier ≤ moment → IsUpTo len timeds earlier judge.old
        → IsRefutedAt len timeds moment judge.new) }
    ensures stopped { IfErr result
        (λ fault. (len earlier : ℕ) (timeds : List (Timed Access)) → AreOf calls.now timeds
        → earlier ≤ moment → IsUpTo len timeds earlier judge.old
        → HasStoppedAt len timeds most fault) }
{
    while let Some(number) = first_to_end(judge.numbers(), calls) {
        if end_of(calls, number) >= moment {
            return Ok(true);
        }
        if !judge.end(alloc, number, most)? {
            return Ok(false);
        }
    }
    Ok(true)
}

/// Returns the open call that ends first, or `None` if no call is open. `numbers` has the number of the open call at
/// each place of a judge.
fn first_to_end(numbers: &[Option<u32>], calls: &[TimedCall]) -> Option<u32>
    ensures { IsFirstOf calls.now numbers.now result }
{
    let mut first = None;
    for number in numbers {
        first = sooner(calls, first, *number);
    }
    first
}

/// Returns the one of two calls that ends first. If only one is given, returns that one.
fn sooner(calls: &[TimedCall], first: Option<u32>, other: Option<u32>) -> Option<u32>
    ensures { result ≡ sooner calls.now first other }
{
    match (first, other) {
        (Some(one), Some(two)) => {
            if end_of(calls, two) < end_of(calls, one) {
                return Some(two);
            }
            Some(one)
        }
        (None, other) => other,
        (first, None) => first,
    }
}

/// Returns the end of the call with this number, or 0 if there is no such call.
fn end_of(calls: &[TimedCall], number: u32) -> u128
    ensures { result ≡ end_of calls.now number }
{
    match calls.get(number as usize) {
        Some(call) => call.end,
        None => 0,
    }
}
