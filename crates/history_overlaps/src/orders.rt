//! An order of effects that explains calls.
ghost use Rattle.std.specs.Prelude.{◌<◌, ◌-◌, ◌^◌, IfErr, IfOk, IfSome, IsNone, length, map};
ghost use Rattle.std.specs.List.{All};
ghost use Rattle.model_intervals.specs.Intervals.{Explains, IsLinearizable};
ghost use Rattle.model_intervals.specs.OverlappingCalls.{IsHistory};
ghost use Rattle.history_reading.specs.CallWords.{IsReadCall, plain_call};
ghost use Rattle.history_overlaps.specs.Followed.{IsStopped};
ghost use Rattle.history_overlaps.specs.Orders.{calls_in_order};
ghost use Rattle.history_overlaps.specs.OwnOrders.{BeginInOrder};

use crate::certificates::is_legal_order;
use crate::keys::order_by;
use crate::points::points_of;
use history_object::JudgeFault;
use history_reading::TimedCall;
use std::alloc::Global;

/// Returns an order of effects that explains calls, as the numbers of the calls, which are their places in `calls`. No
/// call may begin before an earlier one. Returns `None` if the calls are no history, or if no order explains them.
///
/// The error is `TooMany` if more than `most` configurations of an object are met at the end of an access,
/// `TooManyPending` if more than 64 accesses to an object are pending at once, and `Memory` if an allocation fails.
pub fn linearize(
    alloc: Global,
    calls: &[TimedCall],
    most: usize,
) -> Result<Option<Vec<u32>>, JudgeFault>
    requires read { All IsReadCall calls.now }
    requires in_order { BeginInOrder (map plain_call calls.now) }
    requires few { length calls.now < 2 ^ 32 - 1 }
    ensures places { IfOk result
        (λ found. IfSome found (λ order. All (λ number. number < length calls.now) order.items)) }
    ensures explains { IfOk result
        (λ found. IfSome found (λ order. Explains (map plain_call calls.now) (calls_in_order calls.now order.items))) }
    ensures none { IfOk result
        (λ found. IsNone found
        → IsHistory (map plain_call calls.now) → IsLinearizable (map plain_call calls.now) → ⊥) }
    ensures stopped { IfErr result (IsStopped (map plain_call calls.now) most) }
{
    let Some(points) = points_of(alloc, calls, most)? else {
        return Ok(None);
    };
    let order = order_by(alloc, calls, points.as_slice())?;
    if !is_legal_order(alloc, calls, order.as_slice())? {
        return Ok(None);
    }
    Ok(Some(order))
}
