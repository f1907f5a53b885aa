//! Lemmas about histories and judges. Each is the contract of a function that does nothing.
ghost use Rattle.history_object.specs.Orders.{TimeIsPairwise};
ghost use Rattle.history_object.specs.Placed.{JudgeExplains, JudgeTells};

use crate::calls::Calls;

/// A new judge can accept all events of a history if and only if some order of effects explains the history.
pub fn judge_tells<O: Calls>()
    ensures { JudgeTells O.effect }
{}

/// After a judge has taken all events of a history, a configuration is left if and only if some order of effects
/// explains the history.
pub fn judge_explains<O: Calls>()
    ensures { JudgeExplains O.effect }
{}

/// Assume that no call ends before it begins, and that an order contains each call at most once. The order respects
/// time if and only if three conditions hold:
///
/// - Each call of the order has begun.
/// - Each call that ended is in the order.
/// - If call A ended before call B began, B does not precede A in the order.
pub fn time_is_pairwise()
    ensures { TimeIsPairwise }
{}
