//! Lemmas about completions and first wrong calls, and examples of both. Each lemma is the contract of a function that
//! does nothing.
ghost use Rattle.model_intervals.specs.CompletionLaws.{AllEndedAreLinearizable, AllInTimeAreLinearizable, ExplainedAreCompleted, FirstInListIsFirstWrong, FirstToEndIsFirstWrong, FirstWrongStays, LaterCallsAreFree, LoadedBytesAreStored, OneIsFirstWrong, PendingCallsAreFree, PendingPutsMayBeSeen, StaleReadIsFirstWrong, UnexplainedHaveFirstWrong};

/// A pending `put` whose byte a `get` has returned is part of each completion. If no call has returned the byte, the
/// pending `put` may be left out. Both hold too of a `put` that was pending when the recording stopped. A `get` that
/// returns a byte that neither was stored nor is pending is in no completion.
pub fn pending_calls()
    ensures stored { LoadedBytesAreStored }
    ensures free { PendingCallsAreFree }
    ensures at_stop { PendingPutsMayBeSeen }
{}

/// Of two `get` that return a byte that no call stored, the first wrong call is the one that ends first. If both end
/// at the same moment, it is the one that is first in the list. If a stale `get` ends before a wrong `get`, the stale
/// `get` is the first wrong call.
pub fn first_wrong_calls()
    ensures by_end { FirstToEndIsFirstWrong }
    ensures by_place { FirstInListIsFirstWrong }
    ensures stale { StaleReadIsFirstWrong }
{}

/// If all calls have ended, they can be completed if and only if some order explains them. No order explains calls if
/// and only if some call is the first wrong one. At most one call is.
pub fn completions()
    ensures all_ended { AllEndedAreLinearizable }
    ensures one { OneIsFirstWrong }
    ensures some { UnexplainedHaveFirstWrong }
    ensures in_time { AllInTimeAreLinearizable }
    ensures explained { ExplainedAreCompleted }
{}

/// Calls that begin after the end of each call that has ended change neither whether the calls can be completed, nor
/// which call is the first wrong one.
pub fn later_calls()
    ensures completed { LaterCallsAreFree }
    ensures first_wrong { FirstWrongStays }
{}
