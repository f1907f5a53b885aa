//! Lemmas about timed judges. Each is the contract of a function that does nothing.
ghost use Rattle.history_object.specs.TimedLaws.{AllAreExplained, NoneExplains, NoneExplainsSome, OpenCallsAreCalls, SomeAreExplained};

use crate::calls::Calls;

/// Each pending call of a judge is one of the calls that the judge has followed.
pub fn open_calls_are_calls<O: Calls>()
    ensures { OpenCallsAreCalls O.effect }
{}

/// If some configuration is left and no call is pending, some order of effects explains the calls that the judge has
/// followed.
pub fn all_are_explained<O: Calls>()
    ensures { AllAreExplained O.effect }
{}

/// If no configuration is left, no order of effects explains the calls that the judge has followed. The same holds if
/// further calls follow, and each of them begins after the end of each call that has ended so far.
pub fn none_explains<O: Calls>()
    ensures { NoneExplains O.effect }
{}

/// If some configuration is left, some order of effects explains the calls that have ended and some of the pending
/// calls.
pub fn some_are_explained<O: Calls>()
    ensures { SomeAreExplained O.effect }
{}

/// If no configuration is left, no order of effects explains the calls that have ended, whatever pending calls it also
/// has.
pub fn none_explains_some<O: Calls>()
    ensures { NoneExplainsSome O.effect }
{}
