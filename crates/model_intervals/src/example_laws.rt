//! Examples of histories, and of lists of calls that are not histories. Each lemma is the contract of a function that
//! does nothing.
ghost use Rattle.model_intervals.specs.ExampleLaws.{AddrReturnsTheAddress, CallsBeginAfterNew, CallsEndBeforeFree, CallsNameOneObject, CallsTakeTime, CellsAreBounded, EachNewHasItsOwnCell, GetsReturnAll, LaterReadsSeeTheNewByte, LiveRangesAreApart, MeetingRangesAreFreedFirst, NewAnswersFitTheLength, ObjectsAreFreedOnce, OnlyNewIsRefused, OverlappingAccessesHaveEitherOrder, PutsEndWithin, SerialsAreGivenOnce, StaleReadsAreUnexplained, TouchingAccessesHaveEitherOrder, WorkersAreNotCompared};

/// Accesses that overlap or touch may have their effects in either order, even if one worker makes both. If one access
/// ends before the other begins, its effect comes first.
pub fn orders_of_accesses()
    ensures overlapping { OverlappingAccessesHaveEitherOrder }
    ensures stale { StaleReadsAreUnexplained }
    ensures touching { TouchingAccessesHaveEitherOrder }
    ensures workers { WorkersAreNotCompared }
    ensures stay_new { LaterReadsSeeTheNewByte }
{}

/// If the ranges of two objects meet, the `free` of one object begins no later than the `new` of the other object ends.
/// Objects whose ranges only touch may be live at the same time.
pub fn ranges_of_objects()
    ensures freed_first { MeetingRangesAreFreedFirst }
    ensures live { LiveRangesAreApart }
{}

/// No order of effects explains the following answers:
///
/// - a serial that was given before
/// - an object of 0 bytes, or of more than 2^47 bytes
/// - a refusal that doesn't fit the length
/// - a `put` or `get` that ends past the end of its object
/// - a `get` that returns another number of bytes than was asked for
/// - an `addr` that returns an address other than the object's
pub fn answers_of_calls()
    ensures serials { SerialsAreGivenOnce }
    ensures news { NewAnswersFitTheLength }
    ensures puts { PutsEndWithin }
    ensures gets { GetsReturnAll }
    ensures addresses { AddrReturnsTheAddress }
{}

/// A list of calls is not a history if it contains one of the following:
///
/// - a call that ends before it begins
/// - a call on an object that overlaps or touches the object's `new` or `free`
/// - a call on a cell for which no `new` made an object
/// - a second `new` of a cell, or a second `free` of an object
/// - a refusal of any call but a `new`
/// - a command that doesn't name exactly one object by its cell
/// - a cell of 2^32 or above
pub fn lists_that_are_no_history()
    ensures after_new { CallsBeginAfterNew }
    ensures before_free { CallsEndBeforeFree }
    ensures own_cells { EachNewHasItsOwnCell }
    ensures freed_once { ObjectsAreFreedOnce }
    ensures refused { OnlyNewIsRefused }
    ensures one_object { CallsNameOneObject }
    ensures time { CallsTakeTime }
    ensures bounded { CellsAreBounded }
{}
