//! The timed judge of a word that is stored and loaded. The expected values were worked out by hand.
use crate::tests::words::{Access, Register, Word};
use history_object::TimedJudge;
use std::alloc::{AllocError, Global};

/// The begin of a store or of a load, with the call's number and value, or the end of the call with this number.
#[derive(Clone, Copy)]
enum Event {
    Store(u32, u64),
    Load(u32, u64),
    End(u32),
}

/// A store that overlaps two loads under one number. The first load found the old value, and the second the new value.
const NEW_AFTER_OLD: [Event; 6] = [
    Event::Store(7, 1),
    Event::Load(3, 0),
    Event::End(3),
    Event::Load(3, 1),
    Event::End(3),
    Event::End(7),
];

/// A store that overlaps two loads. The first load found the new value, and the second the old value.
const OLD_AFTER_NEW: [Event; 6] = [
    Event::Store(1, 1),
    Event::Load(2, 1),
    Event::End(2),
    Event::Load(3, 0),
    Event::End(3),
    Event::End(1),
];

/// A store under the largest number, and then a load that found the old value.
const OLD: [Event; 4] = [
    Event::Store(4_294_967_295, 1),
    Event::End(4_294_967_295),
    Event::Load(0, 0),
    Event::End(0),
];

/// A store under the largest number, and then a load that found the new value.
const NEW: [Event; 4] = [
    Event::Store(4_294_967_295, 1),
    Event::End(4_294_967_295),
    Event::Load(0, 1),
    Event::End(0),
];

/// A store that stays pending, a store that ends, and then a load that found a value that was never stored.
const NEVER_STORED: [Event; 5] = [
    Event::Store(1, 1),
    Event::Store(2, 2),
    Event::End(2),
    Event::Load(3, 9),
    Event::End(3),
];

/// Events, and how many configurations may be met at an end. Last comes the number of configurations that were met at
/// the end of the first refuted call, 0 if no call was refuted, or `None` if too many were met at an end.
static JUDGED: [(&[Event], usize, Option<usize>); 7] = [
    (&NEW_AFTER_OLD, 100, Some(0)),
    (&NEW_AFTER_OLD, 1, None),
    (&OLD_AFTER_NEW, 100, Some(1)),
    (&OLD, 100, Some(1)),
    (&NEW, 100, Some(0)),
    (&NEVER_STORED, 4, Some(3)),
    (&NEVER_STORED, 3, None),
];

/// Creates a judge of a word that is 0. The only error is an allocation failure.
fn new_judge(alloc: Global) -> Result<TimedJudge<Register>, AllocError> {
    TimedJudge::new(alloc, Word { value: 0 })
}

/// Records the begin of a call. Returns `None` if a pending call has the number, or if the judge returned an error.
fn begin(judge: &mut TimedJudge<Register>, number: u32, access: Access) -> Option<()> {
    if judge.is_open(number) {
        return None;
    }
    judge.begin(number, access).ok()
}

/// Records the end of a call. If the call is refuted, returns the number of configurations that were met, and otherwise
/// 0. Returns `None` if no pending call has the number, or if the judge returned an error.
fn end(alloc: Global, judge: &mut TimedJudge<Register>, number: u32, most: usize) -> Option<usize> {
    if !judge.is_open(number) {
        return None;
    }
    match judge.end(alloc, number, most).ok()? {
        Some(refutation) => Some(refutation.met.len()),
        None => Some(0),
    }
}

/// Records an event. The result is that of `end`, and 0 if the event is a begin.
fn record(
    alloc: Global,
    judge: &mut TimedJudge<Register>,
    event: Event,
    most: usize,
) -> Option<usize> {
    let (number, stores, value) = match event {
        Event::Store(number, value) => (number, true, value),
        Event::Load(number, value) => (number, false, value),
        Event::End(number) => return end(alloc, judge, number, most),
    };
    begin(judge, number, Access { stores, value })?;
    Some(0)
}

/// Returns the number of configurations that were met at the end of the first refuted call, or 0 if no call was
/// refuted. Returns `None` if an event could not be recorded.
fn judged(alloc: Global, events: &[Event], most: usize) -> Option<usize> {
    let mut judge = new_judge(alloc).ok()?;
    for event in events {
        let met = record(alloc, &mut judge, *event, most)?;
        if met > 0 {
            return Some(met);
        }
    }
    Some(0)
}

#[test]
fn calls_are_judged_as_by_hand(rt: HostRuntime) {
    for (number, (events, most, met)) in JUDGED.iter().enumerate() {
        assert!(rt; judged(rt.alloc(), events, *most) == *met, "row {number}");
    }
}

/// Returns the number of calls that can begin before a call ends, out of 100. The only error is an allocation failure.
fn begun(alloc: Global) -> Result<u32, AllocError> {
    let mut judge = new_judge(alloc)?;
    let mut count: u32 = 0;
    for number in 0..100 {
        let store = Access {
            stores: true,
            value: 1,
        };
        if begin(&mut judge, number, store).is_some() {
            count = count.saturating_add(1);
        }
    }
    Ok(count)
}

#[test]
fn at_most_64_calls_are_pending(rt: HostRuntime) {
    assert!(rt; begun(rt.alloc()).expect(&rt, "memory") == 64);
}
