//! Worked examples of meshes and copies, as calls of a heap.

use crate::tests::heap::calls::{Answer, Call};
use crate::tests::heap::tried::Tried;
use model_words::{Refusal, StepKind};
use std::process::Abort;

/// The initial state of a test's heap and book.
struct Start {
    pages: u32,
    // The number of objects, their length, and the distance in bytes from each object to the next. The first object is
    // at 0x1000.
    objects: u32,
    len: u32,
    slot: u32,
    // The serials of the objects that are freed after all objects are made.
    freed: &'static [u32],
    // The calls that are made last.
    calls: &'static [(Call, Answer)],
}

/// Two groups of the class 2048, each with two objects.
const FOUR: Start = Start {
    pages: 16,
    objects: 4,
    len: 2048,
    slot: 0x800,
    freed: &[],
    calls: &[],
};

/// No objects.
static NO_OBJECTS: Start = Start { objects: 0, ..FOUR };

/// Four objects of the class 2048.
static FOUR_OBJECTS: Start = FOUR;

/// Eight objects of the class 2048.
static EIGHT_OBJECTS: Start = Start { objects: 8, ..FOUR };

/// Nine groups of the class 2048 whose objects were freed.
static EMPTIED: Start = Start {
    objects: 18,
    freed: &[0, 1, 2, 3, 4, 5, 6, 7, 8, 9, 10, 11, 12, 13, 14, 15, 16, 17],
    ..FOUR
};

/// Two groups with one object each: the first group's object is in slot 1, the second group's in slot 0.
static TWO_GROUPS: Start = Start {
    freed: &[0, 3],
    ..FOUR
};

/// The state `TWO_GROUPS` in an arena of two pages.
static TWO_PAGES: Start = Start {
    pages: 2,
    freed: &[0, 3],
    ..FOUR
};

/// The state `TWO_GROUPS` with a byte stored in the second object and a mesh of the groups begun.
static BEGUN: Start = Start {
    freed: &[0, 3],
    calls: &[
        (Call::Write(2, 0, &[0xab]), Answer::Done),
        (Call::Begin(1, 0), Answer::Left(6)),
    ],
    ..FOUR
};

/// The state `TWO_GROUPS` after a mesh that copied one slot, was cancelled, and was then unwound.
static UNWOUND: Start = Start {
    freed: &[0, 3],
    calls: &[
        (Call::Write(2, 0, &[0xab]), Answer::Done),
        (Call::Begin(1, 0), Answer::Left(6)),
        (Call::Step(2048), Answer::Stepped(StepKind::Protect, 5)),
        (Call::Step(2048), Answer::Stepped(StepKind::Copy, 4)),
        (Call::Cancel(2048), Answer::Left(1)),
        (Call::Step(2048), Answer::Stepped(StepKind::Unprotect, 0)),
    ],
    ..FOUR
};

/// Two groups of three pages with a mesh begun. The first group has seven objects, the second has one, which crosses
/// from its group's first page to the second page.
static LONG: Start = Start {
    objects: 11,
    len: 1500,
    slot: 0x600,
    calls: &[
        (Call::Write(10, 1020, CROSSING), Answer::Done),
        (Call::Free(2), Answer::Done),
        (Call::Free(8), Answer::Done),
        (Call::Free(9), Answer::Done),
        (Call::Begin(1, 0), Answer::Left(20)),
    ],
    ..FOUR
};

/// Sixteen objects are made in four groups, and all but one object of each group are freed. The four objects that are
/// left are in four different slots. The groups are then meshed in pairs.
static MESHED_TWICE: Start = Start {
    objects: 16,
    len: 1024,
    slot: 0x400,
    freed: &[1, 2, 3, 4, 6, 7, 8, 9, 11, 12, 13, 14],
    calls: &[
        (Call::Whole(1, 0), Answer::Pages(1)),
        (Call::Whole(3, 2), Answer::Pages(1)),
    ],
    ..FOUR
};

/// The state `TWO_GROUPS`, and two groups of the class 1024: one with three objects, one with one object.
static TWO_CLASSES: Start = Start {
    freed: &[0, 3],
    calls: &[
        (Call::New(1024, 0), Answer::Made(4, 0x3000)),
        (Call::New(1024, 0), Answer::Made(5, 0x3400)),
        (Call::New(1024, 0), Answer::Made(6, 0x3800)),
        (Call::New(1024, 0), Answer::Made(7, 0x3c00)),
        (Call::New(1024, 0), Answer::Made(8, 0x4000)),
        (Call::New(1024, 0), Answer::Made(9, 0x4400)),
        (Call::New(1024, 0), Answer::Made(10, 0x4800)),
        (Call::New(1024, 0), Answer::Made(11, 0x4c00)),
        (Call::Free(4), Answer::Done),
        (Call::Free(9), Answer::Done),
        (Call::Free(10), Answer::Done),
        (Call::Free(11), Answer::Done),
    ],
    ..FOUR
};

/// Brings a heap and a book to an initial state.
fn begin<R: Abort + AllocGlobal>(tried: &mut Tried<'_, R>, start: &Start) {
    let mut addr = 0x1000u32;
    for serial in 0..start.objects {
        tried.check(Call::New(start.len, 0), Answer::Made(serial, addr));
        addr = addr.saturating_add(start.slot);
    }
    for serial in start.freed {
        tried.check(Call::Free(*serial), Answer::Done);
    }
    tried.play(start.calls);
}

/// Asserts that a heap and a book in this initial state give the expected answers to calls, in order.
fn played<R: Abort + AllocGlobal>(rt: &R, start: &Start, calls: &[(Call, Answer)]) {
    played_after(rt, start, &[], calls);
}

/// Asserts that a heap and a book in this initial state give the expected answers to the steps of a mesh, and then to
/// calls.
fn played_after<R: Abort + AllocGlobal>(
    rt: &R,
    start: &Start,
    steps: &[(Call, Answer)],
    calls: &[(Call, Answer)],
) {
    let mut tried = Tried::open(rt, start.pages);
    play(&mut tried, start, steps, calls);
}

/// Brings a fresh heap and book to the initial state, and asserts their answers to the steps and then to the calls.
fn play<R: Abort + AllocGlobal>(
    tried: &mut Tried<'_, R>,
    start: &Start,
    steps: &[(Call, Answer)],
    calls: &[(Call, Answer)],
) {
    begin(tried, start);
    tried.play(steps);
    tried.play(calls);
}

/// The steps of the mesh of the two groups, each followed by a read of the copied object. After the last of these reads
/// come calls on the meshed group.
static READ_AT_EACH_STEP: [(Call, Answer); 19] = [
    (Call::Step(2048), Answer::Stepped(StepKind::Protect, 5)),
    (Call::Read(2, 0, 1), Answer::Bytes(1, 0xab)),
    (Call::Step(2048), Answer::Stepped(StepKind::Copy, 4)),
    (Call::Read(2, 0, 1), Answer::Bytes(1, 0xab)),
    (Call::Step(2048), Answer::Stepped(StepKind::Copy, 3)),
    (Call::Read(2, 0, 1), Answer::Bytes(1, 0xab)),
    (Call::Step(2048), Answer::Stepped(StepKind::Remap, 2)),
    (Call::Read(2, 0, 1), Answer::Bytes(1, 0xab)),
    (Call::Step(2048), Answer::Stepped(StepKind::Unprotect, 1)),
    (Call::Read(2, 0, 1), Answer::Bytes(1, 0xab)),
    (Call::Step(2048), Answer::Stepped(StepKind::Release, 0)),
    (Call::Read(2, 0, 1), Answer::Bytes(1, 0xab)),
    (Call::Peek(0x1000), Answer::Refused(Refusal::Stray)),
    (Call::Peek(0x2800), Answer::Refused(Refusal::Stray)),
    (Call::Peek(0x2000), Answer::Bytes(1, 0xab)),
    (Call::Free(2), Answer::Done),
    (Call::New(2048, 0), Answer::Made(4, 0x1000)),
    (Call::Read(2, 0, 1), Answer::Refused(Refusal::Freed)),
    (Call::Peek(0x2000), Answer::Refused(Refusal::Stray)),
];

#[test]
fn reads_are_answered_at_each_step(rt: HostRuntime) {
    played(&rt, &BEGUN, &READ_AT_EACH_STEP);
}

/// Stores and reads at three times in a mesh: while the second group's page is read-only, after the page is remapped
/// but is still read-only, and once the page is writable again.
static STORED_AT_STEPS: [(Call, Answer); 16] = [
    (Call::Step(2048), Answer::Stepped(StepKind::Protect, 5)),
    (Call::Write(2, 0, &[0xcd]), Answer::Blocked),
    (Call::Read(2, 0, 1), Answer::Bytes(1, 0xab)),
    (Call::Write(1, 0, &[0xcd]), Answer::Done),
    (Call::Poke(0x2800, 0xcd), Answer::Refused(Refusal::Stray)),
    (Call::Poke(0x1800, 0xcd), Answer::Done),
    (Call::Poke(0x2000, 0xcd), Answer::Blocked),
    (Call::Step(2048), Answer::Stepped(StepKind::Copy, 4)),
    (Call::Step(2048), Answer::Stepped(StepKind::Copy, 3)),
    (Call::Step(2048), Answer::Stepped(StepKind::Remap, 2)),
    (Call::Write(2, 0, &[0xcd]), Answer::Blocked),
    (Call::Read(2, 0, 1), Answer::Bytes(1, 0xab)),
    (Call::Step(2048), Answer::Stepped(StepKind::Unprotect, 1)),
    (Call::Write(2, 0, &[0xcd]), Answer::Done),
    (Call::Read(2, 0, 1), Answer::Bytes(1, 0xcd)),
    (Call::Read(1, 0, 1), Answer::Bytes(1, 0xcd)),
];

#[test]
fn stores_are_blocked_while_a_page_is_protected(rt: HostRuntime) {
    played(&rt, &BEGUN, &STORED_AT_STEPS);
}

/// Steps of a mesh, during which the object that the mesh would copy is freed.
static FREED_AMID: [(Call, Answer); 7] = [
    (Call::Step(2048), Answer::Stepped(StepKind::Protect, 5)),
    (Call::Free(2), Answer::Done),
    (Call::Step(2048), Answer::Stepped(StepKind::Copy, 4)),
    (Call::Step(2048), Answer::Stepped(StepKind::Copy, 3)),
    (Call::Step(2048), Answer::Stepped(StepKind::Remap, 2)),
    (Call::Step(2048), Answer::Stepped(StepKind::Unprotect, 1)),
    (Call::Step(2048), Answer::Stepped(StepKind::Release, 0)),
];

#[test]
fn an_object_is_freed_in_a_mesh(rt: HostRuntime) {
    played(&rt, &BEGUN, &FREED_AMID);
}

/// Refused meshes: of groups with a common occupied slot, of a group with itself, and of a group that doesn't exist.
static NO_MESHES: [(Call, Answer); 6] = [
    (Call::Begin(1, 0), Answer::Refused(Refusal::Overlap)),
    (Call::Begin(1, 1), Answer::Refused(Refusal::Same)),
    (Call::Begin(1, 9), Answer::Refused(Refusal::NoGroup)),
    (Call::Whole(1, 0), Answer::Refused(Refusal::Overlap)),
    (Call::Whole(1, 1), Answer::Refused(Refusal::Same)),
    (Call::Whole(1, 9), Answer::Refused(Refusal::NoGroup)),
];

#[test]
fn groups_that_do_not_mesh_are_refused(rt: HostRuntime) {
    played(&rt, &FOUR_OBJECTS, &NO_MESHES);
}

/// An object that gets a page only after a mesh has freed one.
static ROOM_MADE: [(Call, Answer); 3] = [
    (Call::New(64, 0), Answer::Refused(Refusal::NoPages)),
    (Call::Whole(1, 0), Answer::Pages(1)),
    (Call::New(64, 0), Answer::Made(4, 0x3000)),
];

#[test]
fn a_mesh_makes_room(rt: HostRuntime) {
    played(&rt, &TWO_PAGES, &ROOM_MADE);
}

/// A mesh of two groups whose first mesh was cancelled. A cancel of the new mesh comes after the first remap and is
/// refused.
static BEGUN_AGAIN: [(Call, Answer); 8] = [
    (Call::Step(2048), Answer::Refused(Refusal::NoMesh)),
    (Call::Write(2, 0, &[0xee]), Answer::Done),
    (Call::Begin(1, 0), Answer::Left(6)),
    (Call::Step(2048), Answer::Stepped(StepKind::Protect, 5)),
    (Call::Step(2048), Answer::Stepped(StepKind::Copy, 4)),
    (Call::Step(2048), Answer::Stepped(StepKind::Copy, 3)),
    (Call::Step(2048), Answer::Stepped(StepKind::Remap, 2)),
    (Call::Cancel(2048), Answer::Refused(Refusal::TooLate)),
];

#[test]
fn a_mesh_is_cancelled_before_its_first_remap(rt: HostRuntime) {
    played(&rt, &UNWOUND, &BEGUN_AGAIN);
}

/// Cancels of a mesh: before its first step, while the mesh unwinds, and after it has ended.
static CANCELLED_TWICE: [(Call, Answer); 10] = [
    (Call::Cancel(2048), Answer::Left(0)),
    (Call::Step(2048), Answer::Refused(Refusal::NoMesh)),
    (Call::Begin(1, 0), Answer::Left(6)),
    (Call::Step(2048), Answer::Stepped(StepKind::Protect, 5)),
    (Call::Cancel(2048), Answer::Left(1)),
    (Call::Running(2048), Answer::Runs(true)),
    (Call::Cancel(2048), Answer::Left(1)),
    (Call::Step(2048), Answer::Stepped(StepKind::Unprotect, 0)),
    (Call::Running(2048), Answer::Runs(false)),
    (Call::Cancel(2048), Answer::Refused(Refusal::NoMesh)),
];

#[test]
fn a_further_cancel_changes_nothing(rt: HostRuntime) {
    played(&rt, &BEGUN, &CANCELLED_TWICE);
}

/// A new object in the slot to which the cancelled mesh had copied, and a read of the object's first byte, which is
/// zero.
static HIDDEN: [(Call, Answer); 2] = [
    (Call::New(2048, 0), Answer::Made(4, 0x1000)),
    (Call::Read(4, 0, 1), Answer::Bytes(1, 0x00)),
];

#[test]
fn a_new_object_hides_what_a_cancelled_mesh_copied(rt: HostRuntime) {
    played(&rt, &UNWOUND, &HIDDEN);
}

/// Calls on the groups of a running mesh. All are refused, and a new object gets another group.
static CLOSED: [(Call, Answer); 4] = [
    (Call::Begin(1, 0), Answer::Refused(Refusal::Busy)),
    (Call::Begin(1, 1), Answer::Refused(Refusal::Same)),
    (Call::Sweep(1), Answer::Refused(Refusal::Busy)),
    (Call::New(2048, 0), Answer::Made(4, 0x3000)),
];

#[test]
fn groups_of_a_running_mesh_are_closed(rt: HostRuntime) {
    played(&rt, &BEGUN, &CLOSED);
}

/// Bytes of the object that crosses pages. The first four bytes are on one page, the other four on the next page.
const CROSSING: &[u8] = &[1, 2, 3, 4, 5, 6, 7, 8];

/// A read of the bytes `CROSSING`.
const HELD: (Call, Answer) = (
    Call::Read(10, 1020, 8),
    Answer::Bytes(8, 0x0102_0304_0506_0708),
);

/// The steps of the mesh of the two groups of three pages.
static LONG_STEPS: [(Call, Answer); 20] = [
    (Call::Step(1536), Answer::Stepped(StepKind::Protect, 19)),
    (Call::Step(1536), Answer::Stepped(StepKind::Protect, 18)),
    (Call::Step(1536), Answer::Stepped(StepKind::Protect, 17)),
    (Call::Step(1536), Answer::Stepped(StepKind::Copy, 16)),
    (Call::Step(1536), Answer::Stepped(StepKind::Copy, 15)),
    (Call::Step(1536), Answer::Stepped(StepKind::Copy, 14)),
    (Call::Step(1536), Answer::Stepped(StepKind::Copy, 13)),
    (Call::Step(1536), Answer::Stepped(StepKind::Copy, 12)),
    (Call::Step(1536), Answer::Stepped(StepKind::Copy, 11)),
    (Call::Step(1536), Answer::Stepped(StepKind::Copy, 10)),
    (Call::Step(1536), Answer::Stepped(StepKind::Copy, 9)),
    (Call::Step(1536), Answer::Stepped(StepKind::Remap, 8)),
    (Call::Step(1536), Answer::Stepped(StepKind::Remap, 7)),
    (Call::Step(1536), Answer::Stepped(StepKind::Remap, 6)),
    (Call::Step(1536), Answer::Stepped(StepKind::Unprotect, 5)),
    (Call::Step(1536), Answer::Stepped(StepKind::Unprotect, 4)),
    (Call::Step(1536), Answer::Stepped(StepKind::Unprotect, 3)),
    (Call::Step(1536), Answer::Stepped(StepKind::Release, 2)),
    (Call::Step(1536), Answer::Stepped(StepKind::Release, 1)),
    (Call::Step(1536), Answer::Stepped(StepKind::Release, 0)),
];

/// Asserts that the heap and the book give the expected answers to calls after the first `steps` steps of `LONG_STEPS`.
fn played_long<R: Abort + AllocGlobal>(rt: &R, steps: usize, calls: &[(Call, Answer)]) {
    let steps = LONG_STEPS.get(..steps).expect(rt, "steps");
    played_after(rt, &LONG, steps, calls);
}

/// Calls once the first of three pages is remapped, with the further steps up to the first release.
static HALF_REMAPPED: [(Call, Answer); 11] = [
    HELD,
    (Call::Peek(0x4fff), Answer::Bytes(1, 0x04)),
    (Call::Peek(0x5000), Answer::Bytes(1, 0x05)),
    (Call::Write(10, 0, &[0xff]), Answer::Blocked),
    (Call::Step(1536), Answer::Stepped(StepKind::Remap, 7)),
    (Call::Step(1536), Answer::Stepped(StepKind::Remap, 6)),
    (Call::Step(1536), Answer::Stepped(StepKind::Unprotect, 5)),
    (Call::Step(1536), Answer::Stepped(StepKind::Unprotect, 4)),
    (Call::Step(1536), Answer::Stepped(StepKind::Unprotect, 3)),
    (Call::Step(1536), Answer::Stepped(StepKind::Release, 2)),
    (Call::Report, Answer::Counts(8, 12_000, 6, 5, 1)),
];

#[test]
fn an_object_across_pages_is_remapped_page_by_page(rt: HostRuntime) {
    played_long(&rt, 12, &HALF_REMAPPED);
}

/// The answer to a store after `steps` steps of a mesh: `Blocked` from step 1 to step `last`, else `Done`.
fn stored(steps: usize, last: usize) -> Answer {
    if 1 <= steps && steps <= last {
        Answer::Blocked
    } else {
        Answer::Done
    }
}

/// The answer to a cancel after `steps` steps of the mesh of three-page groups.
fn cancelled_after(steps: usize) -> Answer {
    match steps {
        0 => Answer::Left(0),
        1 => Answer::Left(1),
        2 => Answer::Left(2),
        3..=11 => Answer::Left(3),
        12..=19 => Answer::Refused(Refusal::TooLate),
        _ => Answer::Refused(Refusal::NoMesh),
    }
}

/// Asserts the answers to stores, loads, copies and a cancel if the mesh of three-page groups is abandoned after
/// `steps` steps.
fn check_abandoned<R: Abort + AllocGlobal>(rt: &R, steps: usize) {
    let first = stored(steps, 14);
    let both = stored(steps, 15);
    let calls = [
        HELD,
        (Call::Write(10, 0, &[0xff]), first),
        (Call::Write(10, 1020, CROSSING), both),
        HELD,
        (Call::Copy(0, 0, 10, 1020, 8), Answer::Done),
        (Call::Copy(10, 1020, 1, 0, 8), both),
        (Call::Copy(10, 1020, 0, 0, 8), both),
        HELD,
        (Call::Cancel(1536), cancelled_after(steps)),
    ];
    played_long(rt, steps, &calls);
}

#[test]
fn an_abandoned_mesh_keeps_its_answers(rt: HostRuntime) {
    for steps in 0..21 {
        check_abandoned(&rt, steps);
    }
}

/// The unwinding of a mesh of three pages that is cancelled once all three are read-only.
static UNWINDING: [(Call, Answer); 11] = [
    (Call::Cancel(1536), Answer::Left(3)),
    (Call::Write(10, 0, &[0xff]), Answer::Blocked),
    (Call::Step(1536), Answer::Stepped(StepKind::Unprotect, 2)),
    (Call::Write(10, 0, &[0xff]), Answer::Done),
    (Call::Write(10, 1020, CROSSING), Answer::Blocked),
    (Call::Cancel(1536), Answer::Left(2)),
    (Call::Step(1536), Answer::Stepped(StepKind::Unprotect, 1)),
    (Call::Write(10, 1020, CROSSING), Answer::Done),
    (Call::Step(1536), Answer::Stepped(StepKind::Unprotect, 0)),
    (Call::Step(1536), Answer::Refused(Refusal::NoMesh)),
    (Call::Report, Answer::Counts(8, 12_000, 6, 6, 0)),
];

#[test]
fn a_cancelled_mesh_unwinds(rt: HostRuntime) {
    for steps in 3..12 {
        played_long(&rt, steps, &UNWINDING);
    }
}

/// A new object in a slot that prevents the mesh of two groups.
static IN_THE_WAY: [(Call, Answer); 7] = [
    (Call::Free(1), Answer::Done),
    (Call::Free(3), Answer::Done),
    (Call::Free(4), Answer::Done),
    (Call::Free(6), Answer::Done),
    (Call::New(2048, 0), Answer::Made(8, 0x1800)),
    (Call::Begin(3, 0), Answer::Refused(Refusal::Overlap)),
    (Call::Begin(1, 2), Answer::Left(6)),
];

#[test]
fn a_new_object_stands_in_the_way(rt: HostRuntime) {
    played(&rt, &EIGHT_OBJECTS, &IN_THE_WAY);
}

/// The report before a mesh and after it.
static PAGE_SAVED: [(Call, Answer); 3] = [
    (Call::Report, Answer::Counts(2, 4096, 2, 2, 0)),
    (Call::Whole(1, 0), Answer::Pages(1)),
    (Call::Report, Answer::Counts(2, 4096, 2, 1, 1)),
];

#[test]
fn a_mesh_saves_a_page(rt: HostRuntime) {
    played(&rt, &TWO_GROUPS, &PAGE_SAVED);
}

/// A group that is swept once it is empty.
static SWEPT: [(Call, Answer); 7] = [
    (Call::Free(1), Answer::Done),
    (Call::Sweep(1), Answer::Refused(Refusal::NotEmpty)),
    (Call::Sweep(0), Answer::Pages(1)),
    (Call::Sweep(0), Answer::Refused(Refusal::NoGroup)),
    (Call::Read(1, 0, 1), Answer::Refused(Refusal::Freed)),
    (Call::Peek(0x1800), Answer::Refused(Refusal::Stray)),
    (Call::New(2048, 0), Answer::Made(4, 0x2800)),
];

#[test]
fn an_empty_group_is_swept(rt: HostRuntime) {
    played(&rt, &TWO_GROUPS, &SWEPT);
}

/// Meshes into the first group until it has eight members, then a mesh that would add a ninth and is refused.
static MOST_MEMBERS: [(Call, Answer); 10] = [
    (Call::Whole(1, 0), Answer::Pages(1)),
    (Call::Whole(2, 0), Answer::Pages(1)),
    (Call::Whole(3, 0), Answer::Pages(1)),
    (Call::Whole(4, 0), Answer::Pages(1)),
    (Call::Whole(5, 0), Answer::Pages(1)),
    (Call::Whole(6, 0), Answer::Pages(1)),
    (Call::Whole(7, 0), Answer::Pages(1)),
    (Call::Whole(8, 0), Answer::Refused(Refusal::Members)),
    (Call::Sweep(0), Answer::Pages(1)),
    (Call::Report, Answer::Counts(0, 0, 1, 1, 0)),
];

#[test]
fn eight_members_are_most(rt: HostRuntime) {
    played(&rt, &EMPTIED, &MOST_MEMBERS);
}

/// The mesh that joins the last two groups, and calls after it.
static FOUR_IN_ONE: [(Call, Answer); 4] = [
    (Call::Whole(2, 0), Answer::Pages(1)),
    (Call::Report, Answer::Counts(4, 4096, 4, 1, 3)),
    (Call::Free(5), Answer::Done),
    (Call::New(1024, 0), Answer::Made(16, 0x1400)),
];

#[test]
fn four_groups_become_one(rt: HostRuntime) {
    played(&rt, &MESHED_TWICE, &FOUR_IN_ONE);
}

/// A mesh whose source has two members, with stores to the object of each.
static PAGE_BY_PAGE: [(Call, Answer); 17] = [
    (Call::Begin(2, 0), Answer::Left(11)),
    (Call::Step(1024), Answer::Stepped(StepKind::Protect, 10)),
    (Call::Write(10, 0, &[0xaa]), Answer::Blocked),
    (Call::Write(15, 0, &[0xbb]), Answer::Done),
    (Call::Step(1024), Answer::Stepped(StepKind::Protect, 9)),
    (Call::Step(1024), Answer::Stepped(StepKind::Copy, 8)),
    (Call::Step(1024), Answer::Stepped(StepKind::Copy, 7)),
    (Call::Step(1024), Answer::Stepped(StepKind::Copy, 6)),
    (Call::Step(1024), Answer::Stepped(StepKind::Copy, 5)),
    (Call::Step(1024), Answer::Stepped(StepKind::Remap, 4)),
    (Call::Step(1024), Answer::Stepped(StepKind::Remap, 3)),
    (Call::Write(10, 0, &[0xaa]), Answer::Blocked),
    (Call::Step(1024), Answer::Stepped(StepKind::Unprotect, 2)),
    (Call::Write(10, 0, &[0xaa]), Answer::Done),
    (Call::Step(1024), Answer::Stepped(StepKind::Unprotect, 1)),
    (Call::Step(1024), Answer::Stepped(StepKind::Release, 0)),
    (Call::Read(15, 0, 1), Answer::Bytes(1, 0xbb)),
];

#[test]
fn a_source_of_two_members_goes_page_by_page(rt: HostRuntime) {
    played(&rt, &MESHED_TWICE, &PAGE_BY_PAGE);
}

/// Two meshes of different classes that run at the same time: one is cancelled, and the other is finished. The last
/// calls are made after the end of both meshes.
static ONE_IN_EACH: [(Call, Answer); 24] = [
    (Call::Running(2048), Answer::Runs(false)),
    (Call::Begin(1, 0), Answer::Left(6)),
    (Call::Running(2048), Answer::Runs(true)),
    (Call::Running(1024), Answer::Runs(false)),
    (Call::Begin(3, 2), Answer::Left(8)),
    (Call::Running(1024), Answer::Runs(true)),
    (Call::Begin(1, 0), Answer::Refused(Refusal::Busy)),
    (Call::Begin(1, 2), Answer::Refused(Refusal::Class)),
    (Call::BeginAlone(3, 2), Answer::Refused(Refusal::Busy)),
    (Call::Step(2048), Answer::Stepped(StepKind::Protect, 5)),
    (Call::Step(1024), Answer::Stepped(StepKind::Protect, 7)),
    (Call::Write(8, 0, &[0xcd]), Answer::Blocked),
    (Call::Cancel(1024), Answer::Left(1)),
    (Call::Step(1024), Answer::Stepped(StepKind::Unprotect, 0)),
    (Call::Step(1024), Answer::Refused(Refusal::NoMesh)),
    (Call::Running(1024), Answer::Runs(false)),
    (Call::Running(2048), Answer::Runs(true)),
    (Call::Step(2048), Answer::Stepped(StepKind::Copy, 4)),
    (Call::Step(2048), Answer::Stepped(StepKind::Copy, 3)),
    (Call::Step(2048), Answer::Stepped(StepKind::Remap, 2)),
    (Call::Step(2048), Answer::Stepped(StepKind::Unprotect, 1)),
    (Call::Step(2048), Answer::Stepped(StepKind::Release, 0)),
    (Call::Running(2048), Answer::Runs(false)),
    (Call::Report, Answer::Counts(6, 8192, 4, 3, 1)),
];

#[test]
fn one_mesh_runs_in_each_class(rt: HostRuntime) {
    played(&rt, &TWO_CLASSES, &ONE_IN_EACH);
}

/// Meshes by `begin_alone` and `whole_alone`, which are refused while a mesh of any class runs.
static ALONE: [(Call, Answer); 8] = [
    (Call::BeginAlone(1, 0), Answer::Left(6)),
    (Call::BeginAlone(3, 2), Answer::Refused(Refusal::Busy)),
    (Call::WholeAlone(3, 2), Answer::Refused(Refusal::Busy)),
    (Call::Whole(1, 0), Answer::Refused(Refusal::Busy)),
    (Call::Whole(3, 2), Answer::Pages(1)),
    (Call::Cancel(2048), Answer::Left(0)),
    (Call::WholeAlone(1, 0), Answer::Pages(1)),
    (Call::Report, Answer::Counts(6, 8192, 4, 2, 2)),
];

#[test]
fn a_mesh_alone_waits_for_each_class(rt: HostRuntime) {
    played(&rt, &TWO_CLASSES, &ALONE);
}

/// Copies within one object, with overlapping ranges.
static OVERLAPPING: [(Call, Answer); 10] = [
    (Call::New(2048, 0), Answer::Made(0, 0x1000)),
    (Call::Write(0, 0, &[1, 2, 3, 4, 5]), Answer::Done),
    (Call::Copy(0, 2, 0, 0, 3), Answer::Done),
    (Call::Read(0, 0, 6), Answer::Bytes(6, 0x0102_0102_0300)),
    (Call::Copy(0, 0, 0, 1, 4), Answer::Done),
    (Call::Read(0, 0, 6), Answer::Bytes(6, 0x0201_0203_0300)),
    (
        Call::Copy(0, 2040, 0, 0, 9),
        Answer::Refused(Refusal::Outside),
    ),
    (
        Call::Copy(0, 0, 0, 2040, 9),
        Answer::Refused(Refusal::Outside),
    ),
    (Call::Free(0), Answer::Done),
    (Call::Copy(0, 0, 0, 0, 1), Answer::Refused(Refusal::Freed)),
];

#[test]
fn ranges_of_a_copy_overlap(rt: HostRuntime) {
    played(&rt, &NO_OBJECTS, &OVERLAPPING);
}

/// A copy from a read-only page, which is done, and a copy to a read-only page, which is blocked.
static BLOCKED_COPY: [(Call, Answer); 5] = [
    (Call::Step(1024), Answer::Refused(Refusal::NoMesh)),
    (Call::Step(2048), Answer::Stepped(StepKind::Protect, 5)),
    (Call::Copy(1, 0, 2, 0, 1), Answer::Done),
    (Call::Read(1, 0, 1), Answer::Bytes(1, 0xab)),
    (Call::Copy(2, 0, 1, 0, 1), Answer::Blocked),
];

#[test]
fn a_copy_is_blocked_where_it_writes(rt: HostRuntime) {
    played(&rt, &BEGUN, &BLOCKED_COPY);
}
