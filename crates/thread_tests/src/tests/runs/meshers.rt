//! Tests of scripts on threads with running meshers. A gate stops the threads at chosen points.
ghost use Rattle.std.specs.Prelude.{◌≡◌, ◌≤◌, IfSome, length};
ghost use Rattle.std.specs.List.{All};
ghost use Rattle.model_words.specs.Commands.{IsInRange};

use crate::tests::runs::gates::{Event, Hold, Holding, Mark};
use crate::tests::{check_count, check_that};
use arrayvec::ArrayVec;
use mesh_class::class_of;
use mesh_mutator::{Book, Command, Entry, Reply};
use mesh_shared::{
    Ended, Gate, Limits, MeshCounts, MeshPlan, Meshed, Ran, Worked, run_abandoned, run_threads,
    run_within,
};
use mesh_steps::{Heap, Report};
use model_words::{Refusal, StepKind};
use std::ops::Range;
use std::process::Abort;
use std::rt::Clock;
use std::sync::Wait;
use std::thread::Threads;
use text_job::Commands;

/// A part of a script.
#[derive(Clone, Copy)]
pub(crate) enum Part {
    // Makes an object of this length in each cell from the first up to, but not including, the second.
    Made(u8, u8, u32),
    // Frees the objects of these cells.
    Freed(&'static [u8]),
    // Stores a byte at the beginning of the object of a cell.
    Stored(u8, u8),
    // Loads the first byte of the object of a cell this number of times.
    Read(u8, u32),
}

/// Returns the script that consists of these parts, in order.
pub(crate) fn script_of(rt: &(impl Abort + AllocGlobal), parts: &[Part]) -> Commands {
    let mut script = Commands::new(rt.alloc());
    for part in parts {
        add_part(rt, &mut script, *part);
    }
    script
}

/// Adds the commands of a part.
fn add_part(rt: &impl Abort, script: &mut Commands, part: Part) {
    match part {
        Part::Made(first, end, len) => {
            for cell in first..end {
                script.push(Command::New(cell, len, 0)).expect(rt, "memory");
            }
        }
        Part::Freed(cells) => {
            for cell in cells {
                script.push(Command::Free(*cell)).expect(rt, "memory");
            }
        }
        Part::Stored(cell, byte) => script.push(put(cell, byte)).expect(rt, "memory"),
        Part::Read(cell, times) => {
            for _ in 0..times {
                script.push(Command::Get(cell, 0, 1)).expect(rt, "memory");
            }
        }
    }
}

/// Returns a store of the first byte of the object that a cell names.
fn put(cell: u8, byte: u8) -> Command
    ensures { IsInRange result }
{
    let mut bytes = ArrayVec::new();
    bytes.push(byte);
    Command::Put(cell, 0, bytes)
}

/// Returns one script in the type that a run expects.
pub(crate) fn alone<'a>(script: &'a Commands) -> [&'a [Command]; 1]
    ensures { All (λ script. All IsInRange script.now) result }
{
    [script.as_slice()]
}

/// Returns two scripts in the type that a run expects.
fn both<'a>(first: &'a Commands, second: &'a Commands) -> [&'a [Command]; 2]
    ensures { All (λ script. All IsInRange script.now) result }
{
    [first.as_slice(), second.as_slice()]
}

/// Returns a plan with this number of rounds, searchers and meshers. Each search makes one round of tries, and all its
/// random words are 0.
pub(crate) fn plan_of(rt: &impl AllocGlobal, rounds: u32, workers: u32, meshers: u32) -> MeshPlan
    ensures searchers { result.workers ≡ workers }
    ensures meshers { result.meshers ≡ meshers }
{
    MeshPlan {
        t: 1,
        rounds,
        workers,
        words: Vec::new(rt.alloc()),
        meshers,
    }
}

/// A run of one or two scripts: the scripts, the stops, and the expected result.
struct Course {
    // The parts of each script.
    first: &'static [Part],
    second: Option<&'static [Part]>,
    // The events that must occur.
    events: &'static [Event],
    holds: &'static [Hold],
    // The second event of a pair must occur before the first.
    orders: &'static [(Event, Event)],
    scale: Scale,
}

/// The sizes of a run.
#[derive(Clone, Copy)]
struct Scale {
    // The number of pages of the arena.
    pages: u32,
    // The capacity of the journal in entries.
    room: u32,
    // The plan: rounds, searchers, 1 to 16, and meshers, 1 to 10.
    rounds: u32,
    searchers: u32,
    meshers: u32,
}

/// Two rounds of one mesher, which searches alone.
const USUAL: Scale = Scale {
    pages: 16,
    room: 64,
    rounds: 2,
    searchers: 1,
    meshers: 1,
};

/// One round of one mesher, with two searchers.
const TWO_SEARCHERS: Scale = Scale {
    pages: 16,
    room: 8,
    rounds: 1,
    searchers: 2,
    meshers: 1,
};

/// One worker without a command, and a mesher that nothing stops.
const ALONE: Course = Course {
    first: &[],
    second: None,
    events: &[],
    holds: &[],
    orders: &[],
    scale: USUAL,
};

/// The greatest number of attempts that a worker makes at a command if the meshers are abandoned.
const TRIES: u32 = 10;

/// Returns a mark for each of these events.
fn marks_of(rt: &(impl Abort + AllocGlobal), events: &[Event]) -> Vec<Mark> {
    let mut marks = Vec::new(rt.alloc());
    for event in events {
        marks.push(Mark::of(*event)).expect(rt, "memory");
    }
    marks
}

/// Runs these scripts with the gate of a course, and returns the result. Asserts that all events of the course occurred
/// in the required order, and that no thread waited in vain. If `calls` is a number, each mesher is abandoned after
/// this number of calls.
fn ran<R: Abort + AllocGlobal + Clock + Threads + Wait + Sync>(
    rt: &R,
    course: &Course,
    scripts: &[&[Command]],
    calls: Option<u32>,
) -> Seen
    requires some { 1 ≤ length scripts.now }
    requires few { length scripts.now ≤ 64 }
    requires range { All (λ script. All IsInRange script.now) scripts.now }
{
    let marks = marks_of(rt, course.events);
    let gate = Holding::new(rt, marks.as_slice(), course.holds, course.orders);
    let seen = ran_past(rt, course.scale, scripts, calls, &gate);
    assert!(rt; gate.went_well(), "with {calls:?} calls of a mesher");
    seen
}

/// Asserts that a scale is within its bounds.
fn check_scale(rt: &impl Abort, scale: Scale)
    ensures some_pages { 1 ≤ scale.pages }
    ensures most_pages { scale.pages ≤ 4096 }
    ensures some_searchers { 1 ≤ scale.searchers }
    ensures most_searchers { scale.searchers ≤ 16 }
    ensures some_meshers { 1 ≤ scale.meshers }
    ensures most_meshers { scale.meshers ≤ 10 }
    ensures few_entries { scale.room ≤ 65536 }
{
    assert!(rt; 1 <= scale.pages && scale.pages <= 4096, "pages");
    assert!(rt; 1 <= scale.searchers && scale.searchers <= 16, "searchers");
    assert!(rt; 1 <= scale.meshers && scale.meshers <= 10, "meshers");
    assert!(rt; scale.room <= 65_536, "room");
}

/// Runs scripts with a gate on a fresh book, and returns the result.
fn ran_past<R: Abort + AllocGlobal + Threads + Wait + Sync, G: Gate + Sync>(
    rt: &R,
    scale: Scale,
    scripts: &[&[Command]],
    calls: Option<u32>,
    gate: &G,
) -> Seen
    requires some { 1 ≤ length scripts.now }
    requires few { length scripts.now ≤ 64 }
    requires range { All (λ script. All IsInRange script.now) scripts.now }
{
    check_scale(rt, scale);
    let plan = plan_of(rt, scale.rounds, scale.searchers, scale.meshers);
    let book = Book::open(rt.alloc(), scale.pages, scale.room).expect(rt, "memory");
    let ended = match calls {
        None => run_threads(rt, rt.alloc(), book, scripts, &plan, gate),
        Some(calls) => run_abandoned(rt, rt.alloc(), book, scripts, &plan, calls, TRIES, gate),
    };
    look_at(ended.expect(rt, "a history"))
}

/// Runs these scripts with the gate of a course within limits, and returns what the threads did.
fn ran_within<R: Abort + AllocGlobal + Clock + Threads + Wait + Sync>(
    rt: &R,
    course: &Course,
    scripts: &[&[Command]],
    limits: Limits,
) -> Ran
    requires some { 1 ≤ length scripts.now }
    requires few { length scripts.now ≤ 64 }
    requires range { All (λ script. All IsInRange script.now) scripts.now }
    requires tries { IfSome limits.tries (λ tries. 1 ≤ tries) }
{
    let scale = course.scale;
    check_scale(rt, scale);
    let marks = marks_of(rt, course.events);
    let gate = Holding::new(rt, marks.as_slice(), course.holds, course.orders);
    let plan = plan_of(rt, scale.rounds, scale.searchers, scale.meshers);
    let book = Book::open(rt.alloc(), scale.pages, scale.room).expect(rt, "memory");
    let ran = run_within(rt, rt.alloc(), book, scripts, &plan, limits, &gate);
    check_that(rt, gate.went_well(), "all events occurred");
    ran.expect(rt, "a history")
}

/// Runs the scripts of a course, and returns the result.
fn played<R: Abort + AllocGlobal + Clock + Threads + Wait + Sync>(
    rt: &R,
    course: &Course,
    calls: Option<u32>,
) -> Seen {
    let first = script_of(rt, course.first);
    match course.second {
        None => ran(rt, course, &alone(&first), calls),
        Some(parts) => {
            let second = script_of(rt, parts);
            ran(rt, course, &both(&first, &second), calls)
        }
    }
}

/// Returns the number of a history's entries that belong to a worker.
fn count_of(history: &[Entry], worker: u32) -> usize {
    history
        .iter()
        .filter(|entry| entry.worker == worker)
        .count()
}

/// Returns the number of a history's entries that are refused as `NoPages`.
pub(crate) fn no_pages_count(history: &[Entry]) -> usize {
    history
        .iter()
        .filter(|entry| entry.reply == Reply::Refused(Refusal::NoPages))
        .count()
}

/// Finishes the mesh of a class, and returns the number of steps that were left: 0 if no mesh runs.
fn steps_left(heap: &mut Heap, size: u32) -> u32 {
    let Ok(class) = class_of(size) else {
        return 0;
    };
    for made in 0..1000 {
        if heap.step(class) == Err(Refusal::NoMesh) {
            return made;
        }
    }
    1000
}

/// The slot sizes of the ten classes in bytes.
static SIZES: [u32; 10] = [16, 32, 64, 128, 256, 384, 512, 1024, 1536, 2048];

/// Finishes the meshes of all classes, and returns the number of steps that were left.
fn all_steps_left(heap: &mut Heap) -> u32 {
    let mut left = 0u32;
    for size in SIZES.iter() {
        left = left.saturating_add(steps_left(heap, *size));
    }
    left
}

/// Returns the byte at the first address, or `None` if the byte at another address isn't zero.
fn first_byte(heap: &Heap, addresses: Range<u32>) -> Option<u8> {
    let mut first = None;
    for address in addresses {
        match (heap.peek(address), first) {
            (Ok(byte), None) => first = Some(byte),
            (Ok(0), Some(_)) => {}
            _ => return None,
        }
    }
    first
}

/// Returns the first byte of each of the objects of the cells 1 and 2, or `None` if another byte of theirs isn't zero.
fn first_bytes(heap: &Heap) -> Option<(u8, u8)> {
    let lower = first_byte(heap, 0x1800..0x2000)?;
    let upper = first_byte(heap, 0x2000..0x2800)?;
    Some((lower, upper))
}

/// The result of a run.
#[derive(Drop)]
struct Seen {
    // The number of entries of the first script in the history, and that of the second script.
    entries: (usize, usize),
    // The number of entries that are refused as `NoPages`.
    no_pages: usize,
    // The counts of the heap.
    report: Report,
    // The first bytes of the objects at the end of the run.
    bytes: Option<(u8, u8)>,
    // The first bytes of the objects after all meshes are finished.
    last_bytes: Option<(u8, u8)>,
    // The number of steps that the meshes of all classes still took.
    steps_left: u32,
}

/// Examines the history and the heap of a finished run, and finishes the meshes that are left.
fn look_at(mut ended: Ended) -> Seen {
    seen_of(ended.history.as_slice(), &mut ended.heap)
}

/// Examines a history and a heap, and finishes the heap's meshes.
fn seen_of(history: &[Entry], heap: &mut Heap) -> Seen {
    let report = heap.report();
    let bytes = first_bytes(heap);
    let steps_left = all_steps_left(heap);
    Seen {
        entries: (count_of(history, 0), count_of(history, 1)),
        no_pages: no_pages_count(history),
        report,
        bytes,
        last_bytes: first_bytes(heap),
        steps_left,
    }
}

/// Asserts the number of the history's entries that belong to each of the two scripts.
fn check_entries(rt: &impl Abort, seen: &Seen, wanted: (usize, usize)) {
    assert_eq!(rt; seen.entries, wanted);
}

/// A script that makes two groups of the class 2,048 with one object each, in the cells 1 and 2, and then reads the
/// second object four times.
const READER: &[Part] = &[
    Part::Made(0, 4, 2048),
    Part::Freed(&[0, 3]),
    Part::Read(2, 4),
];

/// A script that reads an empty cell and then stores into the second object.
const WRITER: &[Part] = &[Part::Read(9, 1), Part::Stored(2, 0xcd)];

/// A run in which the reader makes the groups, and then reads while the second object is copied. The writer stores only
/// once that object's page is remapped.
static READ_IN_A_COPY: Course = Course {
    first: READER,
    second: Some(WRITER),
    events: &[
        Event::Called(0, 5),
        Event::Called(0, 6),
        Event::Called(1, 0),
        Event::Called(1, 1),
        Event::Stepped(0, StepKind::Copy),
        Event::Stepped(0, StepKind::Remap),
    ],
    holds: &[
        Hold(Event::Searching, &[Event::Called(0, 5)], 0),
        Hold(
            Event::Called(0, 5),
            &[Event::Called(1, 0), Event::Stepped(0, StepKind::Copy)],
            0,
        ),
        Hold(
            Event::Called(1, 0),
            &[Event::Called(0, 5), Event::Stepped(0, StepKind::Copy)],
            0,
        ),
        Hold(
            Event::Stepped(0, StepKind::Copy),
            &[Event::Called(0, 6)],
            10_000,
        ),
    ],
    orders: &[(Event::Called(1, 1), Event::Stepped(0, StepKind::Remap))],
    ..ALONE
};

#[test]
fn a_reader_runs_during_a_copy(rt: HostRuntime) {
    let seen = played(&rt, &READ_IN_A_COPY, None);
    check_entries(&rt, &seen, (10, 2));
    check_that(&rt, seen.steps_left == 0, "no step is left");
}

/// A script of two reads of an empty cell, a `New`, and a read of the new object.
const FOUR_CALLS: &[Part] = &[Part::Read(9, 2), Part::Made(0, 1, 16), Part::Read(0, 1)];

/// A run in which two searchers search between the first call and the third.
static SEARCH_BESIDE: Course = Course {
    first: FOUR_CALLS,
    events: &[Event::Searching, Event::Called(0, 2)],
    holds: &[
        Hold(Event::Called(0, 0), &[Event::Searching], 0),
        Hold(Event::Searching, &[Event::Called(0, 2)], 0),
    ],
    scale: TWO_SEARCHERS,
    ..ALONE
};

#[test]
fn a_search_runs_beside_a_script(rt: HostRuntime) {
    let seen = played(&rt, &SEARCH_BESIDE, None);
    check_entries(&rt, &seen, (4, 0));
}

/// A script of three reads of an empty cell.
const THREE_READS: &[Part] = &[Part::Read(9, 3)];

/// A run in which the first call waits for a searcher at a class, and that searcher waits for the second call.
static SEARCH_BETWEEN_READS: Course = Course {
    first: THREE_READS,
    events: &[Event::Searching, Event::Called(0, 1)],
    holds: &[
        Hold(Event::Called(0, 0), &[Event::Searching], 0),
        Hold(Event::FirstSearching, &[Event::Called(0, 1)], 0),
    ],
    scale: TWO_SEARCHERS,
    ..ALONE
};

#[test]
fn a_search_runs_between_reads(rt: HostRuntime) {
    let seen = played(&rt, &SEARCH_BETWEEN_READS, None);
    check_entries(&rt, &seen, (3, 0));
}

/// A run that makes three objects of half a page in an arena of one page.
static ONE_PAGE: Course = Course {
    first: &[Part::Made(0, 3, 2048)],
    scale: Scale {
        pages: 1,
        room: 3,
        rounds: 1,
        searchers: 1,
        meshers: 1,
    },
    ..ALONE
};

#[test]
fn a_book_of_one_page_has_no_second(rt: HostRuntime) {
    let seen = played(&rt, &ONE_PAGE, None);
    check_count(&rt, seen.no_pages, 1);
    check_that(&rt, seen.report.taken == 1, "one page is taken");
}

/// A script of one read of an empty cell.
const ONE_READ: &[Part] = &[Part::Read(9, 1)];

/// A run in which each of two reads waits for the other read.
static TWO_READS: Course = Course {
    first: ONE_READ,
    second: Some(ONE_READ),
    events: &[Event::Reading(0, 0), Event::Reading(1, 0)],
    holds: &[
        Hold(Event::Reading(0, 0), &[Event::Reading(1, 0)], 0),
        Hold(Event::Reading(1, 0), &[Event::Reading(0, 0)], 0),
    ],
    scale: Scale {
        pages: 16,
        room: 8,
        rounds: 0,
        searchers: 1,
        meshers: 1,
    },
    ..ALONE
};

#[test]
fn two_scripts_read_at_once(rt: HostRuntime) {
    let seen = played(&rt, &TWO_READS, None);
    check_entries(&rt, &seen, (1, 1));
}

/// Fourteen of the cells 4 to 19, which name sixteen objects of the class 512. If the objects of these fourteen cells
/// are freed, two groups with one object each are left, and the two groups can be meshed.
const OF_SMALL_GROUPS: &[u8] = &[4, 5, 6, 7, 8, 9, 10, 13, 14, 15, 16, 17, 18, 19];

/// A run in which each of two meshers stops after a copy until the other mesher has made a copy too.
static TWO_COPIES: Course = Course {
    first: &[
        Part::Made(0, 4, 2048),
        Part::Freed(&[0, 3]),
        Part::Made(4, 20, 512),
        Part::Freed(OF_SMALL_GROUPS),
    ],
    events: &[
        Event::Called(0, 35),
        Event::Stepped(0, StepKind::Copy),
        Event::Stepped(1, StepKind::Copy),
    ],
    holds: &[
        Hold(Event::Searching, &[Event::Called(0, 35)], 0),
        Hold(
            Event::Stepped(0, StepKind::Copy),
            &[Event::Stepped(1, StepKind::Copy)],
            0,
        ),
        Hold(
            Event::Stepped(1, StepKind::Copy),
            &[Event::Stepped(0, StepKind::Copy)],
            0,
        ),
    ],
    scale: Scale {
        pages: 16,
        room: 64,
        rounds: 2,
        searchers: 1,
        meshers: 2,
    },
    ..ALONE
};

#[test]
fn two_meshers_copy_at_once(rt: HostRuntime) {
    let seen = played(&rt, &TWO_COPIES, None);
    check_entries(&rt, &seen, (36, 0));
    let Report { mapped, taken, .. } = seen.report;
    check_that(&rt, mapped == 4 && taken == 2, "each class is on one page");
}

/// A script that makes six groups with one object each. In three groups the object is in slot 0, in three in slot 1.
const SIX_GROUPS: &[Part] = &[Part::Made(0, 12, 2048), Part::Freed(&[1, 3, 5, 6, 8, 10])];

/// A run in which the search waits for the last command.
static SEARCH_BEHIND: Course = Course {
    first: SIX_GROUPS,
    events: &[Event::Called(0, 17)],
    holds: &[Hold(Event::Searching, &[Event::Called(0, 17)], 0)],
    ..ALONE
};

#[test]
fn every_pair_is_meshed(rt: HostRuntime) {
    let seen = played(&rt, &SEARCH_BEHIND, None);
    let report = Report {
        objects: 6,
        bytes: 12_288,
        mapped: 6,
        taken: 3,
        saved: 3,
    };
    check_that(&rt, seen.report == report, "three pages are saved");
}

/// A script that makes two groups with one object each, stores a byte into both objects, and reads the second object
/// four times.
const STORER: &[Part] = &[
    Part::Made(0, 4, 2048),
    Part::Freed(&[0, 3]),
    Part::Stored(1, 0xab),
    Part::Stored(2, 0xcd),
    Part::Read(2, 4),
];

/// A run in which the search waits for two groups, and the reads wait for the mesh.
static READ_AMID: Course = Course {
    first: READER,
    events: &[Event::Called(0, 5), Event::Begun(0)],
    holds: &[
        Hold(Event::Searching, &[Event::Called(0, 5)], 0),
        Hold(Event::Called(0, 5), &[Event::Begun(0)], 0),
    ],
    ..ALONE
};

/// The run `READ_AMID` with a mesher that makes no call. No mesh begins, so the reads wait for none.
static READ_WITHOUT: Course = Course {
    first: READER,
    events: &[Event::Called(0, 5)],
    holds: &[Hold(Event::Searching, &[Event::Called(0, 5)], 0)],
    ..ALONE
};

/// A run in which the search waits for the stores, and the reads wait for the mesh.
static STORE_BEFORE: Course = Course {
    first: STORER,
    events: &[Event::Called(0, 7), Event::Begun(0)],
    holds: &[
        Hold(Event::Searching, &[Event::Called(0, 7)], 0),
        Hold(Event::Called(0, 7), &[Event::Begun(0)], 0),
    ],
    ..ALONE
};

/// The run `STORE_BEFORE` with a mesher that makes no call. No mesh begins, so the reads wait for none.
static STORE_WITHOUT: Course = Course {
    first: STORER,
    events: &[Event::Called(0, 7)],
    holds: &[Hold(Event::Searching, &[Event::Called(0, 7)], 0)],
    ..ALONE
};

/// The result of a script whose mesher is abandoned.
#[derive(Clone, Copy)]
struct Left {
    // The number of the script's entries in the history.
    entries: usize,
    // The first bytes of the two objects.
    bytes: (u8, u8),
    // The number of steps of the mesh that were left.
    steps: u32,
}

/// Runs a course whose mesher is abandoned after this number of calls. Asserts that the result is `left`, and that
/// both objects keep their bytes when the mesh is finished.
fn check_abandoned<R: Abort + AllocGlobal + Clock + Threads + Wait + Sync>(
    rt: &R,
    course: &Course,
    calls: u32,
    left: Left,
) {
    let seen = played(rt, course, Some(calls));
    check_entries(rt, &seen, (left.entries, 0));
    check_that(rt, seen.bytes == Some(left.bytes), "both have their bytes");
    check_that(rt, seen.last_bytes == seen.bytes, "both keep their bytes");
    check_that(rt, seen.steps_left == left.steps, "steps are left");
}

/// Returns the number of steps that are left of a mesh of six steps after this number of a mesher's calls.
fn steps_after(calls: u32) -> u32 {
    match calls {
        0 => 0,
        _ => 7u32.saturating_sub(calls),
    }
}

#[test]
fn a_mesher_is_abandoned_after_each_call(rt: HostRuntime) {
    for calls in 0..8 {
        let course = if calls == 0 {
            &READ_WITHOUT
        } else {
            &READ_AMID
        };
        let left = Left {
            entries: 10,
            bytes: (0, 0),
            steps: steps_after(calls),
        };
        check_abandoned(&rt, course, calls, left);
    }
}

#[test]
fn a_mesher_is_abandoned_after_stores(rt: HostRuntime) {
    for calls in 0..8 {
        let course = if calls == 0 {
            &STORE_WITHOUT
        } else {
            &STORE_BEFORE
        };
        let left = Left {
            entries: 12,
            bytes: (0xab, 0xcd),
            steps: steps_after(calls),
        };
        check_abandoned(&rt, course, calls, left);
    }
}

/// A run in which a writer stores only once the page of its object is read-only.
static STORE_HELD_BACK: Course = Course {
    first: READER,
    second: Some(WRITER),
    events: &[
        Event::Called(0, 5),
        Event::Begun(0),
        Event::Stepped(0, StepKind::Protect),
    ],
    holds: &[
        Hold(Event::Searching, &[Event::Called(0, 5)], 0),
        Hold(Event::Called(0, 5), &[Event::Begun(0)], 0),
        Hold(
            Event::Called(1, 0),
            &[Event::Stepped(0, StepKind::Protect)],
            0,
        ),
    ],
    ..ALONE
};

#[test]
fn a_store_is_given_up(rt: HostRuntime) {
    let seen = played(&rt, &STORE_HELD_BACK, Some(2));
    check_entries(&rt, &seen, (10, 1));
}

/// Returns what a mesher counted: calls, pairs, meshes begun, pairs refused, meshes ended, steps refused, and pages.
fn counts_of(meshed: &Meshed) -> [u64; 7] {
    let MeshCounts {
        searches: _,
        pairs,
        begun,
        refused,
        ended,
        steps_refused,
        pages,
    } = meshed.counts;
    let calls = u64::from(meshed.calls);
    [calls, pairs, begun, refused, ended, steps_refused, pages]
}

/// Asserts that a run had one mesher, and that it counted this. Returns its rounds and its searches.
pub(crate) fn check_counts(rt: &impl Abort, meshers: &[Meshed], wanted: [u64; 7]) -> (u32, u64) {
    check_count(rt, meshers.len(), 1);
    let meshed = meshers.get(0).expect(rt, "a mesher");
    assert_eq!(rt; counts_of(meshed), wanted);
    (meshed.rounds, meshed.counts.searches)
}

/// Asserts that a worker made this number of attempts at a command that it gave up, and had this number of blocked
/// attempts.
fn check_attempts(rt: &impl Abort, workers: &[Worked], w: usize, tried: u32, blocked: u64) {
    let worked = workers.get(w).expect(rt, "a worker");
    check_that(rt, worked.tried == tried, "attempts at the last command");
    check_that(rt, worked.blocked == blocked, "blocked attempts");
}

#[test]
fn a_mesher_counts_what_it_did(rt: HostRuntime) {
    let script = script_of(&rt, SIX_GROUPS);
    let ran = ran_within(&rt, &SEARCH_BEHIND, &alone(&script), Limits::none());
    let made = check_counts(&rt, ran.meshers.as_slice(), [21, 3, 3, 0, 3, 0, 3]);
    check_that(&rt, made == (2, 2), "it searched in two rounds");
    check_attempts(&rt, ran.workers.as_slice(), 0, 0, 0);
}

#[test]
fn a_worker_counts_its_blocked_attempts(rt: HostRuntime) {
    let first = script_of(&rt, READER);
    let second = script_of(&rt, WRITER);
    let limits = Limits {
        calls: Some(2),
        tries: Some(TRIES),
    };
    let ran = ran_within(&rt, &STORE_HELD_BACK, &both(&first, &second), limits);
    check_counts(&rt, ran.meshers.as_slice(), [2, 1, 1, 0, 0, 0, 0]);
    check_attempts(&rt, ran.workers.as_slice(), 0, 0, 0);
    check_attempts(&rt, ran.workers.as_slice(), 1, 10, 10);
}
