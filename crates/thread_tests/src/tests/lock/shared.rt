//! Tests of a shared book: its seats, its settled history, and threads that use it.
ghost use Rattle.std.specs.Prelude.{◌≤◌, length};
ghost use Rattle.model_words.specs.Commands.{IsInRange};

use crate::tests::lock::calls::{Answer, Call, GROUPS, command_of, reply_of};
use crate::tests::{check_count, check_that};
use arrayvec::ArrayVec;
use mesh_class::{Class, class_of};
use mesh_lock::{FinishError, Seat, Shared};
use mesh_mutator::{Attempt, Book, Command, Reply};
use mesh_steps::Report;
use model_words::{Refusal, StepKind};
use std::alloc::{AllocError, Global};
use std::process::Abort;
use std::rt::Clock;
use std::sync::Wait;
use std::sync::atomic::AtomicBool;
use std::sync::atomic::Ordering::SeqCst;
use std::thread;
use std::thread::{Threads, join};
use std::time::Duration;

/// Returns a book with this number of pages and a journal of this capacity, behind a lock. The book has one seat for
/// each of the counts. A seat's count is the number of calls that the seat has room for.
fn opened(
    rt: &(impl Abort + AllocGlobal),
    pages: u32,
    entries: u32,
    counts: &[usize],
) -> (Shared, Vec<Seat>)
    requires some_pages { 1 ≤ pages }
    requires most { pages ≤ 4096 }
    requires few_entries { entries ≤ 65536 }
    requires some { 1 ≤ length counts.now }
    requires few { length counts.now ≤ 64 }
{
    let book = Book::open(rt.alloc(), pages, entries).expect(rt, "memory");
    Shared::open(rt.alloc(), book, counts).expect(rt, "memory")
}

/// A way to use a book behind a lock and its seats.
#[derive(Clone, Copy)]
enum Usage {
    // Two threads make an object each, and read it back.
    Threads,
    // An object gets a second name, by which it is read.
    Alias,
    // A mesh is begun and cancelled, and an empty group swept.
    Mesher,
    // A store is blocked by a mesh.
    HeldBack,
    // A seat makes more calls than the journal has room for.
    Full,
    // Each of two readers waits for the other reader.
    Readers,
}

impl Usage {
    /// The number of calls that each seat has room for, by seat.
    fn counts(self) -> &'static [usize]
        ensures some { 1 ≤ length result.now }
        ensures few { length result.now ≤ 64 }
    {
        match self {
            Usage::Threads | Usage::Alias => &[4, 4],
            Usage::Mesher | Usage::HeldBack => &[16],
            Usage::Full => &[4],
            Usage::Readers => &[1],
        }
    }

    /// Uses the book in this way.
    fn of<R: Abort + Clock + Threads + Wait + Sync>(
        self,
        rt: &R,
        alloc: Global,
        shared: &Shared,
        seats: &mut [Seat],
    ) {
        match (self, seats) {
            (Usage::Threads, [first, second]) => work_beside(rt, shared, first, second),
            (Usage::Alias, [first, _]) => read_by_alias(rt, shared, first),
            (Usage::Mesher, [seat]) => take_the_lock(rt, alloc, shared, seat),
            (Usage::HeldBack, [seat]) => hold_back(rt, shared, seat),
            (Usage::Full, [seat]) => fill(rt, shared, seat),
            (Usage::Readers, _) => meet(rt, shared),
            _ => assert!(rt; false, "another count of seats"),
        }
    }
}

/// The result of a finished book.
#[derive(Drop)]
struct Closed {
    // The number of entries of the history.
    entries: usize,
    // The counts of the heap.
    report: Report,
}

/// Opens a book with this number of pages and a journal of this capacity, uses it, and finishes it.
fn used<R: Abort + AllocGlobal + Clock + Threads + Wait + Sync>(
    rt: &R,
    pages: u32,
    entries: u32,
    usage: Usage,
) -> Closed
    requires some { 1 ≤ pages }
    requires most { pages ≤ 4096 }
    requires few { entries ≤ 65536 }
{
    let (shared, mut seats) = opened(rt, pages, entries, usage.counts());
    usage.of(rt, rt.alloc(), &shared, seats.as_mut_slice());
    finished(rt, shared, seats)
}

/// Finishes a book. Asserts that the result is a history.
fn finished(rt: &(impl Abort + AllocGlobal), shared: Shared, seats: Vec<Seat>) -> Closed {
    let ended = shared.finish(rt.alloc(), seats).expect(rt, "a history");
    Closed {
        entries: ended.history.len(),
        report: ended.heap.report(),
    }
}

/// Returns a `New` of 2,048 bytes in a cell.
fn new_object(cell: u8) -> Command
    ensures { IsInRange result }
{
    Command::New(cell, 2048, 0)
}

/// Returns a `Get` of the first two bytes of the object that a cell names.
fn get_bytes(cell: u8) -> Command
    ensures { IsInRange result }
{
    Command::Get(cell, 0, 2)
}

/// The work of one thread: makes an object, stores two bytes, and returns whether a load returns them.
fn works<R: Wait>(rt: &R, shared: &Shared, seat: &mut Seat, cell: u8) -> bool {
    let mut bytes = ArrayVec::new();
    bytes.push(0x68);
    bytes.push(0x69);
    shared.retry_call(rt, seat, &new_object(cell));
    shared.retry_call(rt, seat, &Command::Put(cell, 0, bytes));
    match shared.retry_call(rt, seat, &get_bytes(cell)) {
        Attempt::Done(Reply::Bytes(found)) => found.as_slice() == [0x68, 0x69].as_slice(),
        _ => false,
    }
}

/// Runs the work of two threads at the same time, and asserts that both succeed.
fn work_beside<R: Abort + Threads + Wait + Sync>(
    rt: &R,
    shared: &Shared,
    first: &mut Seat,
    second: &mut Seat,
) {
    let (a, b) = join(
        rt,
        || works(rt, shared, first, 0),
        || works(rt, shared, second, 1),
    );
    check_that(rt, a && b, "each reads its bytes");
}

#[test]
fn two_threads_share_a_book(rt: HostRuntime) {
    check_count(&rt, used(&rt, 16, 64, Usage::Threads).entries, 6);
}

/// Asserts that a command of a seat is done with this answer.
fn check(
    rt: &(impl Abort + Wait),
    shared: &Shared,
    seat: &mut Seat,
    call: Call,
    answer: Answer,
    name: &str,
) {
    let command = command_of(rt, call);
    let attempt = shared.call(rt, seat, &command);
    let wanted = Attempt::Done(reply_of(rt, answer));
    assert!(rt; attempt == wanted, "of {command:?}, {name}");
}

/// The book that a call of a test goes to.
#[derive(Clone, Copy)]
enum Asked {
    // The book that is finished.
    Own,
    // The other book.
    Other,
}

/// One call before a book is finished: the book that the call goes to, the place of the seat that makes it, and the
/// call with its answer. The finished book's seats have the places 0 and 1, the other book's seats the places from 2
/// on.
type Turn = (Asked, usize, (Call, Answer));

/// A `New` in cell 0 as the first call of a book, with its answer.
const MADE: (Call, Answer) = (Call::New(0, 2048), Answer::Object(0, 0x1000));

/// A load of the first two bytes of the object in cell 0, with its answer.
const READ: (Call, Answer) = (Call::Get(0, 0, 2), Answer::Bytes(&[0, 0]));

/// A `Free` by cell 0 as the first call of a book, with its answer.
const NOT_FREED: (Call, Answer) = (Call::Free(0), Answer::Refused(Refusal::Empty));

/// The book beside the one that is finished.
#[derive(Clone, Copy)]
enum Beside {
    // It has two seats.
    Two,
    // It has three seats.
    Three,
}

impl Beside {
    /// The number of calls that each seat has room for, by seat.
    fn counts(self) -> &'static [usize]
        ensures some { 1 ≤ length result.now }
        ensures few { length result.now ≤ 64 }
    {
        match self {
            Beside::Two => &[4, 4],
            Beside::Three => &[4, 4, 4],
        }
    }
}

/// Cases by name: the other book, the calls before a book is finished, the places of the seats that `finish` gets, and
/// the fault that it returns.
static MISFITS: [(&str, Beside, &[Turn], &[usize], FinishError); 8] = [
    (
        "an entry of no call of seat 0",
        Beside::Two,
        &[(Asked::Own, 2, MADE)],
        &[0, 1],
        FinishError::SeatDiffers { seat: 0, call: 0 },
    ),
    (
        "seats in the other order",
        Beside::Two,
        &[],
        &[1, 0],
        FinishError::SeatMissing(0),
    ),
    (
        "one seat of two",
        Beside::Two,
        &[],
        &[0],
        FinishError::SeatMissing(1),
    ),
    (
        "one seat more",
        Beside::Two,
        &[],
        &[0, 1, 2],
        FinishError::SeatMissing(2),
    ),
    (
        "an entry of a worker without a seat",
        Beside::Three,
        &[(Asked::Own, 4, MADE)],
        &[0, 1],
        FinishError::SeatMissing(2),
    ),
    (
        "a call that stands in another journal",
        Beside::Two,
        &[(Asked::Other, 0, MADE), (Asked::Other, 0, READ)],
        &[0, 1],
        FinishError::SeatDiffers { seat: 0, call: 0 },
    ),
    (
        "a read that saw another journal",
        Beside::Two,
        &[(Asked::Other, 3, MADE), (Asked::Other, 0, READ)],
        &[0, 1],
        FinishError::ReadDiffers { seat: 0, call: 0 },
    ),
    (
        "a read with another book's answer, after as many entries",
        Beside::Two,
        &[
            (Asked::Own, 1, NOT_FREED),
            (Asked::Other, 3, MADE),
            (Asked::Other, 0, READ),
        ],
        &[0, 1],
        FinishError::ReadDiffers { seat: 0, call: 0 },
    ),
];

/// Returns the seats of two books in one list, in which each seat's index is its place.
fn placed(rt: &(impl Abort + AllocGlobal), own: Vec<Seat>, other: Vec<Seat>) -> Vec<Option<Seat>> {
    let mut places = Vec::new(rt.alloc());
    add_seats(rt, &mut places, own);
    add_seats(rt, &mut places, other);
    places
}

/// Adds seats to a list of places.
fn add_seats(rt: &impl Abort, places: &mut Vec<Option<Seat>>, seats: Vec<Seat>) {
    for seat in seats {
        places.push(Some(seat)).expect(rt, "memory");
    }
}

/// Makes the call of a turn.
fn take_turn(
    rt: &(impl Abort + Wait),
    own: &Shared,
    other: &Shared,
    places: &mut [Option<Seat>],
    turn: &Turn,
    name: &str,
) {
    let (asked, place, (call, answer)) = turn;
    let book = match asked {
        Asked::Own => own,
        Asked::Other => other,
    };
    let seat = places.get_mut(*place).expect(rt, "a place").as_mut();
    check(rt, book, seat.expect(rt, "a seat"), *call, *answer, name);
}

/// Removes the seats at these places from the list, and returns them. Asserts that there is a seat at each place.
fn taken(
    rt: &(impl Abort + AllocGlobal),
    places: &mut [Option<Seat>],
    handed: &[usize],
) -> Vec<Seat> {
    let mut seats = Vec::new(rt.alloc());
    for place in handed {
        let seat = places.get_mut(*place).expect(rt, "a place").take();
        seats.push(seat.expect(rt, "a seat")).expect(rt, "memory");
    }
    seats
}

/// Opens two books, makes the calls of these turns, and calls `finish` with the seats at these places. Returns the
/// fault that `finish` returns.
fn told(
    rt: &(impl Abort + AllocGlobal + Wait),
    beside: Beside,
    turns: &[Turn],
    handed: &[usize],
    name: &str,
) -> FinishError {
    let (own, own_seats) = opened(rt, 16, 64, &[4, 4]);
    let (other, other_seats) = opened(rt, 16, 64, beside.counts());
    let mut places = placed(rt, own_seats, other_seats);
    for turn in turns {
        take_turn(rt, &own, &other, places.as_mut_slice(), turn, name);
    }
    let seats = taken(rt, places.as_mut_slice(), handed);
    fault_of(rt, own, seats)
}

/// Returns the fault that `finish` returns for this book and these seats. Asserts that there is a fault.
fn fault_of(rt: &(impl Abort + AllocGlobal), shared: Shared, seats: Vec<Seat>) -> FinishError {
    let ended = shared.finish(rt.alloc(), seats);
    ended.err().expect(rt, "a fault")
}

#[test]
fn seats_that_do_not_fit_are_told(rt: HostRuntime) {
    for (name, beside, turns, handed, fault) in MISFITS.iter() {
        let error = told(&rt, *beside, turns, handed, name);
        assert!(&rt; error == *fault, "of {name}: {error}");
    }
}

/// Calls that make an object, name it by a second cell, and load its bytes by that cell.
static ALIASED: [(Call, Answer); 3] = [
    (Call::New(0, 2048), Answer::Object(0, 0x1000)),
    (Call::Alias(1, 0), Answer::Done),
    (Call::Get(1, 0, 2), Answer::Bytes(&[0, 0])),
];

/// Asserts that a seat gets the expected answers to the calls of `ALIASED`.
fn read_by_alias(rt: &(impl Abort + Wait), shared: &Shared, seat: &mut Seat) {
    for (call, answer) in ALIASED.iter() {
        check(rt, shared, seat, *call, *answer, "an alias");
    }
}

#[test]
fn reads_come_into_the_history(rt: HostRuntime) {
    check_count(&rt, used(&rt, 16, 64, Usage::Alias).entries, 3);
}

/// Makes two groups of the class 2,048, each with one object, for a mesher.
fn set_up(rt: &(impl Abort + Wait), shared: &Shared, seat: &mut Seat) -> Class {
    for call in GROUPS.iter() {
        shared.call(rt, seat, &command_of(rt, *call));
    }
    class_of(2048).expect(rt, "a class")
}

/// A call of a mesher.
#[derive(Clone, Copy)]
enum Meshing {
    // Source, destination.
    Begin(u32, u32),
    Step,
    Cancel,
    // Group.
    Sweep(u32),
}

impl Meshing {
    fn name(self) -> &'static str {
        match self {
            Meshing::Begin(_, _) => "Begin",
            Meshing::Step => "Step",
            Meshing::Cancel => "Cancel",
            Meshing::Sweep(_) => "Sweep",
        }
    }
}

/// Makes a mesher's call under the lock, and returns two values. The first is the kind of the step, or `None` if the
/// call isn't a step. The second is the number of steps left or, for a sweep, the number of pages freed. The error is
/// the refusal of the call.
fn meshed(
    rt: &impl Wait,
    shared: &Shared,
    class: Class,
    meshing: Meshing,
) -> Result<(Option<StepKind>, u32), Refusal> {
    let mut book = shared.book.write(rt);
    match meshing {
        Meshing::Begin(source, destination) => Ok((None, book.begin(source, destination)?)),
        Meshing::Step => {
            let done = book.step(class)?;
            Ok((Some(done.kind), done.left))
        },
        Meshing::Cancel => Ok((None, book.cancel(class)?)),
        Meshing::Sweep(group) => Ok((None, book.sweep(group)?)),
    }
}

/// The calls of a mesh that is begun and cancelled, with their results.
static CANCELLED: [(Meshing, Option<StepKind>, u32); 4] = [
    (Meshing::Begin(1, 0), None, 6),
    (Meshing::Step, Some(StepKind::Protect), 5),
    (Meshing::Cancel, None, 1),
    (Meshing::Step, Some(StepKind::Unprotect), 0),
];

/// The sweep of an empty group, which frees one page.
static SWEPT: [(Meshing, Option<StepKind>, u32); 1] = [(Meshing::Sweep(0), None, 1)];

/// Asserts that a mesher's calls have the expected results. The lock is taken separately for each call.
fn play(
    rt: &(impl Abort + Wait),
    shared: &Shared,
    class: Class,
    calls: &[(Meshing, Option<StepKind>, u32)],
) {
    for (meshing, kind, count) in calls {
        let answer = meshed(rt, shared, class, *meshing);
        check_that(rt, answer == Ok((*kind, *count)), meshing.name());
    }
}

/// Whether group 1 is the only candidate of a search.
fn has_one_group<R: Wait>(
    rt: &R,
    alloc: Global,
    shared: &Shared,
    class: Class,
) -> Result<bool, AllocError> {
    let view = shared.book.read(rt).view(alloc, class)?;
    Ok(view.len() == 1 && view.number(0) == 1)
}

/// Begins and cancels a mesh, then empties a group and sweeps it.
fn take_the_lock(rt: &(impl Abort + Wait), alloc: Global, shared: &Shared, seat: &mut Seat) {
    let class = set_up(rt, shared, seat);
    play(rt, shared, class, &CANCELLED);
    shared.call(rt, seat, &Command::Free(1));
    play(rt, shared, class, &SWEPT);
    let left = has_one_group(rt, alloc, shared, class).expect(rt, "memory");
    check_that(rt, left, "group 1 is the only one");
}

#[test]
fn a_mesher_takes_the_lock(rt: HostRuntime) {
    let report = Report {
        objects: 1,
        bytes: 2048,
        mapped: 1,
        taken: 1,
        saved: 0,
    };
    let closed = used(&rt, 16, 64, Usage::Mesher);
    check_that(&rt, closed.report == report, "one object is left");
}

/// Stores into an object on a read-only page, and asserts that the store is blocked.
fn hold_back(rt: &(impl Abort + Wait), shared: &Shared, seat: &mut Seat) {
    let class = set_up(rt, shared, seat);
    let before = shared.book.read(rt).running(class);
    play(rt, shared, class, &CANCELLED[..2]);
    let behind = shared.book.read(rt).running(class);
    check_that(rt, !before && behind, "a mesh runs, and none did");
    let put = command_of(rt, Call::Put(2, 0, &[0x68]));
    let stored = shared.call(rt, seat, &put);
    check_that(rt, stored == Attempt::Blocked, "the store is held back");
    check_that(rt, seat.calls().len() == 6, "and isn't kept");
}

#[test]
fn a_call_tells_that_it_is_held_back(rt: HostRuntime) {
    check_count(&rt, used(&rt, 16, 64, Usage::HeldBack).entries, 6);
}

/// Three objects of half a page in an arena of one page: the third one is refused.
static HALF_PAGES: [(Call, Answer); 3] = [
    (Call::New(0, 2048), Answer::Object(0, 0x1000)),
    (Call::New(1, 2048), Answer::Object(1, 0x1800)),
    (Call::New(2, 2048), Answer::Refused(Refusal::NoPages)),
];

/// Makes one call more than the journal has room for.
fn fill(rt: &(impl Abort + Wait), shared: &Shared, seat: &mut Seat) {
    for (call, answer) in HALF_PAGES.iter() {
        check(rt, shared, seat, *call, *answer, "one page");
    }
    let fourth = shared.call(rt, seat, &new_object(3));
    let is_full = fourth == Attempt::HistoryFull;
    check_that(rt, is_full, "there is room for three entries");
}

#[test]
fn the_book_is_the_one_handed_in(rt: HostRuntime) {
    check_count(&rt, used(&rt, 1, 3, Usage::Full).entries, 3);
}

/// The greatest number of times that a reader checks whether the other reader has the lock too. `TURN` is the reader's
/// sleep after each check, in microseconds.
const TURNS: u32 = 1_000_000;

const TURN: u64 = 10;

/// Takes the lock for reading, and keeps the lock until another reader has it too, or until `TURNS` checks were made.
/// Returns whether the other reader took the lock in this time, and the journal is empty.
fn meets<R: Clock + Wait>(rt: &R, shared: &Shared, own: &AtomicBool, other: &AtomicBool) -> bool {
    let book = shared.book.read(rt);
    own.store(true, SeqCst);
    for _ in 0..TURNS {
        if other.load(SeqCst) {
            return book.journal().is_empty();
        }
        thread::sleep(rt, Duration::from_micros(TURN));
    }
    false
}

/// Runs two readers, and asserts that both have the lock at the same time.
fn meet<R: Abort + Clock + Threads + Wait + Sync>(rt: &R, shared: &Shared) {
    let first = AtomicBool::new(false);
    let second = AtomicBool::new(false);
    let (a, b) = join(
        rt,
        || meets(rt, shared, &first, &second),
        || meets(rt, shared, &second, &first),
    );
    check_that(rt, a && b, "both hold the lock");
}

#[test]
fn two_reads_run_at_once(rt: HostRuntime) {
    check_count(&rt, used(&rt, 16, 64, Usage::Readers).entries, 0);
}
