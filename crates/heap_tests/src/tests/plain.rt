//! Tests of each call of the reference memory.

use arrayvec::ArrayVec;
use mesh_plain::{Plain, PlainFault};
use model_words::{Command, MAX_BYTES, Refusal, Reply};
use std::process::Abort;

/// A call of the reference memory. A call names an object by a cell.
#[derive(Clone, Copy)]
enum PlainCall {
    // Cell, length in bytes, address.
    Make(u8, u32, u32),
    // Cell, offset, bytes.
    Put(u8, u32, &'static [u8]),
    // Cell, offset, number of bytes, at most 32.
    Get(u8, u32, u32),
    // Written cell and offset, read cell and offset, number of bytes.
    Copy(u8, u32, u8, u32, u32),
    Alias(u8, u8),
    Free(u8),
    Addr(u8),
    Peek(u32),
    Poke(u32, u8),
}

/// The expected answer of a call.
#[derive(Clone, Copy)]
enum PlainAnswer {
    // The serial of a new object.
    Made(u32),
    Done,
    // The number of bytes, and the bytes as a big-endian number.
    Bytes(usize, u64),
    At(u32),
    Byte(u8),
    Fault(PlainFault),
}

impl PlainAnswer {
    /// The answer in the form that is compared.
    fn told(self) -> Told {
        match self {
            PlainAnswer::Made(serial) => counted("Made", serial),
            PlainAnswer::Done => DONE,
            PlainAnswer::Bytes(len, number) => loaded(len, number),
            PlainAnswer::At(address) => counted("At", address),
            PlainAnswer::Byte(byte) => counted("Byte", byte as u32),
            PlainAnswer::Fault(fault) => counted(name_of(fault), 0),
        }
    }
}

/// An answer as its name and its numbers: the form that is compared and printed in failure messages.
type Told = (&'static str, [u64; 2]);

/// The answer of a call that is done.
const DONE: Told = ("Done", [0; 2]);

/// An answer that consists of a name and one number.
fn counted(name: &'static str, count: u32) -> Told {
    (name, [u64::from(count), 0])
}

/// The answer of a load: the number of bytes, and the bytes as a big-endian number.
fn loaded(len: usize, number: u64) -> Told {
    ("Bytes", [len as u64, number])
}

/// The name of a fault.
fn name_of(fault: PlainFault) -> &'static str {
    match fault {
        PlainFault::Empty => "Empty",
        PlainFault::Freed => "Freed",
        PlainFault::Outside => "Outside",
        PlainFault::Stray => "Stray",
        PlainFault::Memory => "Memory",
    }
}

/// Makes a call, and returns its answer.
fn answer_of(rt: &impl Abort, plain: &mut Plain, call: PlainCall) -> Told {
    match call {
        PlainCall::Make(cell, len, address) => {
            assert!(rt; plain.next_serial() < u32::MAX);
            told("Made", plain.make(cell, len, address))
        },
        PlainCall::Get(cell, off, len) => {
            assert!(rt; len <= 32);
            got(plain.get(cell, off, len))
        },
        PlainCall::Put(cell, off, bytes) => done(plain.put(cell, off, bytes)),
        PlainCall::Copy(to, to_off, from, from_off, len) => {
            done(plain.copy(to, to_off, from, from_off, len))
        },
        PlainCall::Alias(to, from) => done(plain.alias(to, from)),
        PlainCall::Free(cell) => done(plain.free(cell)),
        PlainCall::Addr(cell) => told("At", plain.addr(cell)),
        PlainCall::Peek(address) => peeked(plain.peek(address)),
        PlainCall::Poke(address, byte) => done(plain.poke(address, byte)),
    }
}

/// Returns a call's result, a number or a fault, in the form that is compared.
fn told(name: &'static str, answer: Result<u32, PlainFault>) -> Told {
    match answer {
        Ok(number) => counted(name, number),
        Err(fault) => counted(name_of(fault), 0),
    }
}

/// Returns a call's result, nothing or a fault, in the form that is compared.
fn done(answer: Result<(), PlainFault>) -> Told {
    match answer {
        Ok(()) => DONE,
        Err(fault) => counted(name_of(fault), 0),
    }
}

/// Returns the result of a `peek` in the form that is compared.
fn peeked(answer: Result<u8, PlainFault>) -> Told {
    match answer {
        Ok(byte) => counted("Byte", byte as u32),
        Err(fault) => counted(name_of(fault), 0),
    }
}

/// Returns the result of a `get` in the form that is compared.
fn got(answer: Result<ArrayVec<u8, MAX_BYTES>, PlainFault>) -> Told {
    match answer {
        Ok(bytes) => loaded(bytes.len(), number(bytes.as_slice())),
        Err(fault) => counted(name_of(fault), 0),
    }
}

/// Returns the last eight bytes as a big-endian number.
fn number(bytes: &[u8]) -> u64 {
    bytes
        .iter()
        .fold(0, |number, byte| (number << 8) | u64::from(*byte))
}

/// Asserts that a memory answers each of these calls as expected, in order.
fn play(rt: &impl Abort, plain: &mut Plain, calls: &[(PlainCall, PlainAnswer)]) {
    for (place, (call, wanted)) in calls.iter().enumerate() {
        check(rt, answer_of(rt, plain, *call), wanted.told(), place);
    }
}

/// Asserts that the answer to the call at a place is the expected one.
fn check(rt: &impl Abort, told: Told, wanted: Told, place: usize) {
    assert_eq!(rt; told, wanted, "call {place}");
}

/// Asserts that a fresh memory answers each of these calls as expected, in order.
fn played(rt: &(impl Abort + AllocGlobal), calls: &[(PlainCall, PlainAnswer)]) {
    let mut plain = Plain::new(rt.alloc());
    play(rt, &mut plain, calls);
}

/// Asserts that a fresh memory answers each of these calls as expected once it has the two objects of `TWO_OBJECTS`.
fn played_on_two(rt: &(impl Abort + AllocGlobal), calls: &[(PlainCall, PlainAnswer)]) {
    let mut plain = Plain::new(rt.alloc());
    play_on_two(rt, &mut plain, calls);
}

/// Makes the two objects of `TWO_OBJECTS` in a fresh memory, and asserts that it then answers each call as expected.
fn play_on_two(rt: &impl Abort, plain: &mut Plain, calls: &[(PlainCall, PlainAnswer)]) {
    play(rt, plain, &TWO_OBJECTS);
    play(rt, plain, calls);
}

/// Calls that make two objects: cell 0 names the bytes 1 to 8 at 0x1000, cell 1 names the bytes 9 to 12 at 0x1010.
static TWO_OBJECTS: [(PlainCall, PlainAnswer); 4] = [
    (PlainCall::Make(0, 8, 0x1000), PlainAnswer::Made(0)),
    (PlainCall::Make(1, 4, 0x1010), PlainAnswer::Made(1)),
    (
        PlainCall::Put(0, 0, &[1, 2, 3, 4, 5, 6, 7, 8]),
        PlainAnswer::Done,
    ),
    (PlainCall::Put(1, 0, &[9, 10, 11, 12]), PlainAnswer::Done),
];

/// A new object in the last cell, and a read of its zeros.
static ZEROS: [(PlainCall, PlainAnswer); 2] = [
    (PlainCall::Make(255, 3, 0x1000), PlainAnswer::Made(0)),
    (PlainCall::Get(255, 0, 3), PlainAnswer::Bytes(3, 0)),
];

#[test]
fn a_new_object_is_of_zeros(rt: HostRuntime) {
    played(&rt, &ZEROS);
}

/// A store, and reads of both objects after it.
static STORED: [(PlainCall, PlainAnswer); 3] = [
    (PlainCall::Put(0, 6, &[20, 21]), PlainAnswer::Done),
    (
        PlainCall::Get(0, 0, 8),
        PlainAnswer::Bytes(8, 0x0102_0304_0506_1415),
    ),
    (PlainCall::Get(1, 0, 4), PlainAnswer::Bytes(4, 0x090a_0b0c)),
];

#[test]
fn bytes_are_stored_and_loaded(rt: HostRuntime) {
    played_on_two(&rt, &STORED);
}

/// Copies with overlapping ranges within one object, and a copy from one object to another.
static COPIED: [(PlainCall, PlainAnswer); 7] = [
    (PlainCall::Copy(0, 2, 0, 0, 5), PlainAnswer::Done),
    (
        PlainCall::Get(0, 0, 8),
        PlainAnswer::Bytes(8, 0x0102_0102_0304_0508),
    ),
    (PlainCall::Copy(0, 0, 0, 3, 4), PlainAnswer::Done),
    (
        PlainCall::Get(0, 0, 8),
        PlainAnswer::Bytes(8, 0x0203_0405_0304_0508),
    ),
    (PlainCall::Copy(1, 1, 0, 6, 2), PlainAnswer::Done),
    (PlainCall::Get(1, 0, 4), PlainAnswer::Bytes(4, 0x0905_080c)),
    (
        PlainCall::Get(0, 0, 8),
        PlainAnswer::Bytes(8, 0x0203_0405_0304_0508),
    ),
];

#[test]
fn bytes_are_copied_whole_before_one_is_stored(rt: HostRuntime) {
    played_on_two(&rt, &COPIED);
}

/// Loads and stores at addresses inside and outside the objects.
static ADDRESSES: [(PlainCall, PlainAnswer); 8] = [
    (PlainCall::Addr(1), PlainAnswer::At(0x1010)),
    (PlainCall::Peek(0x1000), PlainAnswer::Byte(1)),
    (PlainCall::Peek(0x1007), PlainAnswer::Byte(8)),
    (
        PlainCall::Peek(0x1008),
        PlainAnswer::Fault(PlainFault::Stray),
    ),
    (
        PlainCall::Peek(0x0fff),
        PlainAnswer::Fault(PlainFault::Stray),
    ),
    (PlainCall::Poke(0x1013, 77), PlainAnswer::Done),
    (
        PlainCall::Poke(0x1014, 77),
        PlainAnswer::Fault(PlainFault::Stray),
    ),
    (PlainCall::Get(1, 0, 4), PlainAnswer::Bytes(4, 0x090a_0b4d)),
];

#[test]
fn addresses_lead_to_bytes(rt: HostRuntime) {
    played_on_two(&rt, &ADDRESSES);
}

/// Calls on an object that two cells name, before it is freed and after.
static FREED: [(PlainCall, PlainAnswer); 8] = [
    (PlainCall::Alias(9, 0), PlainAnswer::Done),
    (
        PlainCall::Get(9, 0, 8),
        PlainAnswer::Bytes(8, 0x0102_0304_0506_0708),
    ),
    (PlainCall::Free(0), PlainAnswer::Done),
    (PlainCall::Free(0), PlainAnswer::Fault(PlainFault::Freed)),
    (PlainCall::Addr(9), PlainAnswer::Fault(PlainFault::Freed)),
    (
        PlainCall::Alias(1, 9),
        PlainAnswer::Fault(PlainFault::Freed),
    ),
    (PlainCall::Get(1, 0, 4), PlainAnswer::Bytes(4, 0x090a_0b0c)),
    (
        PlainCall::Peek(0x1000),
        PlainAnswer::Fault(PlainFault::Stray),
    ),
];

#[test]
fn a_freed_object_is_gone_from_each_cell(rt: HostRuntime) {
    played_on_two(&rt, &FREED);
}

/// Calls with one fault, and calls with two faults, of which the first counts.
static FAULTS: [(PlainCall, PlainAnswer); 10] = [
    (
        PlainCall::Put(0, 7, &[0, 0]),
        PlainAnswer::Fault(PlainFault::Outside),
    ),
    (
        PlainCall::Put(2, 7, &[0, 0]),
        PlainAnswer::Fault(PlainFault::Empty),
    ),
    (
        PlainCall::Get(1, 1, 4),
        PlainAnswer::Fault(PlainFault::Outside),
    ),
    (
        PlainCall::Alias(0, 2),
        PlainAnswer::Fault(PlainFault::Empty),
    ),
    (
        PlainCall::Copy(0, 0, 1, 2, 3),
        PlainAnswer::Fault(PlainFault::Outside),
    ),
    (
        PlainCall::Copy(1, 2, 0, 0, 3),
        PlainAnswer::Fault(PlainFault::Outside),
    ),
    (PlainCall::Free(0), PlainAnswer::Done),
    (
        PlainCall::Copy(0, 0, 2, 0, 1),
        PlainAnswer::Fault(PlainFault::Empty),
    ),
    (
        PlainCall::Copy(1, 9, 0, 0, 1),
        PlainAnswer::Fault(PlainFault::Freed),
    ),
    (PlainCall::Get(1, 0, 4), PlainAnswer::Bytes(4, 0x090a_0b0c)),
];

#[test]
fn faults_come_in_their_order(rt: HostRuntime) {
    played_on_two(&rt, &FAULTS);
}

/// Applies an entry of a journal to a memory. Asserts that the memory accepts the entry.
fn apply(rt: &impl Abort, plain: &mut Plain, command: &Command, reply: &Reply) {
    assert!(rt; plain.next_serial() < u32::MAX);
    assert!(rt; plain.apply(command, reply).is_ok());
}

/// Applies a journal to a memory. Afterwards cell 4 names an object of two bytes.
fn apply_entries(rt: &impl Abort, plain: &mut Plain) {
    let mut bytes = ArrayVec::new();
    bytes.push(5);
    let entries = [
        (Command::New(3, 2, 0), Reply::Object(0, 0x1000)),
        (Command::New(4, 0, 0), Reply::Refused(Refusal::Zero)),
        (Command::Put(3, 1, bytes), Reply::Done),
        (Command::Copy(3, 0, 3, 1, 1), Reply::Done),
        (Command::Poke(0x1001, 6), Reply::Done),
        (Command::Alias(4, 3), Reply::Done),
        (Command::Addr(4), Reply::At(0x1000)),
    ];
    for (command, reply) in &entries {
        apply(rt, plain, command, reply);
    }
}

/// Asserts that a memory answers a read as expected.
fn check_look(rt: &impl Abort, plain: &Plain, read: PlainCall, wanted: &Reply) {
    let reply = match read {
        PlainCall::Peek(address) => plain.look(&Command::Peek(address)),
        PlainCall::Get(cell, off, len) if 1 <= len && len <= 32 => {
            plain.look(&Command::Get(cell, off, len))
        }
        PlainCall::Addr(cell) => plain.look(&Command::Addr(cell)),
        _ => Reply::Done,
    };
    assert!(rt; reply == *wanted, "another reply");
}

/// Asserts the answers to reads after the journal is applied, and again after one more command.
fn check_applied(rt: &impl Abort, plain: &mut Plain) {
    apply_entries(rt, plain);
    play(
        rt,
        plain,
        &[(PlainCall::Get(4, 0, 2), PlainAnswer::Bytes(2, 0x0506))],
    );
    check_look(rt, plain, PlainCall::Peek(0x1000), &Reply::Byte(5));
    check_look(rt, plain, PlainCall::Addr(3), &Reply::At(0x1000));
    check_refusal(rt, plain, PlainCall::Get(3, 1, 2), Refusal::Outside);
    apply(rt, plain, &Command::Free(4), &Reply::Done);
    check_refusal(rt, plain, PlainCall::Addr(3), Refusal::Freed);
}

/// Asserts that a memory refuses a read with this refusal.
fn check_refusal(rt: &impl Abort, plain: &Plain, read: PlainCall, refusal: Refusal) {
    check_look(rt, plain, read, &Reply::Refused(refusal));
}

#[test]
fn a_journal_is_applied(rt: HostRuntime) {
    let mut plain = Plain::new(rt.alloc());
    check_applied(&rt, &mut plain);
}
