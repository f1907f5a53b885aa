//! Calls of a heap and of a book, and their answers.

use mesh_steps::{Report, StepDone};
use model_words::{Refusal, StepKind};

/// Makes a mesher's call on a heap or a book, whose methods have the same names, and returns its answer.
macro_rules! mesher_answer {
    ($rt:expr, $of:expr, $call:expr) => {
        match $call {
            Call::Begin(source, destination) => left($of.begin(source, destination)),
            Call::BeginAlone(source, destination) => left($of.begin_alone(source, destination)),
            Call::Whole(source, destination) => freed($of.mesh_whole(source, destination)),
            Call::WholeAlone(source, destination) => freed($of.whole_alone(source, destination)),
            Call::Sweep(group) => freed($of.sweep(group)),
            Call::Report => reported($of.report()),
            Call::Step(size) => stepped($of.step(class_at($rt, size))),
            Call::Cancel(size) => left($of.cancel(class_at($rt, size))),
            Call::Running(size) => running($of.running(class_at($rt, size))),
            _ => UNMADE,
        }
    };
}

pub(crate) use mesher_answer;

/// A call of a heap. A call names an object by its serial, and a class by its slot size in bytes.
#[derive(Clone, Copy)]
pub(crate) enum Call {
    // Length in bytes, word.
    New(u32, u64),
    // Object, offset, number of bytes.
    Read(u32, u32, u32),
    // Object, offset, bytes.
    Write(u32, u32, &'static [u8]),
    // Written object and offset, read object and offset, number of bytes.
    Copy(u32, u32, u32, u32, u32),
    Peek(u32),
    Poke(u32, u8),
    Free(u32),
    // Source and destination, as in the other calls with two groups.
    Begin(u32, u32),
    BeginAlone(u32, u32),
    Step(u32),
    Cancel(u32),
    Whole(u32, u32),
    WholeAlone(u32, u32),
    Sweep(u32),
    Running(u32),
    Report,
}

impl Call {
    /// The name of the call, for failure messages.
    pub(crate) fn name(self) -> &'static str {
        match self {
            Call::New(_, _) => "New",
            Call::Read(_, _, _) => "Read",
            Call::Write(_, _, _) => "Write",
            Call::Copy(_, _, _, _, _) => "Copy",
            Call::Peek(_) => "Peek",
            Call::Poke(_, _) => "Poke",
            Call::Free(_) => "Free",
            Call::Begin(_, _) => "Begin",
            Call::BeginAlone(_, _) => "BeginAlone",
            Call::Step(_) => "Step",
            Call::Cancel(_) => "Cancel",
            Call::Whole(_, _) => "Whole",
            Call::WholeAlone(_, _) => "WholeAlone",
            Call::Sweep(_) => "Sweep",
            Call::Running(_) => "Running",
            Call::Report => "Report",
        }
    }

    /// The numbers of the call and the length of its bytes, for failure messages.
    pub(crate) fn numbers(self) -> [u64; 5] {
        match self {
            Call::New(len, word) => [len as u64, word, 0, 0, 0],
            Call::Read(serial, off, len) => [serial as u64, off as u64, len as u64, 0, 0],
            Call::Write(serial, off, bytes) => {
                [serial as u64, off as u64, bytes.len() as u64, 0, 0]
            },
            Call::Copy(to, to_off, from, from_off, len) => [
                to as u64,
                to_off as u64,
                from as u64,
                from_off as u64,
                len as u64,
            ],
            Call::Poke(addr, byte) => [addr as u64, byte as u64, 0, 0, 0],
            Call::Begin(source, destination)
            | Call::BeginAlone(source, destination)
            | Call::Whole(source, destination)
            | Call::WholeAlone(source, destination) => [source as u64, destination as u64, 0, 0, 0],
            Call::Peek(number)
            | Call::Free(number)
            | Call::Step(number)
            | Call::Cancel(number)
            | Call::Sweep(number)
            | Call::Running(number) => [number as u64, 0, 0, 0, 0],
            Call::Report => [0; 5],
        }
    }
}

/// The expected answer of a call.
#[derive(Clone, Copy)]
pub(crate) enum Answer {
    // The serial and the address of a new object.
    Made(u32, u32),
    // The number of bytes, and the bytes as a big-endian number.
    Bytes(usize, u64),
    Done,
    Blocked,
    // The number of steps left.
    Left(u32),
    Stepped(StepKind, u32),
    // The number of pages freed.
    Pages(u32),
    Runs(bool),
    // Objects, bytes, mapped, taken and saved pages.
    Counts(u32, u32, u32, u32, u32),
    Refused(Refusal),
}

impl Answer {
    /// The answer in the form that is compared.
    pub(crate) fn told(self) -> Told {
        match self {
            Answer::Made(serial, addr) => made(serial, addr),
            Answer::Bytes(len, number) => loaded(len, number),
            Answer::Done => DONE,
            Answer::Blocked => BLOCKED,
            Answer::Left(steps) => counted("Left", steps),
            Answer::Stepped(kind, left) => counted(name_of(kind), left),
            Answer::Pages(pages) => counted("Pages", pages),
            Answer::Runs(runs) => running(runs),
            Answer::Counts(objects, bytes, mapped, taken, saved) => reported(Report {
                objects,
                bytes,
                mapped,
                taken,
                saved,
            }),
            Answer::Refused(refusal) => refused(refusal),
        }
    }
}

/// An answer as its name and its numbers: the form that is compared and printed in failure messages.
pub(crate) type Told = (&'static str, [u64; 5]);

/// The answer of a store, a copy or a `free` that was done. `BLOCKED` is the answer of a store or a copy that was
/// blocked.
pub(crate) const DONE: Told = ("Done", [0; 5]);

pub(crate) const BLOCKED: Told = ("Blocked", [0; 5]);

/// The call ran out of memory.
pub(crate) const NO_MEMORY: Told = ("NoMemory", [0; 5]);

/// The call couldn't be made, so it has no answer.
pub(crate) const UNMADE: Told = ("Unmade", [0; 5]);

/// The answer of a `new`: an object with a serial, at an address.
pub(crate) fn made(serial: u32, addr: u32) -> Told {
    ("Made", [serial as u64, addr as u64, 0, 0, 0])
}

/// The answer of a load: the number of bytes, and the bytes as a big-endian number.
pub(crate) fn loaded(len: usize, number: u64) -> Told {
    ("Bytes", [len as u64, number, 0, 0, 0])
}

/// An answer that consists of a name and one number.
pub(crate) fn counted(name: &'static str, count: u32) -> Told {
    (name, [count as u64, 0, 0, 0, 0])
}

/// The answer of a refused call: the refusal's name and number.
pub(crate) fn refused(refusal: Refusal) -> Told {
    (refusal.name(), [refusal.number() as u64, 0, 0, 0, 0])
}

/// The answer of a call that returns whether a mesh runs.
pub(crate) fn running(runs: bool) -> Told {
    if runs {
        ("Runs", [0; 5])
    } else {
        ("Rests", [0; 5])
    }
}

/// The answer of a report: its five counts.
pub(crate) fn reported(report: Report) -> Told {
    (
        "Counts",
        [
            report.objects as u64,
            report.bytes as u64,
            report.mapped as u64,
            report.taken as u64,
            report.saved as u64,
        ],
    )
}

/// The answer of a call that returns the number of steps left.
pub(crate) fn left(steps: Result<u32, Refusal>) -> Told {
    match steps {
        Ok(steps) => counted("Left", steps),
        Err(refusal) => refused(refusal),
    }
}

/// The answer of a mesh's step: the kind of the step, and the number of steps left.
pub(crate) fn stepped(step: Result<StepDone, Refusal>) -> Told {
    match step {
        Ok(done) => counted(name_of(done.kind), done.left),
        Err(refusal) => refused(refusal),
    }
}

/// The answer of a call that returns the number of freed pages.
pub(crate) fn freed(pages: Result<u32, Refusal>) -> Told {
    match pages {
        Ok(pages) => counted("Pages", pages),
        Err(refusal) => refused(refusal),
    }
}

/// The name of a kind of step.
fn name_of(kind: StepKind) -> &'static str {
    match kind {
        StepKind::Protect => "Protect",
        StepKind::Copy => "Copy",
        StepKind::Remap => "Remap",
        StepKind::Unprotect => "Unprotect",
        StepKind::Release => "Release",
    }
}

/// Returns the last eight bytes as a big-endian number.
pub(crate) fn number(bytes: &[u8]) -> u64 {
    let mut number = 0;
    for byte in bytes {
        number = (number << 8) | u64::from(*byte);
    }
    number
}
