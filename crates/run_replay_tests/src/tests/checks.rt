//! Tests of `check`: recorded histories and the verdicts on them.
//!
//! The built program judges many more histories (`tools/test/cases/check.txt`, `overlaps.txt`).
ghost use Rattle.std.specs.Prelude.{◌≡◌, false};

use crate::tests::check;
use run_program::{Begun, Input, Source, check_run};
use run_tests::memory::{ROW_END, Ran, SlowSource, fields, in_memory};
use std::alloc::Global;
use std::process::Abort;

/// A history of calls that overlap, which an order explains.
const OVERLAPPING: &str =
    "history 2\n0 1 2 new 3 4 7 -> object 9 at 1000\n0 3 9 put 3 0 68 -> done\n1 4 5 get 3 0 1 -> bytes 00\n1 6 7 get 3 0 1 -> bytes 68\n";

/// A row with a history of calls in order, which the reference memory accepts: a name, the text of the history, and the
/// line of the verdict.
static IN_ORDER: &str =
    "bytes that were stored|history 1\n0 new 3 4 7 -> object 9 at 1000\n1 put 3 1 6869 -> done\n2 get 3 0 4 -> bytes 00686900\n|legal 3 entries\n";

/// Histories that the reference memory rejects, in rows like that of `IN_ORDER`.
static ILLEGAL: &str = "\
the new byte and then the old one|history 2\n0 1 2 new 3 4 7 -> object 9 at 1000\n0 3 9 put 3 0 68 -> done\n1 4 5 get 3 0 1 -> bytes 68\n1 6 7 get 3 0 1 -> bytes 00\n|line 5: no order explains bytes 00 of object 9 in cell 3, made at line 2; possible if it took effect last: bytes 68\n#\
another byte|history 1\n0 new 3 4 7 -> object 9 at 1000\n1 put 3 1 6869 -> done\n2 get 3 1 2 -> bytes 6868\n0 oops\n|line 4: answer differs: bytes 6868, wanted bytes 6869; byte 2 was last stored at line 3\n";

/// Texts that are no histories, in rows like that of `IN_ORDER`. The verdict names the line in which the text has its
/// fault.
static FAULTS: &str = "\
a worker that hasn't ended|history 2\n0 2 3 new 3 4 7 -> object 9 at 1000\n0 3 4 free 3 -> done\n|line 3: ORDER\n#\
a line that is cut off|history 1\n0 new 3 4 7 -> object 9 at 1000\n0 free 3 -> done|line 3: CUT\n";

/// Judges the history that a source contains.
fn judged<I: Source + Drop>(alloc: Global, input: I) -> Ran
    requires { I.has_failed input ≡ false }
{
    let mut devices = in_memory(alloc, Begun::new(input));
    let status = check_run(alloc, 1_000, &mut devices);
    Ran::of(status, devices)
}

/// Asserts the verdict on a history, which is read whole and byte by byte.
fn check_history(rt: &(impl Abort + AllocGlobal), name: &str, text: &str, line: &str, status: u8) {
    let run = judged(rt.alloc(), Input::new(text.as_bytes()));
    check(rt, run.told(line, status), &run, name);
    let slow = SlowSource::new(text.as_bytes(), text.len() + 1);
    let run = judged(rt.alloc(), slow);
    check(rt, run.told(line, status), &run, name);
}

/// Asserts the lines of the histories of a table, and the status of each run.
fn check_table(rt: &(impl Abort + AllocGlobal), table: &str, status: u8) {
    for row in table.split(ROW_END) {
        let (name, text, line) = fields(row);
        check_history(rt, name, text, line, status);
    }
}

#[test]
fn judges_a_history(rt: HostRuntime) {
    check_table(&rt, IN_ORDER, 0);
    check_history(&rt, "overlaps", OVERLAPPING, "linearizable 4 entries\n", 0);
    check_table(&rt, ILLEGAL, 3);
    check_table(&rt, FAULTS, 2);
}

#[test]
fn tells_a_read_that_fails(rt: HostRuntime) {
    for calls in [0, 1, OVERLAPPING.len()] {
        let run = judged(rt.alloc(), SlowSource::new(OVERLAPPING.as_bytes(), calls));
        check(&rt, run.wrote(b"", "read fault\n", 1), &run, calls);
    }
}
