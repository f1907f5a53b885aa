//! Tests of `savings`: recorded histories, and what meshing would save for them.
//!
//! The expected table was printed by another engine (`tools/engines/savings`). The built program reports on more
//! histories (`tools/test/cases/savings.txt`, `histories/savings`).
ghost use Rattle.std.specs.Prelude.{◌≡◌, false};

use crate::tests::check;
use run_program::{FiguresForm, Input, RoundsAsked, SavingsArgs, Source, savings_run};
use run_tests::memory::{Ran, SlowSource, in_memory};
use std::alloc::Global;
use std::process::Abort;

/// A history of four objects of half a page, of which two are freed. `TABLE` has its table.
const HISTORY: &str =
    "history 1\n0 new 0 2048 0 -> object 0 at 1000\n0 new 1 2048 0 -> object 1 at 2000\n0 new 2 2048 0 -> object 2 at 3000\n0 new 3 2048 0 -> object 3 at 4000\n0 alias 4 3 -> done\n0 free 0 -> done\n0 free 4 -> done\n";

const TABLE: &str =
    "calls 7  objects at most 4  above 2048: 0, not meshed\npages              without     with  saved  perfect  live bytes  above 2048  of all\npeak                     2        2   0.0%        2           2           0    0.0%\nmean of calls            2        2   0.0%        2           2           0    0.0%\nmost live                2        2   0.0%        2           2           0    0.0%\nend                      2        1  50.0%        1           1           0   50.0%\nmost saved  1 of 2 pages (50.0%) at call 7, live bytes 1  most live at call 4\nempty spans  peak 0 -> 0  mean 0 -> 0  end 0 -> 0\nmeshes 1  refused 0  copied 0.0 MB  rounds 1  tries 1  virtual pages 2\nclass 2048  mean     2 ->     2  perfect     2  end     2 ->     1  perfect     1\n";

/// A text with a fault.
const FAULTY: &str = "history 1\n0 run 3 -> done\n0 free 3 -> done\n";

/// A text whose calls are not a history.
const NO_HISTORY: &str = "history 1\n0 new 3 4 7 -> object 9 at 1000\n0 free 4 -> done\n0 run 3\n";

/// Returns arguments by which every second `free` is followed by a round of meshing, with random words from seed 3.
fn args(form: FiguresForm) -> SavingsArgs {
    SavingsArgs {
        rounds: RoundsAsked::Every(2),
        members: 8,
        probe: 64,
        seed: Some(3),
        from: 1,
        to: u32::MAX,
        form,
    }
}

/// Reports on the history that a source contains.
fn reported<I: Source + Drop>(alloc: Global, input: I, form: FiguresForm) -> Ran
    requires { I.has_failed input ≡ false }
{
    let mut devices = in_memory(alloc, input);
    let status = savings_run(alloc, "-", &args(form), &mut devices);
    Ran::of(status, devices)
}

/// Asserts what a report on a history prints, and the status. The history is read whole and byte by byte.
fn check_report(rt: &(impl Abort + AllocGlobal), text: &str, table: &str, line: &str, status: u8) {
    let run = reported(rt.alloc(), Input::new(text.as_bytes()), FiguresForm::Table);
    check(rt, run.wrote(table.as_bytes(), line, status), &run, line);
    let slow = SlowSource::new(text.as_bytes(), text.len() + 1);
    let run = reported(rt.alloc(), slow, FiguresForm::Table);
    check(rt, run.wrote(table.as_bytes(), line, status), &run, line);
}

#[test]
fn tells_what_meshing_saves(rt: HostRuntime) {
    check_report(&rt, HISTORY, TABLE, "", 0);
    check_report(&rt, FAULTY, "", "line 2: WORD\n", 2);
    check_report(&rt, NO_HISTORY, "", "line 3: not a history\n", 2);
}

#[test]
fn a_fault_of_the_input_is_told(rt: HostRuntime) {
    let input = SlowSource::new(b"history 1\n0 free 0 -> refused 5 EMPTY\n", 9);
    let run = reported(rt.alloc(), input, FiguresForm::Table);
    check(&rt, run.wrote(b"", "read fault\n", 1), &run, "a read fault");
}

#[test]
fn draws_what_meshing_saves(rt: HostRuntime) {
    let text = b"history 1\n0 new 0 16 0 -> object 0 at 1000\n";
    let run = reported(rt.alloc(), Input::new(text.as_slice()), FiguresForm::Plot);
    let picture = run.output.as_slice();
    let is_svg = picture.starts_with(b"<svg") && picture.ends_with(b"</svg>\n");
    check(&rt, is_svg && run.status == 0, &run, "a plot");
}
