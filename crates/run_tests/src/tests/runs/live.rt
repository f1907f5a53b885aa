//! Tests of live sessions, in which lines are answered one by one.
//!
//! The built program answers more sessions (`tools/test/cases/live.txt`, `tools/test/cli/live.py`).
ghost use Rattle.std.specs.Prelude.{◌≡◌, false};

use crate::memory::{Ran, SlowSource, in_memory};
use crate::tests::check;
use run_program::{Input, LiveArgs, Source, live_run};
use std::alloc::Global;

/// The lines of a session, three of which have a fault. `ANSWERS` has their answers.
const ASKED: &str =
    "run 0 new 0 2048 0\nrun 0\nrun 1 get 0 0 1\nrun 0 put 0 0 68\nrun 0 get 0 0 2\nstep\nreport\n";

const ANSWERS: &str =
    "object 0 at 1000\nfault WORD\nfault NUMBER\ndone\nbytes 6800\nfault WORD\nreport objects 1 bytes 2048 mapped 1 taken 1 saved 0\n";

/// Answers the lines that a source contains.
fn answered<I: Source + Drop>(alloc: Global, input: I) -> Ran
    requires { I.has_failed input ≡ false }
{
    let sizes = LiveArgs {
        pages: 16,
        history: 64,
        workers: 1,
    };
    let mut devices = in_memory(alloc, input);
    let status = live_run(alloc, &sizes, &mut devices);
    Ran::of(status, devices)
}

#[test]
fn answers_each_line(rt: HostRuntime) {
    let run = answered(rt.alloc(), Input::new(ASKED.as_bytes()));
    check(&rt, run.told(ANSWERS, 0), &run, "a session");
    let slow = SlowSource::new(ASKED.as_bytes(), ASKED.len() + 1);
    let run = answered(rt.alloc(), slow);
    check(&rt, run.told(ANSWERS, 0), &run, "a session, byte by byte");
}

/// The lines that were read before the source fails have their answers.
#[test]
fn tells_a_read_that_fails(rt: HostRuntime) {
    let input = SlowSource::new(ASKED.as_bytes(), ASKED.len());
    let run = answered(rt.alloc(), input);
    let goes = run.wrote(ANSWERS.as_bytes(), "read fault\n", 1);
    check(&rt, goes, &run, "a read fault");
}
