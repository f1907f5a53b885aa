//! Tests of explorations in memory.
//!
//! The built program explores more jobs (`tools/test/cases/explore.txt`, `jobs/explore`).
ghost use Rattle.std.specs.Prelude.{◌≡◌, false};

use crate::memory::{Ran, SlowSource, in_memory};
use crate::tests::check;
use run_program::{Args, Criteria, Input, Source, Told, Unwatched, explore_run, request};
use std::process::Abort;

/// The job file of a small exploration, which has 64 states and two outcomes.
const STORE_FILE: &str =
    "mesh 1\npages 16\nhistory 64\nworkers 2\nworker 0\nnew 0 2048 0\nnew 1 2048 0\nnew 2 2048 0\nnew 3 2048 0\nfree 0\nfree 3\nput 2 0 aa\nget 2 0 1\nworker 1\nget 2 0 1\nplan\nrun 0\nrun 0\nrun 0\nrun 0\nrun 0\nrun 0\nend\n";

/// The expected job file that leads to the second outcome of the small exploration.
const SECOND: &str =
    "mesh 1\npages 16\nhistory 64\nworkers 2\nworker 0\nnew 0 2048 0\nnew 1 2048 0\nnew 2 2048 0\nnew 3 2048 0\nfree 0\nfree 3\nput 2 0 aa\nget 2 0 1\nworker 1\nget 2 0 1\nplan\nrun 0\nrun 0\nrun 0\nrun 0\nrun 0\nrun 0\nrun 1\nrun 0\nbegin 1 0\nstep\nstep\nstep\nstep\nstep\nstep\nrun 0\nend\n";

/// The outcomes of the small exploration, as the expected outcomes of a verdict.
const LISTED: &str =
    "  worker 0: done | bytes aa\n  worker 1: bytes aa\n\n  worker 0: done | bytes aa\n  worker 1: bytes 00\n";

/// The verdict on the small exploration if its second outcome is forbidden.
const FORBIDDEN: &str =
    "never 1: 1 of 2 outcomes\noutcome 1 of 44 interleavings\n  worker 0: done | bytes aa\n  worker 1: bytes 00\n  end: mesh 1:0 over\n  plan: run 1, run 0, begin 1 0, step times 6, run 0\n";

/// Runs the small exploration with a mesh of the groups 1 and 0. `line` is the command line, with a `/` between two
/// words.
fn explored<I: Source + Drop>(rt: &(impl Abort + AllocGlobal), line: &str, input: I) -> Ran
    requires { I.has_failed input ≡ false }
{
    let words: Vec<&str> = line.split('/').collect(rt.alloc()).expect(rt, "memory");
    let Ok(request) = request(rt.alloc(), words.as_slice()) else {
        panic!(rt; "words that are refused");
    };
    let Args::Explore(_, args) = request.args else {
        panic!(rt; "words that ask for no exploration");
    };
    let mut devices = in_memory(rt.alloc(), input);
    let expected = match args.told {
        Told::Verdict(Some(_)) => Some(LISTED.as_bytes()),
        _ => None,
    };
    let criteria = Criteria::new(expected, &request.conditions);
    let status = explore_run(rt.alloc(), &args, &criteria, &mut devices, &mut Unwatched);
    Ran::of(status, devices)
}

/// Asserts what an exploration prints, and the status. The job file is read whole and byte by byte.
fn check_exploration(rt: &(impl Abort + AllocGlobal), line: &str, text: &str, status: u8) {
    let run = explored(rt, line, Input::new(STORE_FILE.as_bytes()));
    check(rt, run.told(text, status), &run, line);
    let slow = SlowSource::new(STORE_FILE.as_bytes(), STORE_FILE.len() + 1);
    let run = explored(rt, line, slow);
    check(rt, run.told(text, status), &run, line);
}

#[test]
fn tells_what_it_finds(rt: HostRuntime) {
    check_exploration(
        &rt,
        "meshrun/explore/a.job/--mesh/1:0/--witness/1",
        SECOND,
        0,
    );
    check_exploration(
        &rt,
        "meshrun/explore/a.job/--mesh/1:0/--expect/a.out",
        "as expected: 2 outcomes\n",
        0,
    );
    check_exploration(
        &rt,
        "meshrun/explore/a.job/--mesh/1:0/--never/worker 1: bytes 00",
        FORBIDDEN,
        3,
    );
    check_exploration(
        &rt,
        "meshrun/explore/a.job/--mesh/1:0/--witness/2",
        "no such outcome\n",
        2,
    );
}

#[test]
fn tells_a_read_that_fails(rt: HostRuntime) {
    for calls in [0, 1, STORE_FILE.len()] {
        let input = SlowSource::new(STORE_FILE.as_bytes(), calls);
        let run = explored(&rt, "meshrun/explore/a.job/--mesh/1:0", input);
        check(&rt, run.wrote(b"", "read fault\n", 1), &run, calls);
    }
}
