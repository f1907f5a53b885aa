//! Tests of scripts that run at a `Pace` while a mesher meshes.

use crate::tests::check_count;
use crate::tests::runs::clocks::SlowClock;
use crate::tests::runs::meshers::{Part, alone, check_counts, no_pages_count, plan_of, script_of};
use mesh_mutator::Book;
use mesh_shared::{Limits, Pace, Ran, run_within};
use std::process::Abort;
use std::rt::Clock;
use std::sync::Wait;
use std::thread::Threads;
use text_job::Commands;

/// A script of 45 calls. After the fourth call there are two groups of the class 2,048 with one object each, which can
/// be meshed. The last call makes an object of another class, which needs a page: in an arena of two pages, this is the
/// page that the mesh releases.
const SCRIPT: &[Part] = &[
    Part::Made(0, 3, 2048),
    Part::Freed(&[0]),
    Part::Read(1, 40),
    Part::Made(3, 4, 16),
];

/// Runs a script in an arena of two pages, at a pace of one call, while one mesher makes this number of rounds.
fn paced<R: Abort + AllocGlobal + Clock + Threads + Wait + Sync>(
    rt: &R,
    script: &Commands,
    rounds: u32,
) -> Ran {
    let clock = SlowClock { rt };
    let pace = Pace::new(&clock, 1, 1);
    let plan = plan_of(rt, rounds, 1, 1);
    let book = Book::open(rt.alloc(), 2, 64).expect(rt, "memory");
    let scripts = alone(script);
    let ran = run_within(rt, rt.alloc(), book, &scripts, &plan, Limits::none(), &pace);
    ran.expect(rt, "a history")
}

/// A number of rounds, what the mesher counts in them (`counts_of`), and the number of calls that are refused as
/// `NoPages`.
type Case = (u32, [u64; 7], usize);

/// A mesher with one round takes its views before the second call. A mesher with two rounds takes them again behind the
/// tenth call at least, because its first search waits for a call before each of the ten classes. Until all rounds are
/// over, the worker makes at most one more call than the mesher. The mesher makes 26 calls before it releases the page:
/// at 20 classes, a `begin` and five steps. So the worker's last call, the 45th, comes behind the release.
static CASES: [Case; 3] = [
    (0, [0, 0, 0, 0, 0, 0, 0], 1),
    (1, [0, 0, 0, 0, 0, 0, 0], 1),
    (2, [7, 1, 1, 0, 1, 0, 1], 0),
];

#[test]
fn a_page_is_released_between_paced_calls(rt: HostRuntime) {
    let script = script_of(&rt, SCRIPT);
    for (rounds, counts, refused) in CASES {
        let ran = paced(&rt, &script, rounds);
        let history = ran.ended.history.as_slice();
        check_count(&rt, history.len(), 45);
        check_counts(&rt, ran.meshers.as_slice(), counts);
        check_count(&rt, no_pages_count(history), refused);
    }
}
