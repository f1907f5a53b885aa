//! Tests of scripts on threads: a worked example, and errors that stop a run before a thread is started.
ghost use Rattle.std.specs.Prelude.{◌≡◌, ◌≤◌, false};

use crate::memory::{ROW_END, Ran, SlowSource, faulty_files, fields, in_memory};
use crate::tests::check;
use mesh_shared::{FinishError, RunError};
use run_program::{
    Input, Output, Source, ThreadsArgs, ThreadsError, threads_history_run, threads_run,
    threads_stopped,
};
use std::process::Abort;
use std::sync::Wait;
use std::thread::Threads;

/// A job file of two workers with two commands each. Its history has room for three entries, one fewer than needed.
const SHORT_FILE: &str =
    "mesh 1\npages 1\nhistory 3\nworkers 2\nworker 0\nnew 0 16 0\nfree 0\nworker 1\nnew 1 16 0\nfree 1\nplan\nend\n";

/// One mesher and one searcher.
const FEWEST: ThreadsArgs = ThreadsArgs {
    probe: 1,
    rounds: 1,
    workers: 1,
    seed: 0,
    meshers: 1,
};

/// Runs the scripts of the job file that a source contains, and prints each worker's answers.
fn ran<R: Threads + Wait + Sync + AllocGlobal, I: Source + Drop>(
    rt: &R,
    input: I,
    args: &ThreadsArgs,
) -> Ran
    requires { I.has_failed input ≡ false }
{
    let alloc = rt.alloc();
    let mut input = input;
    let mut output = Output::new(Vec::new(alloc));
    let mut errors = Output::new(Vec::new(alloc));
    let status = threads_run(rt, alloc, &mut input, &mut output, &mut errors, args);
    Ran::of_outputs(status, output, errors)
}

/// Runs the scripts of a file, and prints their recorded history.
fn history_of<R: Threads + Wait + Sync + AllocGlobal>(
    rt: &R,
    file: &[u8],
    args: &ThreadsArgs,
) -> Ran {
    let alloc = rt.alloc();
    let mut devices = in_memory(alloc, Input::new(file));
    let status = threads_history_run(rt, alloc, &mut devices, args);
    Ran::of(status, devices)
}

#[test]
fn tells_each_fault_of_a_file(rt: HostRuntime) {
    for row in faulty_files().split(ROW_END) {
        let (name, file, fault) = fields(row);
        let input = Input::new(file.as_bytes());
        let run = ran(&rt, input, &FEWEST);
        check(&rt, run.wrote(b"", fault, 2), &run, name);
    }
}

#[test]
fn tells_a_history_that_is_too_short(rt: HostRuntime) {
    let input = Input::new(SHORT_FILE.as_bytes());
    let run = ran(&rt, input, &FEWEST);
    let goes = run.wrote(b"", "history too short\n", 2);
    check(&rt, goes, &run, "four commands");
}

/// A job file of a worker that makes three objects of half a page on a heap of one page. `ONE_PAGE_LINES` has the
/// expected answers, and `ONE_PAGE_HISTORY` the expected history.
const ONE_PAGE_FILE: &str =
    "mesh 1\npages 1\nhistory 3\nworkers 1\nworker 0\nnew 0 2048 0\nnew 1 2048 0\nnew 2 2048 0\nplan\nend\n";

const ONE_PAGE_LINES: &str = "worker 0\nobject\nobject\nrefused 3 NO_PAGES\nhistory 3\n";

const ONE_PAGE_HISTORY: &str =
    "history 1\n0 new 0 2048 0 -> object 0 at 1000\n0 new 1 2048 0 -> object 1 at 1800\n0 new 2 2048 0 -> refused 3 NO_PAGES\n";

#[test]
fn has_no_more_pages_than_its_file_says(rt: HostRuntime) {
    let input = Input::new(ONE_PAGE_FILE.as_bytes());
    let run = ran(&rt, input, &FEWEST);
    let goes = run.wrote(ONE_PAGE_LINES.as_bytes(), "", 0);
    check(&rt, goes, &run, "answers");
}

#[test]
fn prints_the_history(rt: HostRuntime) {
    let run = history_of(&rt, ONE_PAGE_FILE.as_bytes(), &FEWEST);
    let goes = run.wrote(ONE_PAGE_HISTORY.as_bytes(), "", 0);
    check(&rt, goes, &run, "a history");
}

#[test]
fn tells_a_failing_read_before_all_else(rt: HostRuntime) {
    for calls in 0..SHORT_FILE.len() + 1 {
        let input = SlowSource::new(SHORT_FILE.as_bytes(), calls);
        let run = ran(&rt, input, &FEWEST);
        check(&rt, run.wrote(b"", "read fault\n", 1), &run, calls);
    }
}

/// Asserts the line that a run prints if it stops with this error, and the status 1.
fn check_line(rt: &(impl Abort + AllocGlobal), error: RunError, line: &'static str) {
    let mut errors = Output::new(Vec::new(rt.alloc()));
    let status = threads_stopped(&mut errors, ThreadsError::from(error));
    let run = Ran::of_outputs(status, Output::new(Vec::new(rt.alloc())), errors);
    check(rt, run.wrote(b"", line, 1), &run, line);
}

#[test]
fn tells_every_fault_of_the_end_as_a_run_fault(rt: HostRuntime) {
    let differs = FinishError::SeatDiffers { seat: 0, call: 1 };
    check_line(&rt, RunError::Finish(FinishError::Memory), "run fault\n");
    check_line(&rt, RunError::Finish(differs), "run fault\n");
    check_line(&rt, RunError::History, "run fault\n");
    check_line(&rt, RunError::Memory, "out of memory\n");
    check_line(&rt, RunError::Thread, "thread fault\n");
}

/// The number of cells of each of two workers. `FIRST_CELL` has the first cell of each worker.
const CELLS: u32 = 40;

const FIRST_CELL: [u32; 2] = [0, 128];

/// Whether a worker frees the object of a cell.
fn is_freed(cell: u32) -> bool {
    matches!(cell % 4, 0 | 3)
}

/// Adds a worker's script, which makes objects, stores their bytes, and frees every other pair of objects. Then it
/// loads from all cells and asks for their addresses.
fn add_script(rt: &impl Abort, file: &mut String, first: u32)
    requires { first ≤ 128 }
{
    for cell in first..first + CELLS {
        write!(file, "new {cell} 2048 0\n").expect(rt, "memory");
    }
    for cell in first..first + CELLS {
        write!(file, "put {cell} 0 {cell:02x}\n").expect(rt, "memory");
    }
    for cell in first..first + CELLS {
        if is_freed(cell) {
            write!(file, "free {cell}\n").expect(rt, "memory");
        } else {
            write!(file, "get {cell} 0 1\n").expect(rt, "memory");
        }
    }
    for cell in first..first + CELLS {
        write!(file, "get {cell} 0 1\n").expect(rt, "memory");
    }
    for cell in first..first + CELLS {
        write!(file, "addr {cell}\n").expect(rt, "memory");
    }
}

/// Adds the expected lines of a worker's answers.
fn add_answers(rt: &impl Abort, lines: &mut String, first: u32)
    requires { first ≤ 128 }
{
    for _ in 0..CELLS {
        lines.push_str("object\n").expect(rt, "memory");
    }
    for _ in 0..CELLS {
        lines.push_str("done\n").expect(rt, "memory");
    }
    add_loads(rt, lines, first, "done\n");
    add_loads(rt, lines, first, "refused 6 FREED\n");
    for cell in first..first + CELLS {
        let line = if is_freed(cell) {
            "refused 6 FREED\n"
        } else {
            "at\n"
        };
        lines.push_str(line).expect(rt, "memory");
    }
}

/// Adds the line of a load of each cell's byte, or the line of the refusal if the cell's object is freed.
fn add_loads(rt: &impl Abort, lines: &mut String, first: u32, freed: &str)
    requires { first ≤ 128 }
{
    for cell in first..first + CELLS {
        if is_freed(cell) {
            lines.push_str(freed).expect(rt, "memory");
        } else {
            write!(lines, "bytes {cell:02x}\n").expect(rt, "memory");
        }
    }
}

/// The job file of the two workers.
fn file_of_two(rt: &(impl Abort + AllocGlobal)) -> String {
    let head = "mesh 1\npages 64\nhistory 400\nworkers 2\n";
    let mut file = String::from_str(rt.alloc(), head).expect(rt, "memory");
    for worker in 0..2 {
        write!(file, "worker {worker}\n").expect(rt, "memory");
        add_script(rt, &mut file, FIRST_CELL[worker]);
    }
    file.push_str("plan\nend\n").expect(rt, "memory");
    file
}

/// Returns the expected lines of the two workers' answers.
fn answers_of_two(rt: &(impl Abort + AllocGlobal)) -> String {
    let mut answers = String::new(rt.alloc());
    for worker in 0..2 {
        write!(answers, "worker {worker}\n").expect(rt, "memory");
        add_answers(rt, &mut answers, FIRST_CELL[worker]);
    }
    answers.push_str("history 400\n").expect(rt, "memory");
    answers
}

/// The numbers of searchers with which the two workers' scripts are run. `MESHERS` has the numbers of meshers, and
/// `SEEDS` the seeds.
static SEARCHERS: [u32; 3] = [1, 3, 16];

static MESHERS: [u32; 3] = [1, 2, 10];

static SEEDS: [u64; 3] = [0, 1, u64::MAX];

#[test]
fn answers_do_not_depend_on_meshers(rt: HostRuntime) {
    let file = file_of_two(&rt);
    let answers = answers_of_two(&rt);
    for workers in SEARCHERS.iter() {
        for meshers in MESHERS.iter() {
            check_seeds(&rt, file.as_str(), answers.as_str(), *workers, *meshers);
        }
    }
}

/// Asserts that a job file has these answers with each of the seeds, for a number of searchers and meshers.
fn check_seeds<R: Abort + Threads + Wait + Sync + AllocGlobal>(
    rt: &R,
    file: &str,
    answers: &str,
    workers: u32,
    meshers: u32,
) {
    assert!(rt; 1 <= workers && workers <= 16, "searchers");
    assert!(rt; 1 <= meshers && meshers <= 10, "meshers");
    for seed in SEEDS.iter() {
        let args = ThreadsArgs {
            probe: workers,
            rounds: 3,
            workers,
            seed: *seed,
            meshers,
        };
        check_answers(rt, file, answers, &args);
    }
}

/// Asserts that a run of a job file with these arguments prints these answers.
fn check_answers<R: Abort + Threads + Wait + Sync + AllocGlobal>(
    rt: &R,
    file: &str,
    answers: &str,
    args: &ThreadsArgs,
) {
    let run = ran(rt, Input::new(file.as_bytes()), args);
    check_run(rt, &run, answers, args);
}

/// Asserts that a run with these arguments printed these answers and no error, and ended with status 0.
fn check_run(rt: &impl Abort, run: &Ran, answers: &str, args: &ThreadsArgs) {
    let ThreadsArgs {
        workers,
        meshers,
        seed,
        ..
    } = *args;
    assert!(rt;
        run.wrote(answers.as_bytes(), "", 0),
        "{workers}, {meshers}, {seed}"
    );
}
