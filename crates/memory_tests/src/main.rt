//! Cases in which an allocation fails, to check that the state afterwards is what the contracts promise.
//!
//! `tools/test/oom.sh` runs the program with a library that lets one allocation fail. A word on the command line names
//! the case; without a word all cases run. The program prints one line for each case: done, with the number of calls
//! that were retried because an allocation failed; out of memory; or a thread fault. A line that begins with `WRONG`
//! reports a contradiction to the contracts. The status is 1 if there is such a line.
#![tactic(auto)]

mod book;
mod ends;
mod heap;
mod meshing;
mod orders;
mod searches;
mod seats;
mod threads;

use crate::ends::{CaseError, End};
use std::process::ExitCode;
use std::sync::Wait;
use std::thread::Threads;
use std::{env, io};

/// The names of the cases, in the order in which the cases run.
const CASES: [&str; 7] = [
    "heap", "book", "mesh", "views", "seats", "search", "threads",
];

fn main(rt: HostRuntime) -> ExitCode {
    let run = match words(&rt) {
        Ok(words) => run_named(&rt, words.get(1)),
        Err(_) => tell_no_words(&rt),
    };
    match run {
        Ok(true) => ExitCode::SUCCESS,
        Ok(false) | Err(_) => ExitCode::FAILURE,
    }
}

/// Prints that an allocation failed while the command line was read. Returns true, because this failure doesn't
/// contradict the contracts.
fn tell_no_words<R: Print>(rt: &R) -> io::Result<bool> {
    println!(rt; "words: out of memory")?;
    Ok(true)
}

/// Runs the named case, or all cases if none is named. Returns whether there was no contradiction to the contracts.
fn run_named<R: AllocGlobal + Print + Threads + Wait + Sync>(
    rt: &R,
    case: Option<&String>,
) -> io::Result<bool> {
    match case {
        Some(case) => run_case(rt, case.as_str()),
        None => run_all(rt),
    }
}

/// Returns the words of the command line. The first word is the name of the program.
fn words(rt: &HostRuntime) -> io::Result<Vec<String>> {
    let words = env::args(rt)?.collect(rt.alloc())?;
    Ok(words)
}

/// Runs all cases, and returns whether there was no contradiction to the contracts.
fn run_all<R: AllocGlobal + Print + Threads + Wait + Sync>(rt: &R) -> io::Result<bool> {
    let mut right = true;
    for case in CASES.iter() {
        right &= run_case(rt, case)?;
    }
    Ok(right)
}

/// Runs a case, prints its line, and returns whether there was no contradiction to the contracts.
fn run_case<R: AllocGlobal + Print + Threads + Wait + Sync>(
    rt: &R,
    case: &str,
) -> io::Result<bool> {
    match end_of(rt, case) {
        Ok(0) => println!(rt; "{case}: done")?,
        Ok(refused) => println!(rt; "{case}: done, {refused} refused")?,
        Err(CaseError::Wrong(what)) => {
            println!(rt; "WRONG {case}: {what}")?;
            return Ok(false);
        }
        Err(fault) => println!(rt; "{case}: {fault}")?,
    }
    Ok(true)
}

/// Runs a case, and returns how it ended.
fn end_of<R: AllocGlobal + Print + Threads + Wait + Sync>(rt: &R, case: &str) -> End {
    let alloc = rt.alloc();
    match case {
        "heap" => heap::fill(alloc),
        "book" => book::fill(alloc),
        "mesh" => meshing::mesh(rt, alloc),
        "views" => searches::search_alone(alloc),
        "seats" => seats::share(rt, alloc),
        "search" => searches::search_by_two(rt, alloc),
        "threads" => threads::run_scripts(rt, alloc),
        _ => Err(CaseError::Wrong("no such case")),
    }
}
