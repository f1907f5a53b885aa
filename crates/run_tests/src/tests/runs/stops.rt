//! Tests of command lines that start no run, and of what each prints.
//!
//! The built program is run with more such command lines (`tools/test/cases`).
use crate::memory::Ran;
use crate::tests::check;
use run_program::{Output, arguments, stop_run, unopened_run};
use std::process::Abort;

/// Prints what a command line that starts no run prints.
fn stopped(rt: &(impl Abort + AllocGlobal), line: &str) -> Ran {
    let words: Vec<&str> = line.split(' ').collect(rt.alloc()).expect(rt, "memory");
    let Err(stop) = arguments(rt.alloc(), words.as_slice()) else {
        panic!(rt; "no stop: {line}");
    };
    let mut output = Output::new(Vec::new(rt.alloc()));
    let mut errors = Output::new(Vec::new(rt.alloc()));
    let status = stop_run(&stop, &mut output, &mut errors);
    Ran::of_outputs(status, output, errors)
}

#[test]
fn stops_at_others(rt: HostRuntime) {
    let run = stopped(&rt, "meshrun --version");
    check(&rt, run.told("meshrun 0.1.0\n", 0), &run, "the version");
    let run = stopped(&rt, "meshrun explore a.job --mesh 1");
    let is_told = run
        .errors
        .starts_with(b"error: invalid value '1' for '--mesh <SRC:DST>'");
    let goes = is_told && run.output.is_empty() && run.status == 2;
    check(&rt, goes, &run, "a faulty mesh");
}

#[test]
fn tells_unopened_file(rt: HostRuntime) {
    let mut errors = Output::new(Vec::new(rt.alloc()));
    let status = unopened_run(&mut errors);
    let run = Ran::of_outputs(status, Output::new(Vec::new(rt.alloc())), errors);
    check(&rt, run.wrote(b"", "read fault\n", 1), &run, "unopened");
}
