//! Tests of replays of files that are no jobs.
use crate::tests::check;
use crate::tests::replays::{history_of, replayed};
use run_tests::memory::files::FIRST_FILE;
use run_tests::memory::{ROW_END, faulty_files, fields};
use std::alloc::{AllocError, Global};
use std::process::Abort;
use std::test::Fail;

/// For each faulty file, neither answers nor a history are printed.
#[test]
fn tells_each_fault(rt: HostRuntime) {
    for row in faulty_files().split(ROW_END) {
        let (name, file, fault) = fields(row);
        let answers = replayed(rt.alloc(), file.as_bytes());
        let journal = history_of(rt.alloc(), file.as_bytes());
        check(&rt, answers.wrote(b"", fault, 2), &answers, name);
        check(&rt, journal.wrote(b"", fault, 2), &journal, name);
    }
}

/// Faulty lines that consist of bytes `a`: the number of bytes, whether a line end follows, and the kind of the fault.
static LENGTHS: [(usize, bool, &str); 5] = [
    (1024, false, "CUT"),
    (1024, true, "WORD"),
    (1025, false, "LONG_LINE"),
    (1025, true, "LONG_LINE"),
    (40_000, true, "LONG_LINE"),
];

/// Returns a text of `count` bytes `a`, and of a line end if `has_end` is true.
fn letters(alloc: Global, count: usize, has_end: bool) -> Result<Vec<u8>, AllocError> {
    let mut text = vec![in alloc; b'a'; count]?;
    if has_end {
        text.push(b'\n')?;
    }
    Ok(text)
}

/// Asserts the fault of a file that consists of `count` bytes `a`, and of a line end if `has_end` is set.
fn check_length(
    rt: &(impl Abort + AllocGlobal),
    count: usize,
    has_end: bool,
    fault: &str,
) -> Result<(), Fail> {
    let file = letters(rt.alloc(), count, has_end)?;
    let run = replayed(rt.alloc(), file.as_slice());
    check(rt, run.wrote(b"", fault, 2), &run, count);
    Ok(())
}

#[test]
fn tells_faults_of_lengths(rt: HostRuntime) -> Result<(), Fail> {
    for (count, has_end, kind) in LENGTHS.iter() {
        let fault = format!(in rt.alloc(); "line 1: {kind}\n")?;
        check_length(&rt, *count, *has_end, fault.as_str())?;
    }
    check_length(&rt, 1_048_576, false, "line 1: LONG_LINE\n")?;
    check_length(&rt, 1_048_577, false, "line 0: TOO_LONG\n")
}

#[test]
fn takes_no_beginning_of_a_file(rt: HostRuntime) {
    for count in 0..FIRST_FILE.len() {
        let run = replayed(rt.alloc(), &FIRST_FILE.as_bytes()[..count]);
        let is_refused = run.output.is_empty() && run.status == 2;
        assert!(rt; is_refused, "of {count} bytes");
    }
}
