//! Tests of replays whose devices transfer one byte per call, or fail at some call. The job has a mesh.
ghost use Rattle.std.specs.Prelude.{◌≡◌, None, false};

use crate::tests::check;
use crate::tests::replays::replayed_from;
use run_program::{DeviceFault, Input, Output, Sink, Source, replay_run};
use run_tests::memory::files::{MESH_ANSWERS, MESH_FILE};
use run_tests::memory::{Bytes, Ran, SlowSource};
use std::alloc::Global;
use std::io;

/// A number of calls that no run reaches.
const ENOUGH: usize = 1000;

/// The behaviour of a sink once its calls are used up.
#[derive(Clone, Copy)]
enum End {
    Fails,
    TakesNothing,
}

/// A sink that accepts few bytes per call, until its calls are used up.
#[derive(Drop)]
struct SlowSink {
    taken: Vec<u8>,
    /// The greatest number of bytes that the sink accepts in one call. For 0 the sink accepts one byte.
    most: usize,
    calls: usize,
    end: End,
    failed: bool,
}

impl SlowSink {
    fn new(alloc: Global, most: usize, calls: usize, end: End) -> SlowSink
        ensures { result.failed ≡ false }
    {
        SlowSink {
            taken: Vec::new(alloc),
            most,
            calls,
            end,
            failed: false,
        }
    }
}

impl Sink for SlowSink {
    ghost written = { λ _. None };

    ghost has_failed = { λ sink. sink.failed };

    fn write(&mut self, bytes: &[u8]) -> Result<usize, DeviceFault> {
        if bytes.is_empty() {
            return Ok(0);
        }
        if self.calls == 0 {
            self.failed = true;
            return match self.end {
                End::Fails => Err(DeviceFault),
                End::TakesNothing => Ok(0),
            };
        }
        self.calls -= 1;
        let count = bytes.len().min(self.most).max(1);
        match self.taken.extend_from_slice(&bytes[..count]) {
            Ok(()) => Ok(count),
            Err(_) => {
                self.failed = true;
                Err(DeviceFault)
            }
        }
    }
}

/// Replays a file from a source that returns one byte per call.
fn read_slowly(alloc: Global, file: &str, calls: usize) -> Ran {
    let input = SlowSource::new(file.as_bytes(), calls);
    replayed_from(alloc, input)
}

/// Replays a file with a mesh to a slow sink.
fn write_slowly(alloc: Global, most: usize, calls: usize, end: End) -> Ran {
    let mut input = Input::new(MESH_FILE.as_bytes());
    let mut output = SlowSink::new(alloc, most, calls, end);
    let mut errors = Output::new(Vec::new(alloc));
    let status = replay_run(alloc, &mut input, &mut output, &mut errors);
    let SlowSink { taken, .. } = output;
    Ran {
        status,
        output: taken,
        errors: errors.into_inner(),
    }
}

#[test]
fn works_byte_by_byte(rt: HostRuntime) {
    let run = read_slowly(rt.alloc(), MESH_FILE, ENOUGH);
    let goes = run.wrote(MESH_ANSWERS.as_bytes(), "", 0);
    check(&rt, goes, &run, "a byte a read");
    let run = write_slowly(rt.alloc(), 1, ENOUGH, End::Fails);
    let goes = run.wrote(MESH_ANSWERS.as_bytes(), "", 0);
    check(&rt, goes, &run, "a byte a write");
}

/// A file with a fault in its second line. If the source fails, the read fault is reported instead of the file's fault.
const FAULTY_FILE: &str = "mesh 1\npages 0\nhistory 1\n";

#[test]
fn fails_at_each_read(rt: HostRuntime) {
    for file in [MESH_FILE, FAULTY_FILE] {
        for calls in 0..file.len() + 1 {
            let run = read_slowly(rt.alloc(), file, calls);
            check(&rt, run.wrote(b"", "read fault\n", 1), &run, calls);
        }
    }
}

/// The number of bytes that a sink accepts per call before the call at which it fails.
const PIECE: usize = 16;

#[test]
fn fails_at_each_write(rt: HostRuntime) {
    for calls in 0..MESH_ANSWERS.len().div_ceil(PIECE) {
        for end in [End::Fails, End::TakesNothing] {
            let run = write_slowly(rt.alloc(), PIECE, calls, end);
            let written = &MESH_ANSWERS.as_bytes()[..calls * PIECE];
            check(&rt, run.wrote(written, "write fault\n", 1), &run, calls);
        }
    }
}

/// A device whose first call fails. After that call the device reads and writes one byte per call.
#[derive(Drop)]
struct FailsFirst<'a> {
    bytes: Bytes<'a>,
    fails: bool,
}

impl<'a> FailsFirst<'a> {
    fn new(bytes: &'a [u8], fails: bool) -> FailsFirst<'a> {
        FailsFirst {
            bytes: Bytes::new(bytes),
            fails,
        }
    }
}

impl io::Read for FailsFirst<'_> {
    fn read(&mut self, buf: &mut [u8]) -> io::Result<usize> {
        if self.fails {
            self.fails = false;
            return Err(io::ErrorKind::Interrupted.into());
        }
        Ok(self.bytes.give(buf))
    }
}

impl io::Write for FailsFirst<'_> {
    fn write(&mut self, bytes: &[u8]) -> io::Result<usize> {
        if self.fails {
            self.fails = false;
            return Err(io::ErrorKind::Interrupted.into());
        }
        Ok(bytes.len().min(1))
    }

    fn flush(&mut self) -> io::Result<()> {
        Ok(())
    }
}

#[test]
fn a_failed_call_is_not_tried_again(rt: HostRuntime) {
    let mut input = Input::new(FailsFirst::new(MESH_FILE.as_bytes(), true));
    let mut byte = [0];
    let reads = [
        input.read(&mut byte).is_err(),
        input.read(&mut byte).is_err(),
    ];
    let mut output = Output::new(FailsFirst::new(b"", true));
    let writes = [output.write(b"m").is_err(), output.write(b"m").is_err()];
    assert!(rt; reads == [true; 2], "reads");
    assert!(rt; writes == [true; 2], "writes");
}

#[test]
fn one_byte_a_call_is_no_failure(rt: HostRuntime) {
    let input = Input::new(FailsFirst::new(MESH_FILE.as_bytes(), false));
    let run = replayed_from(rt.alloc(), input);
    let goes = run.wrote(MESH_ANSWERS.as_bytes(), "", 0);
    check(&rt, goes, &run, "a byte a read");
}
