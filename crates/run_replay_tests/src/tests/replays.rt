//! Tests of replays: the golden files, failing devices, faulty files and recorded histories.

ghost use Rattle.std.specs.Prelude.{◌≡◌, false};

use run_program::{Input, Output, Source, replay_history_run, replay_run};
use run_tests::memory::{Ran, in_memory};
use std::alloc::Global;
use std::fmt::Display;
use std::process::Abort;

mod devices;
mod faults;
mod histories;
mod rows;

/// Replays the file that a source contains, and prints the answers to memory.
fn replayed_from<I: Source + Drop>(alloc: Global, input: I) -> Ran
    requires { I.has_failed input ≡ false }
{
    let mut input = input;
    let mut output = Output::new(Vec::new(alloc));
    let mut errors = Output::new(Vec::new(alloc));
    let status = replay_run(alloc, &mut input, &mut output, &mut errors);
    Ran::of_outputs(status, output, errors)
}

/// Replays a file from memory, and prints the recorded history of its journal to memory.
fn history_of(alloc: Global, file: &[u8]) -> Ran {
    let mut devices = in_memory(alloc, Input::new(file));
    let status = replay_history_run(alloc, &mut devices);
    Ran::of(status, devices)
}

/// Replays a file from memory, and prints its answers to memory.
fn replayed(alloc: Global, file: &[u8]) -> Ran {
    replayed_from(alloc, Input::new(file))
}

/// Asserts that the text of a case is the expected one.
fn check_text<N: Display>(rt: &impl Abort, text: &[u8], wanted: &[u8], case: &N) {
    assert_eq!(rt; text, wanted, "{case}");
}
