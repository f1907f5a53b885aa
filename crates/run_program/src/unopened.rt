//! Why a file can't be opened.
ghost use Rattle.std.specs.Prelude.{◌≡◌, ◌≤◌, ◌+◌, ◌++◌, List, ℕ, codes, length, take};
ghost use Rattle.model_jobs.specs.Texts.{ended};
ghost use Rattle.run_program.specs.Runs.{HasTold};

use crate::runs::tell;
use arrayvec::{ArrayString, ArrayVec};
use std::fmt::Write;
use std::io;
use text_devices::Sink;

/// The greatest number of bytes of a name that are written: the longest path of a file that can be opened.
const MOST_OF_NAME: usize = 4096;

/// The bytes of a line: enough for a name and for a message.
type Line = ArrayVec<u8, 4608>;

/// Writes to `errors` why the file with this name can't be opened: the line `NAME: REASON`. Only the first 4,096 bytes
/// of a longer name are written.
pub fn unopened_reason_run<E: Sink>(name: &str, error: &io::Error, errors: &mut E)
    ensures { (reason : List ℕ) × HasTold (E.has_failed errors.new) (E.written errors.old) (E.written errors.new)
        (ended (take 4096 name.now ++ codes ": " ++ reason)) }
{
    let mut message = ArrayString::<256>::new();
    let _ = write!(message, "{error}");
    let mut line = Line::new();
    add(&mut line, beginning(name.as_bytes()));
    add(&mut line, b": ");
    add(&mut line, without_code(message.as_str()).as_bytes());
    add(&mut line, b"\n");
    tell(errors, line.as_slice());
}

/// Returns the first 4,096 bytes of a name, or the whole name if it has no more.
fn beginning(name: &[u8]) -> &[u8]
    ensures { result.now ≡ take 4096 name.now }
{
    &name[..MOST_OF_NAME.min(name.len())]
}

/// The message of an error without the number of the error behind it.
fn without_code(message: &str) -> &str
    requires { length message.now ≤ 256 }
    ensures { length result.now ≤ 256 }
{
    match message.split_once(" (os error ") {
        Some((words, _)) => words,
        None => message,
    }
}

/// Adds words, if there is room for them.
fn add(line: &mut Line, words: &[u8])
    ensures { length line.old.items + length words.now ≤ 4608 → line.new.items ≡ line.old.items ++ words.now }
{
    let _ = line.try_extend_from_slice(words);
}
