//! Recorded histories: the text of workers' commands and their answers.
ghost use Rattle.std.specs.Prelude.{◌≡◌, ◌++◌, IfOk, OnOk};
ghost use Rattle.mesh_text.specs.Recordings.{entry_line, recorded_text};
ghost use Rattle.text_words.specs.RecordedTexts.{recorded_head};

use mesh_mutator::{Entry, Journal};
use std::alloc::{AllocError, Global};
use text_words::{add_command, add_decimal, add_reply};

/// The lines of a recorded history, each with a line end: `history 1`, and for each entry `W COMMAND -> ANSWER`.
///
/// A command is spelt as in a job file, and an answer as in a replay, with serials and addresses.
pub fn recorded_history(alloc: Global, history: &[Entry]) -> Result<Vec<u8>, AllocError>
    ensures { IfOk result (λ text. text.items ≡ recorded_text history.now) }
{
    let mut text = begun_recording(alloc)?;
    for entry in history {
        add_entry(&mut text, entry)?;
    }
    Ok(text)
}

/// The lines of the recorded history in a journal.
pub fn recorded_journal(alloc: Global, journal: &Journal) -> Result<Vec<u8>, AllocError>
    ensures { IfOk result (λ text. text.items ≡ recorded_text journal.now.entries) }
{
    let mut text = begun_recording(alloc)?;
    for place in 0..journal.len() {
        add_entry(&mut text, &journal.entry(place))?;
    }
    Ok(text)
}

/// The line that begins a recorded history.
fn begun_recording(alloc: Global) -> Result<Vec<u8>, AllocError>
    ensures { IfOk result (λ text. text.items ≡ recorded_head) }
{
    let mut text = Vec::new(alloc);
    text.extend_from_slice(b"history 1\n")?;
    Ok(text)
}

/// Adds the line of an entry.
fn add_entry(text: &mut Vec<u8>, entry: &Entry) -> Result<(), AllocError>
    ensures { OnOk result (text.new.items ≡ text.old.items ++ entry_line entry.now) }
{
    add_decimal(text, u64::from(entry.worker))?;
    text.push(b' ')?;
    add_command(text, &entry.command)?;
    text.extend_from_slice(b" -> ")?;
    add_reply(text, &entry.reply)?;
    text.push(b'\n')?;
    Ok(())
}
