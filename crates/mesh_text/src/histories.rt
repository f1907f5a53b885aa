//! The text of a history.
ghost use Rattle.std.specs.Prelude.{◌≡◌, ◌<◌, ◌++◌, length, map, IfOk, OnOk};
ghost use Rattle.std.specs.List.{All, flat_map, range_with_len};
ghost use Rattle.std.specs.Vec.{vec_items};
ghost use Rattle.model_jobs.specs.Texts.{ended};
ghost use Rattle.mesh_text.specs.Histories.{count_line, history_text, told_text, worker_line, worker_text};

use mesh_mutator::Entry;
use model_words::Reply;
use std::alloc::{AllocError, Global};
use text_words::{add_decimal, add_reply};

/// The lines of a history of `workers` workers, each with a line end. For each worker, in ascending order, there is a
/// line `worker W` and then the answers to its commands in their order. The last line is `history N` with the number of
/// all entries.
///
/// A new object is printed as `object`, and an address as `at`, because serials and addresses depend on the scheduling
/// of the threads. Any other answer is printed as in a replay. The history is traversed once.
pub fn history_lines(alloc: Global, workers: u32, history: &[Entry]) -> Result<Vec<u8>, AllocError>
    requires { All (λ entry. entry.worker < workers) history.now }
    ensures { IfOk result (λ text. text.items ≡ history_text workers history.now) }
{
    let parts = parts_of(alloc, workers, history)?;
    let mut text = Vec::new(alloc);
    for part in &parts {
        text.extend_from_slice(part.as_slice())?;
    }
    add_count_line(&mut text, history.len())?;
    Ok(text)
}

/// Returns the part of each worker: the line `worker W` and the worker's answers.
fn parts_of(alloc: Global, workers: u32, history: &[Entry]) -> Result<Vec<Vec<u8>>, AllocError>
    requires { All (λ entry. entry.worker < workers) history.now }
    ensures { IfOk result
        (λ parts. map vec_items parts.items ≡ map (worker_text history.now) (range_with_len 0 workers)) }
{
    let mut parts = begun_parts(alloc, workers)?;
    for entry in history {
        add_told(&mut parts[entry.worker as usize], &entry.reply)?;
    }
    Ok(parts)
}

/// Returns the part of each worker before its first answer: the line `worker W`.
fn begun_parts(alloc: Global, workers: u32) -> Result<Vec<Vec<u8>>, AllocError>
    ensures { IfOk result (λ parts. map vec_items parts.items ≡ map worker_line (range_with_len 0 workers)) }
{
    let mut parts = Vec::new(alloc);
    for worker in 0..workers {
        parts.push(begun_part(alloc, worker)?)?;
    }
    Ok(parts)
}

/// The line `worker W`, which begins a worker's part.
fn begun_part(alloc: Global, worker: u32) -> Result<Vec<u8>, AllocError>
    ensures { IfOk result (λ part. part.items ≡ worker_line worker) }
{
    let mut part = Vec::new(alloc);
    part.extend_from_slice(b"worker ")?;
    add_decimal(&mut part, u64::from(worker))?;
    part.push(b'\n')?;
    Ok(part)
}

/// Appends the line of a reply, without serial and address.
fn add_told(text: &mut Vec<u8>, reply: &Reply) -> Result<(), AllocError>
    ensures { OnOk result (text.new.items ≡ text.old.items ++ ended (told_text reply.now)) }
{
    match reply {
        Reply::Object(_, _) => text.extend_from_slice(b"object")?,
        Reply::At(_) => text.extend_from_slice(b"at")?,
        other => add_reply(text, other)?,
    }
    text.push(b'\n')?;
    Ok(())
}

/// Appends the line that ends a history of `entries` entries.
fn add_count_line(text: &mut Vec<u8>, entries: usize) -> Result<(), AllocError>
    ensures { OnOk result (text.new.items ≡ text.old.items ++ count_line entries) }
{
    text.extend_from_slice(b"history ")?;
    add_decimal(text, entries as u64)?;
    text.push(b'\n')?;
    Ok(())
}
