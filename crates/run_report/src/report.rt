//! The lines of meshers and workers, and the line of the heap.
ghost use Rattle.std.specs.Prelude.{◌≡◌, ◌++◌, decimal, length, OnOk};
ghost use Rattle.std.specs.List.{flat_map};
ghost use Rattle.model_memory.specs.Seats.{calls_of};
ghost use Rattle.run_report.specs.Reports.{mesher_line, run_report, worker_line, worker_lines};

use mesh_mutator::Entry;
use mesh_shared::{Meshed, Ran, Worked};
use mesh_text::add_report;
use std::alloc::AllocError;
use text_words::add_decimal;

/// Appends what the threads of a run did, each line with a line end.
///
/// - For each mesher, in the order of their numbers, `mesher K searches A pairs B begun C refused D ended E released
///   F`: its searches, the pairs that they found, the meshes that it began, the pairs that were refused, the meshes
///   that it ended, and the pages that these released.
/// - For each worker, in the order of their numbers, `worker W calls A blocked B`: its calls in the history, and its
///   attempts that were blocked.
/// - `report objects A bytes B mapped C taken D saved E`: the report of the heap that the run left.
pub fn add_run_report(text: &mut Vec<u8>, ran: &Ran) -> Result<(), AllocError>
    ensures { OnOk result (text.new.items ≡ text.old.items ++ run_report ran.now) }
{
    add_meshers(text, ran.meshers.as_slice())?;
    add_workers(text, ran.ended.history.as_slice(), ran.workers.as_slice())?;
    add_report(text, ran.ended.heap.report())?;
    text.push(b'\n')?;
    Ok(())
}

/// Appends the lines of meshers.
fn add_meshers(text: &mut Vec<u8>, meshers: &[Meshed]) -> Result<(), AllocError>
    ensures { OnOk result (text.new.items ≡ text.old.items ++ flat_map mesher_line meshers.now) }
{
    let mut rest = meshers;
    while let [mesher, behind @ ..] = rest {
        add_mesher(text, mesher)?;
        rest = behind;
    }
    Ok(())
}

/// Appends the line of a mesher.
fn add_mesher(text: &mut Vec<u8>, mesher: &Meshed) -> Result<(), AllocError>
    ensures { OnOk result (text.new.items ≡ text.old.items ++ mesher_line mesher.now) }
{
    let counts = mesher.counts;
    add_count(text, b"mesher ", u64::from(mesher.number))?;
    add_count(text, b" searches ", counts.searches)?;
    add_count(text, b" pairs ", counts.pairs)?;
    add_count(text, b" begun ", counts.begun)?;
    add_count(text, b" refused ", counts.refused)?;
    add_count(text, b" ended ", counts.ended)?;
    add_count(text, b" released ", counts.pages)?;
    text.push(b'\n')?;
    Ok(())
}

/// Appends the lines of the workers of a history, counted from 0.
fn add_workers(text: &mut Vec<u8>, history: &[Entry], workers: &[Worked]) -> Result<(), AllocError>
    ensures { OnOk result (text.new.items ≡ text.old.items ++ worker_lines history.now 0 workers.now) }
{
    let mut worker = 0usize;
    let mut rest = workers;
    while let [worked, behind @ ..] = rest {
        add_worker(text, history, worker, worked)?;
        worker += 1;
        rest = behind;
    }
    Ok(())
}

/// Appends the line of a worker.
fn add_worker(
    text: &mut Vec<u8>,
    history: &[Entry],
    worker: usize,
    worked: &Worked,
) -> Result<(), AllocError>
    ensures { OnOk result (text.new.items ≡ text.old.items ++ worker_line history.now worker worked.now) }
{
    add_count(text, b"worker ", worker as u64)?;
    add_count(text, b" calls ", calls_of(history, worker) as u64)?;
    add_count(text, b" blocked ", worked.blocked)?;
    text.push(b'\n')?;
    Ok(())
}

/// The number of a worker's calls in a history.
fn calls_of(history: &[Entry], worker: usize) -> usize
    ensures { result ≡ length (calls_of worker history.now) }
{
    let mut calls = 0;
    let mut rest = history;
    while let [entry, behind @ ..] = rest {
        if entry.worker as usize == worker {
            calls += 1;
        }
        rest = behind;
    }
    calls
}

/// Appends words and a number.
fn add_count(text: &mut Vec<u8>, words: &[u8], count: u64) -> Result<(), AllocError>
    ensures { OnOk result (text.new.items ≡ text.old.items ++ (words.now ++ decimal count)) }
{
    text.extend_from_slice(words)?;
    add_decimal(text, count)
}
