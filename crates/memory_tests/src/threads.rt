//! A case that runs scripts on threads while meshers run.
ghost use Rattle.std.specs.Prelude.{◌≡◌, ◌≤◌};
ghost use Rattle.std.specs.List.{All};
ghost use Rattle.model_words.specs.Commands.{IsInRange};

use crate::ends::{CaseError, End, expect};
use arrayvec::ArrayVec;
use mesh_mutator::{Book, Command};
use mesh_shared::{MeshPlan, NoGate, RunError, run_threads};
use mesh_text::Commands;
use std::alloc::{AllocError, Global};
use std::sync::Wait;
use std::thread::Threads;

/// The number of cells of each worker. `FIRST_CELLS` has the first cell of each worker.
const CELLS: u8 = 40;

const FIRST_CELLS: [u8; 2] = [0, 128];

/// Runs two scripts of 200 commands, each on its own thread, next to two meshers that have two searchers each.
pub(crate) fn run_scripts<R: Threads + Wait + Sync>(rt: &R, alloc: Global) -> End {
    let one = script(alloc, FIRST_CELLS[0])?;
    let other = script(alloc, FIRST_CELLS[1])?;
    run_both(rt, alloc, &both(&one, &other))
}

/// Runs two scripts on a fresh book.
fn run_both<'a, R: Threads + Wait + Sync>(
    rt: &R,
    alloc: Global,
    scripts: &[&'a [Command]; 2],
) -> End
    requires { All (λ script. All IsInRange script.now) scripts.now }
{
    let plan = MeshPlan {
        t: 8,
        rounds: 3,
        workers: 2,
        words: Vec::new(alloc),
        meshers: 2,
    };
    let book = Book::open(alloc, 64, 400)?;
    match run_threads(rt, alloc, book, scripts, &plan, &NoGate) {
        Ok(ended) => end_of(ended.history.len()),
        Err(error) => Err(fault_of(error)),
    }
}

/// Returns the end of a run whose history has `entries` entries. There must be 400.
fn end_of(entries: usize) -> End {
    expect(entries == 400, "another count of entries")?;
    Ok(0)
}

/// Returns the case error for the error of a run.
fn fault_of(error: RunError) -> CaseError {
    match error {
        RunError::Memory => CaseError::Memory,
        RunError::Thread => CaseError::Thread,
        RunError::Finish(error) => error.into(),
        RunError::History => CaseError::Wrong("a history that is full"),
    }
}

/// Returns two scripts in the type that a run expects.
fn both<'a>(first: &'a Commands, second: &'a Commands) -> [&'a [Command]; 2]
    ensures { All (λ script. All IsInRange script.now) result }
{
    [first.as_slice(), second.as_slice()]
}

/// Returns a worker's script, which makes objects, stores one byte in each, frees half of the objects, and then reads.
/// The freed objects are those at the places that are 0 or 3 modulo 4.
fn script(alloc: Global, first: u8) -> Result<Commands, AllocError> {
    let mut script = Commands::new(alloc);
    for turn in 0..TURNS {
        for k in 0..CELLS {
            script.push(command(turn, first.wrapping_add(k), k))?;
        }
    }
    Ok(script)
}

/// The number of commands that a script has for each cell.
const TURNS: u32 = 5;

/// Returns the command for the `k`-th cell in a turn.
fn command(turn: u32, cell: u8, k: u8) -> Command
    ensures { IsInRange result }
{
    match turn {
        0 => Command::New(cell, 2048, 0),
        1 => put(cell, k),
        2 if matches!(k % 4, 0 | 3) => Command::Free(cell),
        2 | 3 => Command::Get(cell, 0, 1),
        _ => Command::Addr(cell),
    }
}

/// A store of one byte.
fn put(cell: u8, byte: u8) -> Command
    ensures { IsInRange result }
{
    let mut bytes = ArrayVec::new();
    bytes.push(byte);
    Command::Put(cell, 0, bytes)
}
