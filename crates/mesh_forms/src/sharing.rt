//! `mesh_shared`.
ghost use Rattle.std.specs.Prelude.{◌≡◌, ◌≤◌, [], length};
ghost use Rattle.std.specs.List.{All};
ghost use Rattle.model_words.specs.Commands.{IsInRange};
ghost use Rattle.mesh_shared.specs.Runs.{IsReady};

use mesh_mutator::{Attempt, Book, Command, Entry, Roots};
use mesh_shared::{
    Ended, FinishError, Gate, MeshPlan, OpenError, RunError, Seat, Shared, run_abandoned,
    run_threads, settle,
};
use mesh_steps::{Heap, Report};
use std::alloc::Global;
use std::sync::{RwLock, Wait};
use std::thread::Threads;

pub fn open(alloc: Global, book: Book, counts: &[usize]) -> Option<(Shared, Vec<Seat>)>
    requires empty { book.entries ≡ [] }
    requires some { 1 ≤ length counts.now }
    requires few { length counts.now ≤ 64 }
{
    match Shared::open(alloc, book, counts) {
        Ok((shared, seats)) => Some((shared, seats)),
        Err(OpenError::Memory) => None,
    }
}

pub fn call<R: Wait>(rt: &R, shared: &Shared, seat: &mut Seat, command: &Command) -> Attempt
    requires { IsInRange command.now }
{
    shared.call(rt, seat, command)
}

pub fn retry_call<R: Wait>(rt: &R, shared: &Shared, seat: &mut Seat, command: &Command) -> Attempt
    requires { IsInRange command.now }
{
    shared.retry_call(rt, seat, command)
}

pub fn numbers(shared: &Shared, seat: &Seat) -> (u32, u32) {
    (shared.seats(), seat.number())
}

pub fn report<R: Wait>(rt: &R, shared: &Shared) -> Report {
    let lock: &RwLock<Book> = &shared.book;
    lock.read(rt).report()
}

pub fn finish(alloc: Global, shared: Shared, seats: Vec<Seat>) -> Result<Ended, FinishError> {
    shared.finish(alloc, seats)
}

pub fn settled(
    alloc: Global,
    book: Book,
    count: u32,
    seats: Vec<Seat>,
) -> Result<(Heap, Roots, Vec<Entry>), FinishError> {
    let Ended {
        heap,
        roots,
        history,
    } = settle(alloc, book, count, seats)?;
    Ok((heap, roots, history))
}

pub fn place(error: FinishError) -> (u32, usize) {
    match error {
        FinishError::SeatMissing(w) => (w, 0),
        FinishError::SeatDiffers { seat, call } | FinishError::ReadDiffers { seat, call } => {
            (seat, call)
        }
        FinishError::Memory => (0, 0),
    }
}

pub fn plan(words: Vec<u64>) -> MeshPlan {
    MeshPlan {
        t: 64,
        rounds: 1000,
        workers: 16,
        words,
        meshers: 10,
    }
}

pub fn run<R: Threads + Wait + Sync, G: Gate + Sync>(
    rt: &R,
    alloc: Global,
    book: Book,
    scripts: &[&[Command]],
    plan: &MeshPlan,
    gate: &G,
) -> Result<Ended, u32>
    requires ready { IsReady book.entries (length scripts.now) plan.now }
    requires range { All (λ script. All IsInRange script.now) scripts.now }
{
    match run_threads(rt, alloc, book, scripts, plan, gate) {
        Ok(ended) => Ok(ended),
        Err(RunError::Memory) => Err(0),
        Err(RunError::Thread) => Err(1),
        Err(RunError::History) => Err(2),
        Err(RunError::Finish(_)) => Err(3),
    }
}

pub fn abandoned<R: Threads + Wait + Sync, G: Gate + Sync>(
    rt: &R,
    alloc: Global,
    book: Book,
    scripts: &[&[Command]],
    plan: &MeshPlan,
    stop_after: u32,
    tries: u32,
    gate: &G,
) -> Result<Ended, RunError>
    requires ready { IsReady book.entries (length scripts.now) plan.now }
    requires range { All (λ script. All IsInRange script.now) scripts.now }
    requires tries { 1 ≤ tries }
{
    run_abandoned(rt, alloc, book, scripts, plan, stop_after, tries, gate)
}
