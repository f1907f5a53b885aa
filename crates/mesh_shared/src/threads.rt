//! Runs scripts in threads, with meshers that run at the same time.
ghost use Rattle.std.specs.Prelude.{◌≡◌, ◌≤◌, [], None, length, map, vec_capacity, vec_len, IfOk, IfSome};
ghost use Rattle.std.specs.List.{All};
ghost use Rattle.model_words.specs.Commands.{IsInRange};
ghost use Rattle.mesh_mutator.specs.Book.{memory_in};
ghost use Rattle.mesh_shared.specs.Joined.{AreAtWork, AreMeshing};
ghost use Rattle.mesh_shared.specs.MesherRuns.{AreMeshed, HasMeshed};
ghost use Rattle.mesh_shared.specs.Runs.{AreServed, AreWorked, HasBegun, HasRun, HasWorked, IsFairPlan, IsReady};
ghost use Rattle.mesh_shared.specs.declared.stops.EarlyExit.{EarlyExit};

use crate::joining::{Service, answer_of, join_all};
use crate::mesher::{Meshed, Mesher, MesherEnd, Meshes};
use crate::plan::{Limits, MeshPlan};
use crate::stops::{EarlyExit, RunError};
use crate::worker::{Served, Worked, Works, serve};
use mesh_lock::{Ended, Seat, Shared};
use mesh_mutator::{Book, Command};
use mesh_search::{Actor, Gate, Point};
use std::alloc::{AllocError, Global};
use std::sync::Wait;
use std::thread;
use std::thread::{PromisedHandle, Scope, Threads};

/// Runs 1 to 64 scripts, each in a thread of its own, on a book with an empty journal. Meanwhile, meshers mesh by the
/// plan, each in a thread of its own. Returns the heap, the root cells and one history. In the history each worker's
/// entries are its whole script.
///
/// A worker retries its next command while the command is `Blocked`. Each command, and each call of a mesher, is one
/// step in one critical section of the book's lock. Searches run outside the lock, and reads run concurrently. No mesh
/// is left running.
///
/// Threads call `gate` at certain points, for tests. `NoGate` blocks no thread. All threads that were started are
/// joined, even if there is an error.
///
/// A worker ends if it meets an allocation failure or a full journal. A mesher ends if its views or its search fail.
/// All other threads run to their ends. If there are several errors, the first in the order `Memory`, `Thread`,
/// `History`, `Finish` is returned.
pub fn run_threads<R: Threads + Wait + Sync, G: Gate + Sync>(
    rt: &R,
    alloc: Global,
    book: Book,
    scripts: &[&[Command]],
    plan: &MeshPlan,
    gate: &G,
) -> Result<Ended, RunError>
    requires ready { IsReady book.entries (length scripts.now) plan.now }
    requires range { All (λ script. All IsInRange script.now) scripts.now }
    ensures { IfOk result
        (λ ended. HasRun (map (λ script. script.now) scripts.now) ended.history.items
        (memory_in ended.heap ended.roots)) }
{
    let ran = run_within(rt, alloc, book, scripts, plan, Limits::none(), gate)?;
    Ok(ended_of(ran, scripts, plan, Limits::none()))
}

/// Runs scripts as `run_threads` does, with meshers that are abandoned and workers that give up.
///
/// Each mesher ends after `stop_after` calls of `begin` or `step`, even within a mesh. Refused calls aren't counted. A
/// worker makes at most `tries` attempts at a command. `tries` must be at least 1. If the last attempt is `Blocked`,
/// the worker ends without an error. So each worker's entries are a prefix of its script. The returned heap may have
/// running meshes, which its owner may step or cancel.
pub fn run_abandoned<R: Threads + Wait + Sync, G: Gate + Sync>(
    rt: &R,
    alloc: Global,
    book: Book,
    scripts: &[&[Command]],
    plan: &MeshPlan,
    stop_after: u32,
    tries: u32,
    gate: &G,
) -> Result<Ended, RunError>
    requires ready { IsReady book.entries (length scripts.now) plan.now }
    requires range { All (λ script. All IsInRange script.now) scripts.now }
    requires tries { 1 ≤ tries }
    ensures { IfOk result
        (λ ended. HasBegun (map (λ script. script.now) scripts.now) ended.history.items
        (memory_in ended.heap ended.roots)) }
{
    let limits = Limits {
        calls: Some(stop_after),
        tries: Some(tries),
    };
    let ran = run_within(rt, alloc, book, scripts, plan, limits, gate)?;
    let asked = Limits {
        calls: Some(stop_after),
        tries: Some(tries),
    };
    Ok(ended_of(ran, scripts, plan, asked))
}

/// The result of a run, and what its threads did.
#[derive(Drop)]
pub struct Ran {
    /// The heap, the root cells and the history.
    pub ended: Ended,
    /// What each mesher did, in the order of their numbers. `Meshed::counts` has its searches, pairs and meshes.
    pub meshers: Vec<Meshed>,
    /// How each script ended, in the order of the scripts. `Worked::blocked` has its blocked attempts. The number of a
    /// worker's calls is the number of its entries in the history.
    pub workers: Vec<Worked>,
}

/// The references that the threads of a run share.
#[derive(Drop)]
struct RunContext<'s, R, G> {
    rt: &'s R,
    alloc: Global,
    gate: &'s G,
    shared: &'s Shared,
}

/// Runs scripts as `run_threads` does, with meshers and workers that stop at `limits`. Also returns what each mesher
/// and each worker did.
///
/// `run_threads` sets no limits, and `run_abandoned` sets both. If a mesher wasn't stopped by its limit of calls, it
/// made all rounds of the plan. A worker's entries are its whole script, unless it gave up a command after the number
/// of attempts that the limit allows. In that case the entries are the commands before that command.
pub fn run_within<R: Threads + Wait + Sync, G: Gate + Sync>(
    rt: &R,
    alloc: Global,
    book: Book,
    scripts: &[&[Command]],
    plan: &MeshPlan,
    limits: Limits,
    gate: &G,
) -> Result<Ran, RunError>
    requires ready { IsReady book.entries (length scripts.now) plan.now }
    requires range { All (λ script. All IsInRange script.now) scripts.now }
    requires tries { IfSome limits.tries (λ tries. 1 ≤ tries) }
    ensures begun { IfOk result
        (λ ran. HasBegun (map (λ script. script.now) scripts.now) ran.ended.history.items
        (memory_in ran.ended.heap ran.ended.roots)) }
    ensures whole { limits.tries ≡ None
        → IfOk result
        (λ ran. HasRun (map (λ script. script.now) scripts.now) ran.ended.history.items
        (memory_in ran.ended.heap ran.ended.roots)) }
    ensures meshed { IfOk result (λ ran. AreMeshed plan.now limits.calls ran.meshers.items) }
    ensures worked { IfOk result
        (λ ran. AreWorked limits.tries
        (map (λ script. script.now) scripts.now) ran.ended.history.items ran.workers.items) }
{
    let counts = counts_of(alloc, scripts)?;
    let (shared, seats) = Shared::open(alloc, book, counts.as_slice())?;
    let context = RunContext {
        rt,
        alloc,
        gate,
        shared: &shared,
    };
    let service = serve_all(context, seats, scripts, plan, limits)?;
    let ended = shared.finish(alloc, service.seats)?;
    Ok(Ran {
        ended,
        meshers: service.meshers,
        workers: service.workers,
    })
}

/// Returns `ran.ended`: the heap, the root cells and the history. `ran` must be a run of these scripts and this plan
/// within these limits.
fn ended_of(ran: Ran, scripts: &[&[Command]], plan: &MeshPlan, limits: Limits) -> Ended
    requires meshed { AreMeshed plan.now limits.calls ran.meshers.items }
    requires worked { AreWorked limits.tries
        (map (λ script. script.now) scripts.now) ran.ended.history.items ran.workers.items }
    ensures { result ≡ ran.ended }
{
    ran.ended
}

/// Returns the number of commands in each script. The only error is an allocation failure.
fn counts_of(alloc: Global, scripts: &[&[Command]]) -> Result<Vec<usize>, AllocError>
    ensures { IfOk result (λ counts. vec_len counts ≡ length scripts.now) }
{
    let mut counts = Vec::with_capacity(alloc, scripts.len())?;
    for k in 0..scripts.len() {
        counts.push_reserved(scripts[k].len());
    }
    Ok(counts)
}

/// Makes the calls of each script in a thread, with the script's seat, while meshers mesh by the plan. Once all threads
/// have ended, returns the seats, and what each mesher and each worker did.
fn serve_all<R: Threads + Wait + Sync, G: Gate + Sync>(
    context: RunContext<'_, R, G>,
    seats: Vec<Seat>,
    scripts: &[&[Command]],
    plan: &MeshPlan,
    limits: Limits,
) -> Result<Service, RunError>
    requires many { vec_len seats ≡ length scripts.now }
    requires empty { All (λ seat. seat.calls ≡ []) seats.items }
    requires range { All (λ script. All IsInRange script.now) scripts.now }
    requires plan { IsFairPlan plan.now }
    requires tries { IfSome limits.tries (λ tries. 1 ≤ tries) }
    ensures served { IfOk result
        (λ service. AreServed limits.tries
        (map (λ script. script.now) scripts.now) service.seats.items service.workers.items) }
    ensures meshed { IfOk result (λ service. AreMeshed plan.now limits.calls service.meshers.items) }
{
    let rt = context.rt;
    let alloc = context.alloc;
    let gate = context.gate;
    let shared = context.shared;
    thread::scope(
        thread::scope_env(),
        rt,
        |scope| -> Result<Service, RunError>
            requires many { vec_len seats ≡ length scripts.now }
            requires empty { All (λ seat. seat.calls ≡ []) seats.items }
            requires range { All (λ script. All IsInRange script.now) scripts.now }
            requires plan { IsFairPlan plan.now }
            requires tries { IfSome limits.tries (λ tries. 1 ≤ tries) }
            ensures served { IfOk result
                (λ service. AreServed limits.tries
                (map (λ script. script.now) scripts.entry.now) service.seats.items service.workers.items) }
            ensures meshed { IfOk result (λ service. AreMeshed plan.entry.now limits.calls service.meshers.items) }
        {
            let mut workers = Vec::with_capacity(alloc, seats.len())?;
            let mut meshers = Vec::with_capacity(alloc, plan.meshers as usize)?;
            let tries = limits.tries;
            let context = RunContext {
                rt,
                alloc,
                gate,
                shared,
            };
            let unserved = start_workers(scope, context, seats, scripts, tries, &mut workers);
            let context = RunContext {
                rt,
                alloc,
                gate,
                shared,
            };
            let unmeshed = start_meshers(scope, context, plan, limits.calls, &mut meshers);
            let refused = unmeshed.or(unserved);
            let joined = join_all(rt, workers, meshers);
            answer_of(alloc, refused, joined)
        },
    )
}

/// Starts a thread for each seat, which makes the calls of the seat's script. If a thread can't be started, starts no
/// further thread and returns the reason. Returns `None` if all threads were started.
fn start_workers<'s, E, R: Threads + Wait + Sync, G: Gate + Sync>(
    scope: &'s Scope<'s, E>,
    context: RunContext<'s, R, G>,
    seats: Vec<Seat>,
    scripts: &'s [&'s [Command]],
    tries: Option<u32>,
    workers: &mut Vec<PromisedHandle<Served, Works<'s>>>,
) -> Option<EarlyExit>
    requires many { vec_len seats ≡ length scripts.now }
    requires empty { All (λ seat. seat.calls ≡ []) seats.items }
    requires range { All (λ script. All IsInRange script.now) scripts.now }
    requires tries { IfSome tries (λ tries. 1 ≤ tries) }
    requires room { length scripts.now ≤ vec_capacity workers.old }
    requires none { workers.old.items ≡ [] }
    ensures working { result ≡ None → AreAtWork tries (map (λ script. script.now) scripts.now) workers.new.items }
    ensures kind { IfSome result (λ stop. stop ≡ EarlyExit.Thread) }
{
    let rt = context.rt;
    let gate = context.gate;
    let shared = context.shared;
    for seat in seats {
        let script = scripts[workers.len()];
        let job = move || -> Served
            requires { (seat.calls ≡ []) × All IsInRange script.now × IfSome tries (λ tries. 1 ≤ tries) }
            ensures { HasWorked tries script.entry.now result.seat.calls result.worked result.stop }
        { serve(rt, gate, shared, seat, script, tries) };
        match scope.spawn_with(Works { script, tries }, job) {
            Ok(handle) => workers.push_reserved(handle),
            Err(_unstarted) => return Some(EarlyExit::Thread),
        }
    }
    None
}

/// Starts a thread for each mesher. If threads can't be started, returns the reason of the last failure. Returns `None`
/// if all threads were started. For each thread that can't be started, arrives at `Point::Ended` in the mesher's name.
fn start_meshers<'s, E, R: Threads + Wait + Sync, G: Gate + Sync>(
    scope: &'s Scope<'s, E>,
    context: RunContext<'s, R, G>,
    plan: &'s MeshPlan,
    most: Option<u32>,
    meshers: &mut Vec<PromisedHandle<MesherEnd, Meshes>>,
) -> Option<EarlyExit>
    requires plan { IsFairPlan plan.now }
    requires room { plan.now.meshers ≤ vec_capacity meshers.old }
    requires none { meshers.old.items ≡ [] }
    ensures meshing { result ≡ None → AreMeshing plan.now most meshers.new.items }
    ensures kind { IfSome result (λ stop. stop ≡ EarlyExit.Thread) }
{
    let rt = context.rt;
    let alloc = context.alloc;
    let gate = context.gate;
    let shared = context.shared;
    let mut refused = None;
    let rounds = plan.rounds;
    for number in 0..plan.meshers {
        let job = move || -> MesherEnd
            requires { (1 ≤ plan.now.workers) × (plan.now.workers ≤ 16) × (1 ≤ plan.now.meshers) }
            ensures { HasMeshed plan.entry.now.rounds number most result.meshed result.stop }
        {
            let mesher = Mesher {
                rt,
                alloc,
                gate,
                shared,
                plan,
                number,
            };
            mesher.mesh(most)
        };
        let meshes = Meshes {
            rounds,
            number,
            most,
        };
        match scope.spawn_with(meshes, job) {
            Ok(handle) => meshers.push_reserved(handle),
            Err(_unstarted) => {
                gate.arrive(Actor::Mesher(number), Point::Ended);
                refused = Some(EarlyExit::Thread);
            }
        }
    }
    refused
}
