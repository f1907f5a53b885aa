//! Joins the threads of a run, and gathers the run's answer from their results.
ghost use Rattle.std.specs.Prelude.{◌≡◌, ◌++◌, ◌∷◌, Err, IfErr, IfOk, None, OnOk, Some, map};
ghost use Rattle.mesh_shared.specs.Joined.{HaveMeshed, HaveServed, stops_of};
ghost use Rattle.mesh_shared.specs.Services.{IsAnswer};
ghost use Rattle.mesh_shared.specs.Stops.{error_of, first_stop};
ghost use Rattle.mesh_shared.specs.declared.stops.RunError.{RunError};
ghost use Rattle.mesh_shared.specs.declared.stops.EarlyExit.{EarlyExit};

use crate::mesher::{Meshed, MesherEnd, Meshes};
use crate::stops::{EarlyExit, RunError, either_stop};
use crate::worker::{Served, Worked, Works};
use mesh_lock::Seat;
use mesh_search::drop_results;
use std::alloc::{AllocError, Global};
use std::thread;
use std::thread::{PromisedHandle, Threads};

/// The results of the threads of a run.
#[derive(Drop)]
pub(crate) struct Joined {
    pub served: Vec<Served>,
    pub ends: Vec<MesherEnd>,
}

/// Joins all threads and returns their results. The only error is an allocation failure for the lists of the results.
/// All threads are joined even in that case, because dropping a handle leaks its result.
pub(crate) fn join_all<'a, R: Threads>(
    rt: &R,
    workers: Vec<PromisedHandle<Served, Works<'a>>>,
    meshers: Vec<PromisedHandle<MesherEnd, Meshes>>,
) -> Result<Joined, AllocError>
    ensures served { IfOk result (λ joined. HaveServed workers.entry.items joined.served.items) }
    ensures meshed { IfOk result (λ joined. HaveMeshed meshers.items joined.ends.items) }
{
    let served = match thread::join_promised(rt, workers) {
        Ok(served) => served,
        Err(unjoined) => {
            drop_results(rt, unjoined.value);
            drop_results(rt, meshers);
            return Err(AllocError);
        }
    };
    let ends = match thread::join_promised(rt, meshers) {
        Ok(ends) => ends,
        Err(unjoined) => {
            drop_results(rt, unjoined.value);
            return Err(AllocError);
        }
    };
    Ok(Joined { served, ends })
}

/// The results of a run in which no thread was stopped: the seats, and what each worker and each mesher did.
#[derive(Drop)]
pub(crate) struct Service {
    pub seats: Vec<Seat>,
    pub workers: Vec<Worked>,
    pub meshers: Vec<Meshed>,
}

/// Returns the answer of a run, from the results of its threads. `refused` is the reason why a thread couldn't be
/// started, if there is one. If `joined` is an error, the error is `Memory`.
pub(crate) fn answer_of(
    alloc: Global,
    refused: Option<EarlyExit>,
    joined: Result<Joined, AllocError>,
) -> Result<Service, RunError>
    ensures unjoined { IfErr joined (λ _. result ≡ Err RunError.Memory) }
    ensures joined { IfOk joined (λ threads. IsAnswer refused threads.ends.items threads.served.items result) }
{
    let threads = joined?;
    service_of(alloc, refused, threads.served, threads.ends)
}

/// Returns what the threads did, if each thread was started and none was stopped. Otherwise the error is the first stop
/// in the order of `RunError`. If no thread was stopped, the only error is an allocation failure for the lists.
fn service_of(
    alloc: Global,
    refused: Option<EarlyExit>,
    served: Vec<Served>,
    ends: Vec<MesherEnd>,
) -> Result<Service, RunError>
    ensures stopped { (stop : EarlyExit) → first_stop (stops_of refused ends.items served.items) ≡ Some stop
        → result ≡ Err (error_of stop) }
    ensures unstopped { OnOk result (first_stop (stops_of refused ends.items served.items) ≡ None) }
    ensures memory { first_stop (stops_of refused ends.items served.items) ≡ None
        → IfErr result (λ error. error ≡ RunError.Memory) }
    ensures seats { IfOk result (λ service. service.seats.items ≡ map (λ one. one.seat) served.items) }
    ensures workers { IfOk result (λ service. service.workers.items ≡ map (λ one. one.worked) served.items) }
    ensures meshers { IfOk result (λ service. service.meshers.items ≡ map (λ one. one.meshed) ends.items) }
{
    if let Some(stop) = first_stop_of(refused, ends.as_slice(), served.as_slice()) {
        return Err(stop.into());
    }
    Ok(lists_of(alloc, served, ends)?)
}

/// Returns lists of the seats, of what each worker did, and of what each mesher did. The only error is an allocation
/// failure.
fn lists_of(alloc: Global, served: Vec<Served>, ends: Vec<MesherEnd>) -> Result<Service, AllocError>
    ensures seats { IfOk result (λ service. service.seats.items ≡ map (λ one. one.seat) served.items) }
    ensures workers { IfOk result (λ service. service.workers.items ≡ map (λ one. one.worked) served.items) }
    ensures meshers { IfOk result (λ service. service.meshers.items ≡ map (λ one. one.meshed) ends.items) }
{
    let meshers = meshers_of_ends(alloc, ends)?;
    let workers = workers_of_served(alloc, served.as_slice())?;
    let seats = seats_of_served(alloc, served)?;
    Ok(Service {
        seats,
        workers,
        meshers,
    })
}

/// Returns the first stop in the order of `RunError`, among `refused`, the stops of the meshers and the stops of the
/// workers. Returns `None` if there is no stop.
fn first_stop_of(
    refused: Option<EarlyExit>,
    ends: &[MesherEnd],
    served: &[Served],
) -> Option<EarlyExit>
    ensures { result ≡ first_stop (stops_of refused ends.now served.now) }
{
    let mut stop = refused;
    for q in 0..ends.len() {
        stop = either_stop(stop, ends[q].stop);
    }
    for w in 0..served.len() {
        stop = either_stop(stop, served[w].stop);
    }
    stop
}

/// Returns what each mesher did, in the order of `ends`. The only error is an allocation failure.
fn meshers_of_ends(alloc: Global, ends: Vec<MesherEnd>) -> Result<Vec<Meshed>, AllocError>
    ensures { IfOk result (λ meshers. meshers.items ≡ map (λ one. one.meshed) ends.items) }
{
    let mut meshers = Vec::with_capacity(alloc, ends.len())?;
    for end in ends {
        meshers.push_reserved(end.meshed);
    }
    Ok(meshers)
}

/// Returns how each script ended, in the order of the scripts. The only error is an allocation failure.
fn workers_of_served(alloc: Global, served: &[Served]) -> Result<Vec<Worked>, AllocError>
    ensures { IfOk result (λ workers. workers.items ≡ map (λ one. one.worked) served.now) }
{
    let mut workers = Vec::with_capacity(alloc, served.len())?;
    for w in 0..served.len() {
        workers.push_reserved(served[w].worked);
    }
    Ok(workers)
}

/// Returns the seats of the workers, in the order of the workers. The only error is an allocation failure.
fn seats_of_served(alloc: Global, served: Vec<Served>) -> Result<Vec<Seat>, AllocError>
    ensures { IfOk result (λ seats. seats.items ≡ map (λ one. one.seat) served.items) }
{
    let mut seats = Vec::with_capacity(alloc, served.len())?;
    for one in served {
        let Served { seat, .. } = one;
        seats.push_reserved(seat);
    }
    Ok(seats)
}
