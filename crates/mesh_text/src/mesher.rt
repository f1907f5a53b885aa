//! The calls of a plan's mesher on a book.
ghost use Rattle.std.specs.Prelude.{◌≡◌, IfOk};
ghost use Rattle.model_jobs.specs.Jobs.{PagesMeshed, PairsFound, StepsLeft, busy_in, counted, step_answered, told};
ghost use Rattle.model_heap.specs.Mesh.{begin, cancel, first_mesh, mesh_whole, step};
ghost use Rattle.model_search.specs.Search.{search, view_of};
ghost use Rattle.mesh_text.specs.Answers.{count_told, step_told};
ghost use Rattle.mesh_text.specs.Turns.{IsCall};

use mesh_mutator::Book;
use mesh_search::{Found, search_one};
use mesh_steps::StepDone;
use model_words::{Refusal, Version};
use std::alloc::{AllocError, Global};
use text_job::Search;

/// Searches a class for pairs of groups that can be meshed. The book isn't changed.
pub(crate) fn pair(alloc: Global, book: &Book, asked: &Search) -> Result<Found, AllocError>
    ensures { IfOk result
        (λ found. IsCall (λ state.
        told state (PairsFound
        (search (view_of state.table asked.now.class) asked.now.words.items asked.now.rounds))) book.now book.now
        (PairsFound found)) }
{
    let view = book.view(alloc, asked.class)?;
    search_one(alloc, &view, asked.words.as_slice(), asked.rounds)
}

/// Begins a mesh, and returns the number of its steps, or the refusal. The refusal BUSY applies in version 1 if a mesh
/// of any class runs, and in version 2 if a mesh of the groups' class runs.
pub(crate) fn begin(
    book: &mut Book,
    version: Version,
    source: u32,
    destination: u32,
) -> Result<u32, Refusal>
    ensures { IsCall (λ state.
        counted state StepsLeft (begin (busy_in version) state.table source destination)) book.old book.new
        (count_told StepsLeft result) }
{
    match version {
        Version::One => book.begin_alone(source, destination),
        Version::Two => book.begin(source, destination),
    }
}

/// Makes the next step of the first running mesh. The refusal is NO_MESH if no mesh runs.
pub(crate) fn step_first(book: &mut Book) -> Result<StepDone, Refusal>
    ensures { IsCall (λ state. step_answered state (step state.table (first_mesh state.table))) book.old book.new
        (step_told result) }
{
    match book.first_running() {
        Some(class) => book.step(class),
        None => Err(Refusal::NoMesh),
    }
}

/// Cancels the first running mesh. The refusal is NO_MESH if no mesh runs.
pub(crate) fn cancel_first(book: &mut Book) -> Result<u32, Refusal>
    ensures { IsCall (λ state. counted state StepsLeft (cancel state.table (first_mesh state.table))) book.old book.new
        (count_told StepsLeft result) }
{
    match book.first_running() {
        Some(class) => book.cancel(class),
        None => Err(Refusal::NoMesh),
    }
}

/// Meshes two groups with all steps of the mesh, and returns the number of freed physical pages, or the refusal. The
/// refusal BUSY applies in the same cases as for `begin`.
pub(crate) fn whole(
    book: &mut Book,
    version: Version,
    source: u32,
    destination: u32,
) -> Result<u32, Refusal>
    ensures { IsCall (λ state.
        counted state PagesMeshed (mesh_whole (busy_in version) state.table source destination)) book.old book.new
        (count_told PagesMeshed result) }
{
    match version {
        Version::One => book.whole_alone(source, destination),
        Version::Two => book.mesh_whole(source, destination),
    }
}
