//! The calls that a mesher makes on the book while it holds the lock.
//!
//! A lock's contract says nothing about the book that it guards. So these functions take the `Book` itself, and their
//! contracts state the effect on it in full. A mesher takes the lock for each call, and runs one of these functions.
ghost use Rattle.std.specs.Prelude.{◌≡◌, IfOk, OnErr, OnOk};
ghost use Rattle.model_heap.specs.Mesh.{begin, mesh_in, mesh_of_class, step};
ghost use Rattle.mesh_mutator.specs.Book.{table_of_book};
ghost use Rattle.mesh_mutator.specs.Mesher.{KeepsBook};
ghost use Rattle.mesh_steps.specs.HeapMeshes.{IsAnswered, IsMeshBegun, IsStepMade};
ghost use Rattle.mesh_lock.specs.CallBudgets.{IsSpent, IsUsedUp};
ghost use Rattle.mesh_shared.specs.Counts.{with_begun, with_refused, with_step, with_step_refused};

use crate::calls::MesherCalls;
use mesh_class::Class;
use mesh_mutator::{Book, Refusal};
use mesh_steps::StepDone;

/// Begins a mesh with the book's `begin`, and counts the answer in `calls`. Only a call that isn't refused counts
/// against the limit.
pub(crate) fn begin(
    book: &mut Book,
    source: u32,
    destination: u32,
    calls: &mut MesherCalls,
) -> Result<u32, Refusal>
    requires { IsUsedUp calls.old.budget → ⊥ }
    ensures answered { IsAnswered KeepsBook book.old book.new
        (begin mesh_of_class (table_of_book book.old) source destination) result
        (IsMeshBegun mesh_of_class book.old.heap book.new.heap source destination) }
    ensures counted { OnOk result (IsSpent calls.old.budget calls.new.budget) }
    ensures uncounted { OnErr result (calls.new.budget ≡ calls.old.budget) }
    ensures begun { OnOk result (calls.new.counts ≡ with_begun calls.old.counts) }
    ensures refused { OnErr result (calls.new.counts ≡ with_refused calls.old.counts) }
{
    match book.begin(source, destination) {
        Ok(left) => {
            calls.budget.spend();
            calls.counts.count_begun();
            Ok(left)
        }
        Err(refusal) => {
            calls.counts.count_refused();
            Err(refusal)
        }
    }
}

/// Makes the next step of the mesh of a class with the book's `step`, and counts the answer in `calls`. Only a call
/// that isn't refused counts against the limit.
pub(crate) fn step(
    book: &mut Book,
    class: Class,
    calls: &mut MesherCalls,
) -> Result<StepDone, Refusal>
    requires { IsUsedUp calls.old.budget → ⊥ }
    ensures answered { IsAnswered KeepsBook book.old book.new
        (step (table_of_book book.old) (mesh_in (table_of_book book.old) class)) result
        (IsStepMade book.old.heap book.new.heap class) }
    ensures counted { OnOk result (IsSpent calls.old.budget calls.new.budget) }
    ensures uncounted { OnErr result (calls.new.budget ≡ calls.old.budget) }
    ensures stepped { IfOk result (λ done. calls.new.counts ≡ with_step calls.old.counts done) }
    ensures refused { OnErr result (calls.new.counts ≡ with_step_refused calls.old.counts) }
{
    match book.step(class) {
        Ok(done) => {
            calls.budget.spend();
            calls.counts.count_step(done);
            Ok(done)
        }
        Err(refusal) => {
            calls.counts.count_step_refused();
            Err(refusal)
        }
    }
}
