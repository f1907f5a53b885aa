//! A mesh of two groups that is made at once, by the steps of the heap's own meshes.
ghost use Rattle.std.specs.Prelude.{◌≡◌, ◌∷◌, [], None, Some, true, IfOk, OnOk, fold};
ghost use Rattle.std.specs.List.{range_with_len};
ghost use Rattle.otherwise_report.specs.PlanStarts.{whole_heap, whole_move, whole_of, whole_phases};

use explore_otherwise::{Phase, move_at};
use explore_pages::{Heap, Mesh, begin, make_parts, merge};
use mesh_plain::Plain;
use model_otherwise::Step;
use std::alloc::{AllocError, Global};

/// Meshes two groups at once, if a mesh of them may begin. After an error the heap must not be used.
pub(crate) fn mesh_whole(
    alloc: Global,
    memory: &Plain,
    heap: &mut Heap,
    source: u32,
    destination: u32,
) -> Result<(), AllocError>
    ensures { OnOk result (heap.new ≡ whole_heap memory.now heap.old source destination) }
{
    match begin(alloc, true, false, memory, heap, source, destination)? {
        Some(mesh) => make_whole(alloc, memory, heap, mesh),
        None => Ok(()),
    }
}

/// Makes all moves of a mesh that has begun, and makes its groups one. After an error the heap must not be used.
fn make_whole(alloc: Global, memory: &Plain, heap: &mut Heap, mesh: Mesh) -> Result<(), AllocError>
    ensures { OnOk result (heap.new ≡ whole_of memory.now heap.old (Some (record { heap = heap.old; mesh = mesh }))) }
{
    let mut mesh = mesh;
    let phases = whole_phases(alloc)?;
    make_all(alloc, phases.as_slice(), memory, heap, &mut mesh)?;
    merge(alloc, heap, mesh.source, mesh.destination)
}

/// Makes all moves of a mesh. After an error the heap and the mesh must not be used.
fn make_all(
    alloc: Global,
    phases: &[Phase],
    memory: &Plain,
    heap: &mut Heap,
    mesh: &mut Mesh,
) -> Result<(), AllocError>
    requires { phases.now ≡ whole_phases }
    ensures { OnOk result (record { heap = heap.new; mesh = mesh.new }
        ≡ fold (whole_move memory.now) (record { heap = heap.old; mesh = mesh.old }) (range_with_len 0 5)) }
{
    make_move(alloc, phases, memory, heap, mesh, 0)?;
    make_move(alloc, phases, memory, heap, mesh, 1)?;
    make_move(alloc, phases, memory, heap, mesh, 2)?;
    make_move(alloc, phases, memory, heap, mesh, 3)?;
    make_move(alloc, phases, memory, heap, mesh, 4)
}

/// Makes a move of a mesh, if it has so many. After an error the heap and the mesh must not be used.
fn make_move(
    alloc: Global,
    phases: &[Phase],
    memory: &Plain,
    heap: &mut Heap,
    mesh: &mut Mesh,
    number: u32,
) -> Result<(), AllocError>
    requires { phases.now ≡ whole_phases }
    ensures { OnOk result (record { heap = heap.new; mesh = mesh.new }
        ≡ whole_move memory.now (record { heap = heap.old; mesh = mesh.old }) number) }
{
    let members = mesh.members.len();
    if let Some(parts) = move_at(alloc, phases, mesh.class, members, number)? {
        make_parts(alloc, memory, heap, mesh, parts.as_slice())?;
    }
    Ok(())
}

/// Returns the phases of such a mesh: one for each step, which is made at once.
fn whole_phases(alloc: Global) -> Result<Vec<Phase>, AllocError>
    ensures { IfOk result (λ phases. phases.items ≡ whole_phases) }
{
    let mut phases = Vec::new(alloc);
    phases.push(whole_phase(alloc, Step::Protect)?)?;
    phases.push(whole_phase(alloc, Step::Copy)?)?;
    phases.push(whole_phase(alloc, Step::Remap)?)?;
    phases.push(whole_phase(alloc, Step::Unprotect)?)?;
    phases.push(whole_phase(alloc, Step::Release)?)?;
    Ok(phases)
}

/// Returns the phase in which a step is made at once.
fn whole_phase(alloc: Global, step: Step) -> Result<Phase, AllocError>
    ensures { IfOk result (λ phase. phase ≡ record { steps = step ∷ []; most = None; page = None; is_once = true }) }
{
    let mut steps = Vec::new(alloc);
    steps.push(step)?;
    Ok(Phase {
        steps,
        most: None,
        page: None,
        is_once: true,
    })
}
