//! Queries and changes of the list of running meshes.
ghost use Rattle.std.specs.Prelude.{◌≡◌, nat_eq, position, slice_set, length, ◌<◌};
ghost use Rattle.mesh_page_heap.specs.MeshLayouts.{mesh_from};

use arrayvec::ArrayVec;
use mesh_class::Class;
use mesh_running::Running;

/// The maximal number of running meshes: one of each size class.
pub(crate) const MAX_MESHES: usize = 10;

/// Replaces the mesh at a place.
pub(crate) fn replace(meshes: &mut ArrayVec<Running, MAX_MESHES>, place: usize, mesh: Running)
    requires { place < length meshes.old.items }
    ensures { meshes.new.items ≡ slice_set meshes.old.items place mesh }
{
    meshes[place] = mesh;
}

/// Returns the index of the mesh of `class` in the list, or `None` if the list has no such mesh.
pub(crate) fn place_of(meshes: &[Running], class: Class) -> Option<usize>
    ensures { result ≡ position (λ mesh. nat_eq mesh.class class) meshes.now }
{
    meshes
        .iter()
        .position(|mesh| mesh.class().size() == class.size())
}

/// Returns the index of the mesh from group `source` in the list, or `None` if the list has no such mesh.
fn source_place(meshes: &[Running], source: u32) -> Option<usize>
    ensures { result ≡ position (λ mesh. nat_eq mesh.source source) meshes.now }
{
    meshes.iter().position(|mesh| mesh.source() == source)
}

/// Returns the mesh from group `source`, or `None` if the list has no such mesh.
pub(crate) fn mesh_of(meshes: &[Running], source: u32) -> Option<Running>
    ensures { result ≡ mesh_from source meshes.now }
{
    let place = source_place(meshes, source)?;
    Some(meshes[place])
}
