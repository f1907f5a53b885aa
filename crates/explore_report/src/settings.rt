//! The parts of a state's setting.
ghost use Rattle.std.specs.Prelude.{◌≡◌, ◌≤◌, length, slice_get};

use explore_interleavings::{MeshPair, StateAt};
use model_words::Version;

/// Returns the number of workers.
pub(crate) fn workers_of(state: &StateAt<'_>) -> usize
    ensures value { result ≡ length state.now.setting.job.scripts }
    ensures few { result ≤ 64 }
{
    state.setting().workers()
}

/// Returns the number of meshers.
pub(crate) fn meshers_of(state: &StateAt<'_>) -> usize
    ensures { result ≡ length state.now.setting.pairs }
{
    state.setting().pairs.len()
}

/// Returns the pair of groups that a mesher meshes, or `None` if there is no such mesher.
pub(crate) fn pair_of(state: &StateAt<'_>, mesher: usize) -> Option<MeshPair>
    ensures { result ≡ slice_get state.now.setting.pairs mesher }
{
    state.setting().pairs.get(mesher).copied()
}

/// Returns the version of the job file.
pub(crate) fn version_of(state: &StateAt<'_>) -> Version
    ensures { result ≡ state.now.setting.job.version }
{
    state.setting().version()
}

/// Returns the number of steps after which each mesh is cancelled, or `None` if meshes aren't cancelled.
pub(crate) fn cancel_of(state: &StateAt<'_>) -> Option<u32>
    ensures { result ≡ state.now.setting.cancel }
{
    state.setting().cancel
}
