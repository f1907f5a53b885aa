//! Examples of the progress of a mesh after each number of steps. Each example is a lemma: the contract of a function
//! that does nothing.
ghost use Rattle.mesh_page_heap.specs.Progress.{MeshesTwoMembers, MeshesTwoPages, UnwindsTwoPages};

/// For two meshes with nine steps each, the state before each step: which source pages are read-only, and how many
/// slots are copied, pages remapped and pages freed.
pub fn meshes_by_steps()
    ensures members { MeshesTwoMembers }
    ensures pages { MeshesTwoPages }
{}

/// While a cancelled mesh with two protected pages is unwound, these pages become writable one by one, and nothing of
/// the source is copied, remapped or freed.
pub fn unwinding_by_steps()
    ensures { UnwindsTwoPages }
{}
