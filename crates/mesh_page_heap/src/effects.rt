//! A lemma about the effect of a mesh's step on arena and page map. A lemma is the contract of a function that does
//! nothing.
ghost use Rattle.mesh_page_heap.specs.EffectLaws.{EffectIsOne};

/// The span index, the mesh, the arena and the page map before a step determine the state after the step. This state is
/// the physical page and the protection of each virtual page, which physical pages are taken, and each byte of a taken
/// page.
pub fn effects_are_determined()
    ensures { EffectIsOne }
{}
