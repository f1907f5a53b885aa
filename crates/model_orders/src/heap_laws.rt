//! Each step of a mesh of `model_otherwise` is a move of its rows. The laws are contracts of functions that do nothing.
ghost use Rattle.model_orders.specs.HeapRowLaws.{ChangesOneView, CopiesOneSlot, ReleasesOnePage, StaysOfMesh, StoresOneByte};
ghost use Rattle.model_orders.specs.declared.steps.Step.TheVariants.{Copy, Hide, Protect, Release, Remap, Unprotect};

/// A step of a virtual page changes the view of this page in its row, and nothing else.
pub fn pages_change_alone()
    ensures protect { ChangesOneView Protect }
    ensures hide { ChangesOneView Hide }
    ensures remap { ChangesOneView Remap }
    ensures unprotect { ChangesOneView Unprotect }
{}

/// A copy of a slot copies the live bytes of this slot in each row, and changes nothing else.
pub fn slots_are_copied()
    ensures { CopiesOneSlot }
{}

/// A release of a physical page releases the page of its row, and changes nothing else.
pub fn pages_are_released()
    ensures { ReleasesOnePage }
{}

/// A store of a live byte that isn't blocked stores to one row, through one view, and changes nothing else.
pub fn bytes_are_stored()
    ensures { StoresOneByte }
{}

/// The premises of these laws hold after each step too.
pub fn premises_stay()
    ensures protect { StaysOfMesh Protect }
    ensures hide { StaysOfMesh Hide }
    ensures copy { StaysOfMesh Copy }
    ensures remap { StaysOfMesh Remap }
    ensures unprotect { StaysOfMesh Unprotect }
    ensures release { StaysOfMesh Release }
{}
