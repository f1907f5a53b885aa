//! Laws of refusals: when each refusal holds, independently of the others, and that the answer is the lowest refusal
//! that holds. Each law is the contract of a function that does nothing.
ghost use Rattle.model_heap.specs.RefusalLaws.{BeginIsRefusedByLowest, WholeIsRefusedByLowest, SweepIsRefusedByLowest, StepIsRefusedByLowest, CancelIsRefusedByLowest, NewIsRefusedByLowest};

/// `begin` and a whole mesh are refused with the lowest refusal that holds, and succeed if and only if none holds. This
/// is true for any test of busy classes.
pub fn meshes_are_refused_by_lowest()
    ensures begin { BeginIsRefusedByLowest }
    ensures whole { WholeIsRefusedByLowest }
{}

/// A sweep is refused with the lowest refusal that holds, and succeeds if and only if none holds. The refusal BUSY
/// holds if and only if the group itself is in a running mesh.
pub fn sweeps_are_refused_by_lowest()
    ensures { SweepIsRefusedByLowest }
{}

/// A step and a cancel in a sound table are refused with the lowest refusal that holds, and succeed if and only if none
/// holds. The step or the cancel is that of the first running mesh that passes a test. The law is true for each test.
pub fn steps_are_refused_by_lowest()
    ensures step { StepIsRefusedByLowest }
    ensures cancel { CancelIsRefusedByLowest }
{}

/// A new object is refused with the lowest refusal that holds, and is placed if and only if none holds.
pub fn new_is_refused_by_lowest()
    ensures { NewIsRefusedByLowest }
{}
