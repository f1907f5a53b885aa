//! Laws of table and memory: every transition keeps them tied. Each is the contract of a function that does nothing.
ghost use Rattle.model_heap.specs.TiedLaws.{SweepKeepsTied, BeginKeepsTied, WholeKeepsTied, CancelKeepsTied, StepKeepsTied, StoreKeepsTied, RootKeepsTied, FreeKeepsTied, NewKeepsTied};

/// A sweep keeps table and memory tied.
pub fn sweep_keeps_tied()
    ensures { SweepKeepsTied }
{}

/// The start of a mesh keeps table and memory tied, and so does a whole mesh.
pub fn begin_keeps_tied()
    ensures begun { BeginKeepsTied }
    ensures whole { WholeKeepsTied }
{}

/// A cancel of any running mesh keeps table and memory tied.
pub fn cancel_keeps_tied()
    ensures { CancelKeepsTied }
{}

/// A step of any running mesh keeps the memory tied to a sound table.
pub fn step_keeps_tied()
    ensures { StepKeepsTied }
{}

/// A store within an object keeps table and memory tied, and so does a change of the serial in a root cell.
pub fn store_keeps_tied()
    ensures bytes { StoreKeepsTied }
    ensures root { RootKeepsTied }
{}

/// Freeing an object keeps table and memory tied.
pub fn free_keeps_tied()
    ensures { FreeKeepsTied }
{}

/// A new object keeps the memory tied to a sound table.
pub fn new_keeps_tied()
    ensures { NewKeepsTied }
{}
