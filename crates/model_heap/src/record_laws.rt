//! Laws of records: whatever the mesher does, each live object keeps its record. Each is the contract of a function
//! that does nothing.
ghost use Rattle.model_heap.specs.RecordLaws.{BeginKeepsRecords, CancelKeepsRecords, StepKeepsRecords, SweepKeepsRecords, TiedHaveSameRecords, WholeKeepsRecords};

/// The record of each serial is unchanged by the start of a mesh, by each of its steps, by its cancel, by a whole mesh
/// and by a sweep. Two sound tables that are tied to one memory have the same records.
pub fn mesher_keeps_records()
    ensures tied { TiedHaveSameRecords }
    ensures begin { BeginKeepsRecords }
    ensures step { StepKeepsRecords }
    ensures cancel { CancelKeepsRecords }
    ensures whole { WholeKeepsRecords }
    ensures sweep { SweepKeepsRecords }
{}
