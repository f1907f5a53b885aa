//! Worked examples of the text of a history. Each is the contract of a function that does nothing.
ghost use Rattle.mesh_text.specs.HistoryRows.{IdleWorkersAreNamed, NoneIsCounted, WorkersStandTogether};

/// The text of a history has a part for each worker, in ascending order, and ends with the number of all entries. A
/// part has the worker's answers in their order, without serials and addresses.
pub fn histories_are_told_by_worker()
    ensures none { NoneIsCounted }
    ensures idle { IdleWorkersAreNamed }
    ensures together { WorkersStandTogether }
{}
