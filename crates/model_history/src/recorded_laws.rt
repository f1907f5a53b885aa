//! Lemmas about recorded histories. Each is the contract of a function that does nothing.
ghost use Rattle.model_history.specs.RecordedLaws.{HeapHistoriesAreTaken, RecordedHaveOneEnd, SerialsAreGivenOnce, ThisHeapIsACase};

/// The legal histories of this heap are exactly those of the allocator `this_heap`, which has this heap's bounds and
/// counts serials from 0.
pub fn this_heap_is_a_case()
    ensures { ThisHeapIsACase }
{}

/// Every legal history of this heap whose commands name only cells below 256 is also a history of `any_allocator`.
pub fn heap_histories_are_taken()
    ensures { HeapHistoriesAreTaken }
{}

/// The entries of a recorded history determine its end state. In a history of `any_allocator`, no two objects have the
/// same serial.
pub fn recorded_histories()
    ensures one_end { RecordedHaveOneEnd }
    ensures once { SerialsAreGivenOnce }
{}
