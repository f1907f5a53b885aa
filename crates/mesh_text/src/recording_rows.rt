//! A worked example of the text of a recorded history. It is the contract of a function that does nothing.
ghost use Rattle.mesh_text.specs.RecordingRows.{EachIsRecorded, NoneIsRecorded};

/// The text of a recorded history begins with the version of the format, and then has one line per entry, in order. A
/// line has the worker, its command as in a job file, and its answer as in a replay, with serials and addresses.
pub fn histories_are_recorded_in_order()
    ensures none { NoneIsRecorded }
    ensures each { EachIsRecorded }
{}
