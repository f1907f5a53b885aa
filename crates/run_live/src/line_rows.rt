//! Worked examples of the lines of a session. Each is the contract of a function that does nothing.
ghost use Rattle.run_live.specs.LineRows.{AttemptsAreRead, CallsAreRead, FieldsAreLookedAtInOrder, WordsAreLookedAtFirst};

/// A line is an attempt or a call of the mesher. If a line has several faults, the kind of the first is reported.
/// Faults are in this order: a line that is too long, a byte that isn't allowed, a wrong word or number of fields, and
/// then the wrong fields from left to right.
pub fn lines_are_read_by_kind()
    ensures attempts { AttemptsAreRead }
    ensures calls { CallsAreRead }
    ensures words { WordsAreLookedAtFirst }
    ensures fields { FieldsAreLookedAtInOrder }
{}
