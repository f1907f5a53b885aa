//! Laws of reads that the journal doesn't record, and of the history that is built from the journal and these reads.
//! Each law is the contract of a function that does nothing.
//!
//! A read in a seat has a length: the number of the journal's entries that the read saw. A journal *fits* its seats if
//! only reads have a length, each seat's calls without a length are the entries of the seat's worker, and each worker
//! with an entry has a seat.
ghost use Rattle.model_memory.specs.ReadLaws.{BuiltIsLegal, BuiltHasCalls, BuiltHasNoOther, ReadsDifferOnce, RightDifferNowhere, FewAreMade, LowerSeatFirst, PlacesOfReads, RecordedDiffers, StrangeEntryDiffers, StrangeReadDiffers, ThreeEntries};

/// If a journal is legal and fits its seats, and all reads of the seats are right, the history built from the journal
/// and the reads is legal. The built history's final memory is the journal's final memory.
pub fn built_is_legal()
    ensures { BuiltIsLegal }
{}

/// If a journal is legal and fits its seats, and all reads of the seats are right, each worker's entries in the built
/// history are the calls of the worker's seat, in order. If each worker with an entry in the journal has a seat, each
/// worker with an entry in the built history has a seat.
pub fn built_has_calls()
    ensures calls { BuiltHasCalls }
    ensures no_other { BuiltHasNoOther }
{}

/// At most one read is reported as the first wrong read. If all reads are right, no read is reported.
pub fn reads_differ_once()
    ensures right { RightDifferNowhere }
    ensures once { ReadsDifferOnce }
{}

/// The number of objects that a history makes is at most its number of entries.
pub fn few_are_made()
    ensures { FewAreMade }
{}

/// Examples. A seat with a call of another book differs from the journal. A seat also differs if it lacks a call that
/// the journal records. Two other examples each state the history that is built from a journal and seats. The last
/// examples state, for some reads, whether the number of entries that the read saw fits the calls before and after the
/// read, and the journal's length.
pub fn reads_are_told()
    ensures strange { StrangeReadDiffers }
    ensures recorded { RecordedDiffers }
    ensures entry { StrangeEntryDiffers }
    ensures three { ThreeEntries }
    ensures lower { LowerSeatFirst }
    ensures places { PlacesOfReads }
{}
