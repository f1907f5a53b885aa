//! Why a slice can be judged by itself, and examples of slices. Each lemma is the contract of a function that does
//! nothing.
ghost use Rattle.history_witness.specs.SliceExamples.{EachByteCounts, LastStoresStay, LaterStoresMayGo, NewAndFreeStay, OverwrittenStoresMayGo};
ghost use Rattle.history_witness.specs.SliceLaws.{SlicesAreExplained, SlicesAreHistories};

/// The calls of a slice of a history are a history. If some order explains the history's calls, some order explains the
/// slice's calls.
pub fn slices()
    ensures histories { SlicesAreHistories }
    ensures explained { SlicesAreExplained }
{}

/// A slice has the `new` and the `free` of each of its objects. With a load it has the last store of each byte before
/// the load, and each store of the byte that overlaps or touches this store or the load. It need not have other stores.
pub fn examples()
    ensures overwritten { OverwrittenStoresMayGo }
    ensures last { LastStoresStay }
    ensures later { LaterStoresMayGo }
    ensures bytes { EachByteCounts }
    ensures objects { NewAndFreeStay }
{}
