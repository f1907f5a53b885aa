//! Laws of new objects: in which group and in which slot a new object is placed. Each law is the contract of a function
//! that does nothing.
ghost use Rattle.model_heap.specs.NewLaws.{RefusedByAddresses, NewTakesLowestOpen, NewTakesSpan};

/// In a sound table, a new object is placed in the lowest open group of its class, in the free slot that the word
/// picks. If and only if no group of its class is open, the object is placed in a new span.
pub fn new_takes_lowest()
    ensures group { NewTakesLowestOpen }
    ensures span { NewTakesSpan }
{}

/// A new span is refused with NO_ADDRESSES if and only if there are enough free pages and the span's last page would be
/// above the last virtual page.
pub fn refused_by_addresses()
    ensures { RefusedByAddresses }
{}
