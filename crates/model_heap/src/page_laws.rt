//! Laws of physical pages: no transition of the table loses or creates a page. Each law is the contract of a function
//! that does nothing.
ghost use Rattle.model_heap.specs.PageLaws.{EmptyIsCounted, NewKeepsCount, FreeKeepsCount, SweepKeepsCount, BeginKeepsCount, WholeKeepsCount, StepKeepsCount, CancelKeepsCount, SweepAnswersPages, WholeAnswersPages, FreeIsWithin, TakenIsMapped};

/// Every transition keeps a sum: the number of free pages, plus the number of span pages that no mesh has released.
pub fn pages_are_counted()
    ensures empty { EmptyIsCounted }
    ensures made { NewKeepsCount }
    ensures freed { FreeKeepsCount }
    ensures swept { SweepKeepsCount }
    ensures begun { BeginKeepsCount }
    ensures whole { WholeKeepsCount }
    ensures stepped { StepKeepsCount }
    ensures cancelled { CancelKeepsCount }
{}

/// A sweep and a whole mesh return the number of pages that become free.
pub fn freed_pages_are_answered()
    ensures swept { SweepAnswersPages }
    ensures whole { WholeAnswersPages }
{}

/// The number of free pages is at most the number of physical pages, and meshes have released at most the pages of all
/// spans. The number of taken physical pages is at most the number of mapped virtual pages.
pub fn taken_is_mapped()
    ensures free { FreeIsWithin }
    ensures table { TakenIsMapped }
{}
