//! Lemmas about the counts by class of a sound table. Each lemma is the contract of a function that does nothing.
ghost use Rattle.savings_replay.specs.ClassLaws.{BytesFitPages, ObjectsFitPages};

/// In a sound table, let `k` be the smallest number of spans that have a slot for each object of a class. Then the
/// groups of the class that have an object have at least as many physical pages as `k` spans.
pub fn objects_fit_pages()
    ensures { ObjectsFitPages }
{}

/// In a sound table, the bytes of all objects are at most the bytes of the fewest spans of each class that have a slot
/// for each of its objects.
pub fn bytes_fit_pages()
    ensures { BytesFitPages }
{}
