//! The law of a copy between two ranges of the reference memory. It is the contract of a function that does nothing.
ghost use Rattle.model_memory.specs.CopyLaws.{CopyTakesOldBytes};

/// A copy writes the bytes that the source range had before the copy, even if the source range and the written range
/// overlap. The copy changes nothing outside the written range.
pub fn copy_takes_old_bytes()
    ensures { CopyTakesOldBytes }
{}
