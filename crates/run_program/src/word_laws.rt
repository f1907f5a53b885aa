//! A law of the words of a seed: the contract of a function that does nothing.
ghost use Rattle.run_program.specs.WordLaws.{RoundsGoOn, RoundsHaveTheirWords, SeedsHaveTheirWords};

/// Each round has 256 words. The words for more rounds begin with the words for fewer rounds. The first two words of
/// the seeds 0 and 1 are those that the programs of the generator's authors print.
pub fn words_are_the_seeds()
    ensures many { RoundsHaveTheirWords }
    ensures more { RoundsGoOn }
    ensures first { SeedsHaveTheirWords }
{}
