//! `Condition`: what is demanded of the outcomes that match a pattern.
ghost use Rattle.std.specs.Prelude.{◌≡◌};
ghost use Rattle.explore_verdict.specs.Conditions.{demand_word, is_demanded, is_example_if};

use crate::pattern::Pattern;

/// What is demanded of the outcomes of a job.
#[derive(Clone, Copy, Debug, PartialEq, Eq)]
pub enum Demand {
    /// No outcome matches.
    Never,
    /// Each outcome matches.
    Always,
    /// At least one outcome matches.
    Exists,
}

/// A condition on the outcomes of a job.
#[derive(Drop)]
pub struct Condition {
    /// What is demanded of the outcomes that match the pattern.
    pub demand: Demand,
    /// The number of the condition among those of this demand, counted from 1.
    pub number: u32,
    /// The pattern.
    pub pattern: Pattern,
}

impl Demand {
    /// The word of the demand, which is also the name of its option.
    pub fn word(self) -> &'static [u8]
        ensures { result.now ≡ demand_word self }
    {
        match self {
            Demand::Never => b"never",
            Demand::Always => b"always",
            Demand::Exists => b"exists",
        }
    }

    /// Whether outcomes meet the demand, if `matching` of `all` outcomes match.
    pub(crate) fn is_met(self, matching: usize, all: usize) -> bool
        ensures { result ≡ is_demanded self matching all }
    {
        match self {
            Demand::Never => matching == 0,
            Demand::Always => matching == all,
            Demand::Exists => 0 < matching,
        }
    }

    /// Whether an outcome shows that the demand isn't met, if it matches or doesn't.
    pub(crate) fn is_example(self, is_match: bool) -> bool
        ensures { result ≡ is_example_if self is_match }
    {
        match self {
            Demand::Never => is_match,
            Demand::Always => !is_match,
            Demand::Exists => false,
        }
    }
}
