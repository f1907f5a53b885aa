//! The settings of a replay on two heaps.
ghost use Rattle.std.specs.Prelude.{◌≡◌};
ghost use Rattle.savings_replay.specs.Followed.{is_due};
ghost use Rattle.savings_replay.specs.Words.{new_seed};

/// The source of the words for `new` and for shuffles.
#[derive(Clone, Copy, Debug, PartialEq, Eq)]
pub enum Words {
    /// `Seeded(seed)`: the words come from two generators. The seed of the words for `new` is `seed`. The seed of the
    /// words for shuffles is `seed + 1`, modulo 2^64.
    Seeded(u64),
    /// Each word for `new` is 0, so a new object gets the lowest free slot. The seed of the words for shuffles is 2.
    FirstFit,
}

/// When a round follows a free of an object of up to 2,048 bytes.
#[derive(Clone, Copy, Debug, PartialEq, Eq)]
pub enum Rounds {
    /// `Every(frees)`: after this many frees since the last round. If the number is 0, no round is made.
    Every(u32),
    /// `Share(part)`: after at least 64 frees since the last round, if the number of these frees, times `part`, is at
    /// least the number of live objects of up to 2,048 bytes.
    Share(u32),
}

/// The settings of a replay on two heaps.
#[derive(Clone, Copy, Debug, PartialEq, Eq)]
pub struct Settings {
    /// When rounds are made.
    pub rounds: Rounds,
    /// The most members that a mesh may give a group. A group never has more than 8.
    pub members: u32,
    /// The maximal number of rounds of tries in a search.
    pub probe: u32,
    /// The source of the words for `new` and for shuffles.
    pub words: Words,
}

impl Words {
    /// Returns the seed of the words for `new`.
    pub(crate) fn new_seed(self) -> u64
        ensures { result ≡ new_seed self }
    {
        match self {
            Words::Seeded(seed) => seed,
            Words::FirstFit => 1,
        }
    }
}

impl Rounds {
    /// Whether a round follows a free. It is the free number `since` after the last round, counted from 1, and `live`
    /// objects of up to 2,048 bytes are left.
    pub(crate) fn is_due(self, since: u32, live: u32) -> bool
        ensures { result ≡ is_due self since live }
    {
        match self {
            Rounds::Every(frees) => since == frees,
            Rounds::Share(part) => since >= 64
                && u64::from(since) * u64::from(part) >= u64::from(live),
        }
    }
}
