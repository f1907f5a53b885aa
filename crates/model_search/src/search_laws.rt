//! Lemmas about the split search's candidates. Each is the contract of a function that does nothing.
ghost use Rattle.model_search.specs.SearchLaws.{TriesAreIndexed, TriesAreOfBoth, ProbesAreFew, ShufflesKeepNumbers, ShufflesPick, PairsAreMeshable, GroupsPairOnce, OverlapIsBySets, CandidatesAreExact, CandidatesAscend};

/// If a table is sound, the candidates of a class are exactly its groups that are in no running mesh and have an
/// occupied and a free slot. They are in ascending order of their numbers.
pub fn candidates_are_partly_filled()
    ensures exact { CandidatesAreExact }
    ensures ascend { CandidatesAscend }
{}

/// If the second list has `m` candidates, round `i` tries the candidate at index `j` of the first list with the
/// candidate at index `(j + i) mod m` of the second list. A round makes as many tries as the shorter list has
/// candidates. A search over `n` candidates makes at most `t * floor(n / 2)` tries in `t` rounds.
pub fn search_tries()
    ensures indexed { TriesAreIndexed }
    ensures of_both { TriesAreOfBoth }
    ensures few { ProbesAreFew }
{}

/// A shuffle doesn't change how often a number occurs in a list of numbers. Each candidate of a shuffled list was in
/// the list before the shuffle.
pub fn shuffles_keep()
    ensures numbers { ShufflesKeepNumbers }
    ensures candidates { ShufflesPick }
{}

/// The two groups of each pair of a search are meshable. If the candidates have distinct numbers, no group is in two
/// pairs.
pub fn search_pairs()
    ensures meshable { PairsAreMeshable }
    ensures once { GroupsPairOnce }
{}

/// Two groups overlap if and only if their sets of occupied slots are not meshable.
pub fn overlap_is_by_sets()
    ensures { OverlapIsBySets }
{}
