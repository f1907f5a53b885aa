//! `Differences`: the differences between a listing and what a text lists.
ghost use Rattle.std.specs.Prelude.{◌≡◌, ◌&&◌, ℕ, List, not, IfOk};
ghost use Rattle.explore_verdict.specs.Answers.{answers_of};
ghost use Rattle.explore_verdict.specs.Expected.{blocks_of};
ghost use Rattle.explore_verdict.specs.Judged.{AreDifferences, is_any, is_empty, is_unexpected, listed_answers, outcome_texts, short_text, unexpected_answers, unexpected_in, whole_text};
ghost use Rattle.explore_verdict.specs.TextSets.{distinct};

use crate::answers::answers;
use crate::block::Block;
use crate::expected::blocks;
use crate::text_set::{TextSet, missing_in};
use explore_interleavings::Explorer;
use explore_report::{Listing, Outcome, add_end, add_told, commands_text};
use states_reach::{Reached, System};
use std::alloc::{AllocError, Global};

/// The differences between a listing and what a text lists.
pub struct Differences {
    /// The answers that the text lists and the listing doesn't have, each once.
    pub missing_answers: Vec<Block>,
    /// The answers of the listing that the text doesn't list, if it lists answers.
    pub unexpected_answers: Vec<Block>,
    /// The outcomes that the text lists and the listing doesn't have, each once.
    pub missing: Vec<Block>,
    /// For each outcome of the listing, whether the text lists outcomes, and not this one.
    pub unexpected: Vec<bool>,
}

#[rattlefmt::skip]
impl Drop for Differences {
    fn drop(self) { let Differences { missing_answers: _, unexpected_answers: _, missing: _, unexpected: _ } = self; }
}

impl Differences {
    /// Whether there are no differences.
    pub fn are_none(&self) -> bool
        ensures { result ≡ is_empty self.now.missing_answers.items && (is_empty self.now.unexpected_answers.items
            && (is_empty self.now.missing.items && not (is_any self.now.unexpected.items))) }
    {
        self.missing_answers.is_empty()
            && self.unexpected_answers.is_empty()
            && self.missing.is_empty()
            && !is_any(self.unexpected.as_slice())
    }
}

/// Whether a flag is set.
fn is_any(flags: &[bool]) -> bool
    ensures { result ≡ is_any flags.now }
{
    for flag in flags {
        if *flag {
            return true;
        }
    }
    false
}

/// Compares a listing with what a text lists. Returns an error if an allocation fails, or if there are more than 2^32
/// texts.
pub(crate) fn compared(
    alloc: Global,
    reached: &Reached<Explorer<'_>>,
    listing: &Listing,
    answers: &[Block],
    listed: &[Block],
    blocks: &[Block],
) -> Result<Differences, AllocError>
    ensures { (text : List ℕ) → answers.now ≡ answers_of text
        → listed.now ≡ listed_answers reached.now.system.setting reached.now.system.states listing.now
        → blocks.now ≡ blocks_of text
        → IfOk result
        (AreDifferences reached.now.system.setting reached.now.system.states listing.now text) }
{
    let has_answers = TextSet::of(alloc, listed)?;
    let missing_answers = missing_in(alloc, &has_answers, answers)?;
    let unexpected_answers = unexpected_answers(alloc, answers, listed)?;
    let outcomes = listing.outcomes.as_slice();
    let has_outcomes = outcome_texts(alloc, &reached.system, outcomes)?;
    let missing = missing_in(alloc, &has_outcomes, blocks)?;
    let unexpected = unexpected_in(alloc, &reached.system, outcomes, blocks)?;
    Ok(Differences {
        missing_answers,
        unexpected_answers,
        missing,
        unexpected,
    })
}

/// Returns the answers that a listing has.
pub(crate) fn listed_answers(
    alloc: Global,
    reached: &Reached<Explorer<'_>>,
    listing: &Listing,
) -> Result<Vec<Block>, AllocError>
    ensures { IfOk result (λ listed. listed.items
        ≡ listed_answers reached.now.system.setting reached.now.system.states listing.now) }
{
    let text = commands_text(alloc, reached, listing)?;
    answers(alloc, text.as_slice())
}

/// Returns the listed answers that aren't expected, if any are expected.
fn unexpected_answers(
    alloc: Global,
    expected: &[Block],
    listed: &[Block],
) -> Result<Vec<Block>, AllocError>
    ensures { IfOk result (λ unexpected. unexpected.items ≡ unexpected_answers expected.now listed.now) }
{
    if expected.is_empty() {
        return Ok(Vec::new(alloc));
    }
    let set = TextSet::of(alloc, expected)?;
    missing_in(alloc, &set, listed)
}

/// Returns the set of both texts of each outcome.
fn outcome_texts(
    alloc: Global,
    states: &Explorer<'_>,
    outcomes: &[Outcome],
) -> Result<TextSet, AllocError>
    ensures { IfOk result
        (λ set. set ≡ distinct (outcome_texts states.now.setting states.now.states outcomes.now)) }
{
    let mut set = TextSet::new(alloc);
    let mut rest = outcomes;
    while let [outcome, behind @ ..] = rest {
        set.add(short_text(alloc, states, *outcome)?)?;
        set.add(whole_text(alloc, states, *outcome)?)?;
        rest = behind;
    }
    Ok(set)
}

/// Returns for each outcome whether there are expected outcomes, and it is none of them.
fn unexpected_in(
    alloc: Global,
    states: &Explorer<'_>,
    outcomes: &[Outcome],
    blocks: &[Block],
) -> Result<Vec<bool>, AllocError>
    ensures { IfOk result (λ flags. flags.items
        ≡ unexpected_in states.now.setting states.now.states outcomes.now blocks.now) }
{
    let set = TextSet::of(alloc, blocks)?;
    let is_compared = !blocks.is_empty();
    let mut flags = Vec::new(alloc);
    let mut rest = outcomes;
    while let [outcome, behind @ ..] = rest {
        let is_unexpected = is_unexpected(alloc, states, &set, *outcome)?;
        flags.push(is_compared & is_unexpected)?;
        rest = behind;
    }
    Ok(flags)
}

/// Whether the set has no text of an outcome.
fn is_unexpected(
    alloc: Global,
    states: &Explorer<'_>,
    set: &TextSet,
    outcome: Outcome,
) -> Result<bool, AllocError>
    ensures { IfOk result
        (λ is. is ≡ is_unexpected states.now.setting states.now.states set.now outcome) }
{
    let short = short_text(alloc, states, outcome)?;
    let whole = whole_text(alloc, states, outcome)?;
    let is_listed = set.has(&short) | set.has(&whole);
    Ok(!is_listed)
}

/// Returns the lines of the workers in an outcome.
fn short_text(alloc: Global, states: &Explorer<'_>, outcome: Outcome) -> Result<Block, AllocError>
    ensures { IfOk result (λ text. text ≡ short_text states.now.states outcome) }
{
    let mut text = Vec::new(alloc);
    if let Some(state) = states.at(outcome.place) {
        add_told(&mut text, state.told())?;
    }
    Ok(Block::of(text))
}

/// Returns these lines, and the line of the outcome's end.
fn whole_text(alloc: Global, states: &Explorer<'_>, outcome: Outcome) -> Result<Block, AllocError>
    ensures { IfOk result (λ text. text ≡ whole_text states.now.setting states.now.states outcome) }
{
    let mut text = Vec::new(alloc);
    if let Some(state) = states.at(outcome.place) {
        add_told(&mut text, state.told())?;
        add_end(alloc, &mut text, &state)?;
    }
    Ok(Block::of(text))
}
