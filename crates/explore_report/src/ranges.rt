//! The text of the phases of a mesh, with consecutive phases as ranges.
ghost use Rattle.std.specs.Prelude.{◌≡◌, ℕ, ◌||◌, ◌++◌, ◌∷◌, [], IfOk, None, OnOk};
ghost use Rattle.std.specs.BTreeSet.{contains};
ghost use Rattle.std.specs.List.{flat_map, fold};
ghost use Rattle.explore_report.specs.PhaseRanges.{continues, has_rank, is_continued, is_rank_of, is_same_phase, kind_rank, mesher_phases_text, next_range_text, phase_entries, phases_of, range_text, ranges_from, ranges_text, rank_of, rank_order};
ghost use Rattle.explore_report.specs.Sorting.{AreNumbered, put_entry, unnumbered};

use crate::phase_text::add_phase;
use crate::sorted::{Sorted, put, values_of};
use crate::{LastStep, PhaseAt};
use mesh_running::place_of;
use model_words::StepKind;
use std::alloc::{AllocError, Global};
use std::collections::{BTreeMap, BTreeSet};

/// The rank of a phase: its place among the phases of a mesh, and a number of steps. Phases after steps have the order
/// of `KINDS`. The phases of a cancelled mesh come after `Over`.
type Rank = (usize, u32);

/// The ranks of phases.
type Ranks = BTreeSet<Rank>;

/// A range of phases.
#[derive(Clone, Copy)]
pub(crate) struct Range {
    /// The first phase.
    first: LastStep,
    /// The last phase.
    last: LastStep,
}

/// Adds the text of a mesher's phases among `phases`. `known` contains all phases of meshers in the exploration. Phases
/// that follow each other among the mesher's known phases are written as one range.
pub(crate) fn add_mesher_phases(
    alloc: Global,
    text: &mut Vec<u8>,
    known: &[PhaseAt],
    phases: &[PhaseAt],
    mesher: usize,
) -> Result<(), AllocError>
    ensures { OnOk result (text.new.items ≡ text.old.items ++ mesher_phases_text known.now phases.now mesher) }
{
    let known = phases_of(alloc, known, mesher)?;
    let ranks = ranks_of(alloc, phases, mesher)?;
    let ranges = ranges_of(alloc, known.as_slice(), &ranks)?;
    add_ranges(text, ranges.as_slice())
}

/// Returns the phases of a mesher among the given phases, in the order of a mesh.
fn phases_of(alloc: Global, phases: &[PhaseAt], mesher: usize) -> Result<Vec<LastStep>, AllocError>
    ensures { IfOk result (λ known. known.items ≡ phases_of mesher phases.now) }
{
    let mut sorted: Sorted<Rank, LastStep> = BTreeMap::new(alloc);
    for place in 0..phases.len() {
        put_phase(&mut sorted, phases[place], mesher)?;
    }
    values_of(alloc, &sorted)
}

/// Adds a phase to the sorted phases, if it is one of the given mesher.
fn put_phase(
    sorted: &mut Sorted<Rank, LastStep>,
    at: PhaseAt,
    mesher: usize,
) -> Result<(), AllocError>
    requires { AreNumbered sorted.old.entries }
    ensures numbered { OnOk result (AreNumbered sorted.new.entries) }
    ensures entries { OnOk result (unnumbered sorted.new.entries
        ≡ fold (put_entry rank_order) (unnumbered sorted.old.entries) (phase_entries mesher (at ∷ []))) }
{
    if at.mesher != mesher {
        return Ok(());
    }
    put(sorted, rank_of(at.phase), at.phase)
}

/// Returns the ranks of a mesher's phases among the given phases.
fn ranks_of(alloc: Global, phases: &[PhaseAt], mesher: usize) -> Result<Ranks, AllocError>
    ensures { IfOk result (λ ranks. (rank : ℕ × ℕ) → contains rank_order ranks rank ≡ has_rank mesher phases.now rank) }
{
    let mut ranks = BTreeSet::new(alloc);
    for place in 0..phases.len() {
        add_rank(&mut ranks, phases[place], mesher)?;
    }
    Ok(ranks)
}

/// Adds the rank of a phase, if it is one of the given mesher.
fn add_rank(ranks: &mut Ranks, at: PhaseAt, mesher: usize) -> Result<(), AllocError>
    ensures { OnOk result ((rank : ℕ × ℕ) → contains rank_order ranks.new rank
        ≡ (contains rank_order ranks.old rank || is_rank_of mesher rank at)) }
{
    if at.mesher != mesher {
        return Ok(());
    }
    ranks.insert(rank_of(at.phase))?;
    Ok(())
}

/// Returns the ranges of the known phases that have one of the ranks.
fn ranges_of(alloc: Global, known: &[LastStep], ranks: &Ranks) -> Result<Vec<Range>, AllocError>
    ensures { IfOk result (λ ranges. ranges.items
        ≡ ranges_from (λ phase. contains rank_order ranks.now (rank_of phase)) None known.now) }
{
    let mut ranges = Vec::new(alloc);
    let mut first = None;
    let mut left = known;
    while let [phase, rest @ ..] = left {
        first = add_phase_to(&mut ranges, ranks, first, *phase, rest)?;
        left = rest;
    }
    Ok(ranges)
}

/// Adds the range that ends with a phase. Adds nothing if the phase has none of the ranks, or the range goes on with
/// the first of the known phases `rest` after it. Returns the first phase of the range that goes on, if one does.
fn add_phase_to(
    ranges: &mut Vec<Range>,
    ranks: &Ranks,
    first: Option<LastStep>,
    phase: LastStep,
    rest: &[LastStep],
) -> Result<Option<LastStep>, AllocError>
    ensures { IfOk result (λ now. ranges.new.items
        ++ ranges_from (λ phase. contains rank_order ranks.now (rank_of phase)) now rest.now
        ≡ ranges.old.items
        ++ ranges_from (λ phase. contains rank_order ranks.now (rank_of phase)) first (phase ∷ rest.now)) }
{
    if !ranks.contains(&rank_of(phase)) {
        return Ok(None);
    }
    let first = first.unwrap_or(phase);
    if is_continued(ranks, phase, rest) {
        return Ok(Some(first));
    }
    ranges.push(Range { first, last: phase })?;
    Ok(None)
}

/// Whether a range that ends with a phase goes on with the first of the known phases `rest` after it.
fn is_continued(ranks: &Ranks, phase: LastStep, rest: &[LastStep]) -> bool
    ensures { result ≡ is_continued (λ phase. contains rank_order ranks.now (rank_of phase)) phase rest.now }
{
    match rest {
        [next, ..] => ranks.contains(&rank_of(*next)) && continues(phase, *next),
        _ => false,
    }
}

/// Whether a range that ends with the phase `last` can continue with `phase`, the next phase by rank. Any phase up to
/// `Over` can continue a range. `Cancelled` can continue only a range that ends with `Cancelled`. `Unwound` and
/// `Refused` can't continue a range.
fn continues(last: LastStep, phase: LastStep) -> bool
    ensures { result ≡ continues last phase }
{
    match phase {
        LastStep::Before | LastStep::Begun | LastStep::Stepped(_, _) | LastStep::Over => true,
        LastStep::Cancelled(_) => matches!(last, LastStep::Cancelled(_)),
        LastStep::Unwound | LastStep::Refused => false,
    }
}

/// Returns the rank of a phase.
fn rank_of(phase: LastStep) -> Rank
    ensures { result ≡ rank_of phase }
{
    match phase {
        LastStep::Before => (0, 0),
        LastStep::Begun => (1, 0),
        LastStep::Stepped(kind, made) => (2 + kind_rank(kind), made),
        LastStep::Over => (7, 0),
        LastStep::Cancelled(made) => (8, made),
        LastStep::Unwound => (9, 0),
        LastStep::Refused => (10, 0),
    }
}

/// Returns the place of a kind of step in `KINDS`.
fn kind_rank(kind: StepKind) -> usize
    ensures { result ≡ kind_rank kind }
{
    place_of(kind)
}

/// Adds the text of ranges, with commas between them.
fn add_ranges(text: &mut Vec<u8>, ranges: &[Range]) -> Result<(), AllocError>
    ensures { OnOk result (text.new.items ≡ text.old.items ++ ranges_text ranges.now) }
{
    match ranges {
        [range, others @ ..] => {
            add_range(text, *range)?;
            add_others(text, others)
        }
        _ => Ok(()),
    }
}

/// Adds the text of ranges, each after a comma.
fn add_others(text: &mut Vec<u8>, ranges: &[Range]) -> Result<(), AllocError>
    ensures { OnOk result (text.new.items ≡ text.old.items ++ flat_map next_range_text ranges.now) }
{
    for range in ranges {
        text.extend_from_slice(b", ")?;
        add_range(text, *range)?;
    }
    Ok(())
}

/// Adds the text of a range.
fn add_range(text: &mut Vec<u8>, range: Range) -> Result<(), AllocError>
    ensures { OnOk result (text.new.items ≡ text.old.items ++ range_text range) }
{
    add_phase(text, range.first)?;
    if is_same_phase(range.first, range.last) {
        return Ok(());
    }
    text.extend_from_slice(b" .. ")?;
    add_phase(text, range.last)
}

/// Whether two phases have the same rank.
fn is_same_phase(one: LastStep, other: LastStep) -> bool
    ensures { result ≡ is_same_phase one other }
{
    rank_of(one) == rank_of(other)
}
