//! Finds conditions whose patterns no outcome can match.
ghost use Rattle.std.specs.Prelude.{◌≡◌, ◌<◌, None, IfOk, IfSome, length, slice_get};
ghost use Rattle.std.specs.List.{list_all};
ghost use Rattle.explore_verdict.specs.Mismatches.{AreMatchable, IsUnmatchable, clause_mismatch, commands_left, first_mismatch, is_answer, mismatch_in, mismatch_of};

use crate::beginnings::{is_begun, is_spelt};
use crate::block::Block;
use crate::clause::Clause;
use crate::condition::{Condition, Demand};
use crate::pattern::{Pattern, inner};
use explore_interleavings::{Explorer, StateAt};
use states_reach::Reached;
use std::alloc::{AllocError, Global};
use text_job::Job;

/// Why no outcome of a job can match a pattern.
#[derive(Clone, Copy, Debug, PartialEq, Eq)]
pub enum Mismatch {
    /// The job has no such worker.
    NoWorker,
    /// Some answer of the pattern is none that a command can have.
    NoAnswer,
    /// The pattern has more answers than the worker has commands.
    TooManyAnswers,
}

/// A condition whose pattern no outcome can match.
#[derive(Clone, Copy, Debug, PartialEq, Eq)]
pub struct Unmatchable {
    /// What the condition demands.
    pub demand: Demand,
    /// The number of the condition among those of this demand, counted from 1.
    pub number: u32,
    /// Why no outcome can match the pattern.
    pub mismatch: Mismatch,
}

/// Returns the first condition whose pattern no outcome can match, or `None` if outcomes can match each.
pub(crate) fn unmatchable_in(
    alloc: Global,
    reached: &Reached<Explorer<'_>>,
    conditions: &[Condition],
) -> Result<Option<Unmatchable>, AllocError>
    ensures some { IfOk result (λ found.
        IfSome found (IsUnmatchable reached.now.system.setting reached.now.system.states conditions.now)) }
    ensures none { IfOk result (λ found.
        found ≡ None → AreMatchable reached.now.system.setting reached.now.system.states conditions.now) }
{
    match reached.system.at(0) {
        Some(state) => first_mismatch(alloc, &state, conditions),
        None => Ok(None),
    }
}

/// Returns the first condition whose pattern no outcome can match, or `None` if outcomes can match each. `state` is the
/// initial state.
fn first_mismatch(
    alloc: Global,
    state: &StateAt<'_>,
    conditions: &[Condition],
) -> Result<Option<Unmatchable>, AllocError>
    ensures { IfOk result (λ found. found ≡ first_mismatch state.now.setting state.now.state conditions.now) }
{
    let mut rest = conditions;
    while let [condition, behind @ ..] = rest {
        if let Some(mismatch) = mismatch_of(alloc, state, &condition.pattern)? {
            return Ok(Some(Unmatchable {
                demand: condition.demand,
                number: condition.number,
                mismatch,
            }));
        }
        rest = behind;
    }
    Ok(None)
}

/// Returns why no outcome can match a pattern, or `None` if some outcome may.
fn mismatch_of(
    alloc: Global,
    state: &StateAt<'_>,
    pattern: &Pattern,
) -> Result<Option<Mismatch>, AllocError>
    ensures { IfOk result (λ why. why ≡ mismatch_of state.now.setting state.now.state pattern.now) }
{
    mismatch_in(alloc, state, pattern.clauses())
}

/// Returns why no outcome can match all of these clauses, or `None` if some outcome may. The reason is that of the
/// first clause that has one.
fn mismatch_in(
    alloc: Global,
    state: &StateAt<'_>,
    clauses: &[Clause],
) -> Result<Option<Mismatch>, AllocError>
    ensures { IfOk result (λ why. why ≡ mismatch_in state.now.setting state.now.state clauses.now) }
{
    let mut rest = clauses;
    while let [clause, behind @ ..] = rest {
        if let Some(mismatch) = clause_mismatch(alloc, state, clause)? {
            return Ok(Some(mismatch));
        }
        rest = behind;
    }
    Ok(None)
}

/// Returns why no outcome can match a clause, or `None` if some outcome may.
fn clause_mismatch(
    alloc: Global,
    state: &StateAt<'_>,
    clause: &Clause,
) -> Result<Option<Mismatch>, AllocError>
    ensures { IfOk result (λ why. why ≡ clause_mismatch state.now.setting state.now.state clause.now) }
{
    let job: &Job = state.setting().job;
    let worker = clause.worker();
    if job.scripts.count() <= worker as usize {
        return Ok(Some(Mismatch::NoWorker));
    }
    if !are_answers(alloc, clause.pieces())? {
        return Ok(Some(Mismatch::NoAnswer));
    }
    if commands_left(state, worker) < clause.pieces().len() {
        Ok(Some(Mismatch::TooManyAnswers))
    } else {
        Ok(None)
    }
}

/// The number of commands that are left for a worker.
fn commands_left(state: &StateAt<'_>, worker: u32) -> usize
    requires { worker < length state.now.setting.job.scripts }
    ensures { result ≡ commands_left state.now.setting state.now.state worker }
{
    let job: &Job = state.setting().job;
    job.scripts
        .of(worker)
        .len()
        .saturating_sub(state.place_of(worker))
}

/// Whether a reply can match each piece.
fn are_answers(alloc: Global, pieces: &[Block]) -> Result<bool, AllocError>
    ensures { IfOk result (λ are. are ≡ list_all is_answer pieces.now) }
{
    for piece in pieces {
        if !is_answer(alloc, piece.as_slice())? {
            return Ok(false);
        }
    }
    Ok(true)
}

/// Whether a reply can match the piece: an answer, or the beginning of one and a star, between two spaces.
fn is_answer(alloc: Global, piece: &[u8]) -> Result<bool, AllocError>
    ensures { IfOk result (λ is. is ≡ is_answer piece.now) }
{
    Ok(is_spelt(alloc, inner(piece)) || is_begun(alloc, inner(piece))?)
}
