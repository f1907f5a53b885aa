//! Finds answers of patterns that occur in no outcome.
ghost use Rattle.std.specs.Prelude.{◌≡◌, ◌++◌, IfOk, OnOk, Some, slice_get};
ghost use Rattle.explore_verdict.specs.Patterns.{told_in};
ghost use Rattle.explore_verdict.specs.Unseen.{is_met_at, is_seen, unseen_from, unseen_in, unseen_text};

use crate::block::Block;
use crate::clause::Clause;
use crate::matching::{is_met, replies_of};
use explore_interleavings::{Explorer, Told};
use explore_report::Outcome;
use states_reach::System;
use std::alloc::{AllocError, Global};
use text_words::add_decimal;

/// An answer of a pattern that no outcome has.
#[derive(Clone, Copy, PartialEq, Eq)]
pub(crate) struct Unseen {
    /// The worker of the answer.
    pub worker: u32,
    /// The number of the answer among the worker's answers, counted from 1.
    pub answer: usize,
}

/// Adds what the line of a condition says of an answer that no outcome has, if there is one.
pub(crate) fn add_unseen(text: &mut Vec<u8>, unseen: Option<Unseen>) -> Result<(), AllocError>
    ensures { OnOk result (text.new.items ≡ text.old.items ++ unseen_text unseen) }
{
    match unseen {
        Some(unseen) => add_unseen_answer(text, unseen),
        None => Ok(()),
    }
}

/// Adds what the line of a condition says of an answer that no outcome has.
fn add_unseen_answer(text: &mut Vec<u8>, unseen: Unseen) -> Result<(), AllocError>
    ensures { OnOk result (text.new.items ≡ text.old.items ++ unseen_text (Some unseen)) }
{
    text.extend_from_slice(b"; no outcome has answer ")?;
    add_decimal(text, unseen.answer as u64)?;
    text.extend_from_slice(b" of worker ")?;
    add_decimal(text, u64::from(unseen.worker))?;
    Ok(())
}

/// Returns the first answer of these clauses that no outcome has, or `None` if outcomes have each.
pub(crate) fn unseen_in(
    alloc: Global,
    states: &Explorer<'_>,
    outcomes: &[Outcome],
    clauses: &[Clause],
) -> Result<Option<Unseen>, AllocError>
    ensures { IfOk result (λ unseen. unseen ≡ unseen_in states.now.states outcomes.now clauses.now) }
{
    let mut rest = clauses;
    while let [clause, behind @ ..] = rest {
        let worker = clause.worker();
        if let Some(unseen) = unseen_of(alloc, states, outcomes, worker, clause.pieces())? {
            return Ok(Some(unseen));
        }
        rest = behind;
    }
    Ok(None)
}

/// Returns the first answer of a worker that no outcome has, or `None` if outcomes have each.
fn unseen_of(
    alloc: Global,
    states: &Explorer<'_>,
    outcomes: &[Outcome],
    worker: u32,
    pieces: &[Block],
) -> Result<Option<Unseen>, AllocError>
    ensures { IfOk result (λ unseen. unseen ≡ unseen_from states.now.states outcomes.now worker 0 pieces.now) }
{
    let mut place = 0;
    let mut rest = pieces;
    while let [piece, behind @ ..] = rest {
        if !is_seen(alloc, states, outcomes, piece.as_slice(), worker, place)? {
            let answer = place + 1;
            return Ok(Some(Unseen { worker, answer }));
        }
        place += 1;
        rest = behind;
    }
    Ok(None)
}

/// Whether a worker's reply at a place matches the piece in some outcome.
fn is_seen(
    alloc: Global,
    states: &Explorer<'_>,
    outcomes: &[Outcome],
    piece: &[u8],
    worker: u32,
    place: usize,
) -> Result<bool, AllocError>
    ensures { IfOk result (λ is. is ≡ is_seen states.now.states outcomes.now piece.now worker place) }
{
    for outcome in outcomes {
        if is_met_in(alloc, states, outcome.place, piece, worker, place)? {
            return Ok(true);
        }
    }
    Ok(false)
}

/// Whether a worker's reply at a place matches the piece in a state.
fn is_met_in(
    alloc: Global,
    states: &Explorer<'_>,
    state: usize,
    piece: &[u8],
    worker: u32,
    place: usize,
) -> Result<bool, AllocError>
    ensures { IfOk result
        (λ is. is ≡ is_met_at piece.now worker place (told_in (slice_get states.now.states state))) }
{
    match states.at(state) {
        Some(state) => is_met_at(alloc, piece, worker, place, state.told()),
        None => Ok(false),
    }
}

/// Whether a worker's reply at a place matches the piece.
fn is_met_at(
    alloc: Global,
    piece: &[u8],
    worker: u32,
    place: usize,
    told: &[Told],
) -> Result<bool, AllocError>
    ensures { IfOk result (λ is. is ≡ is_met_at piece.now worker place told.now) }
{
    match replies_of(told, worker as usize).get(place) {
        Some(reply) => is_met(alloc, piece, reply),
        None => Ok(false),
    }
}
