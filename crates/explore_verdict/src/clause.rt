//! `Clause`: the replies of a worker in a forbidden outcome.
ghost use Rattle.std.specs.Prelude.{◌≡◌, None, Some, IfOk, MatchOption};
ghost use Rattle.std.specs.List.{list_all};
ghost use Rattle.model_jobs.specs.JobFiles.{number_in};
ghost use Rattle.explore_verdict.specs.Patterns.{behind, is_piece, of_number, of_pieces, clause_of, pieces_of, sides_of};

use crate::block::Block;
use std::alloc::{AllocError, Global};
use std::marker::Model;
use text_fields::lines::cut;
use text_fields::numbers::number32;

/// What is said of a worker's replies: their number, and for each reply either a text or that any text matches.
#[derive(Drop)]
pub struct Clause {
    worker: u32,
    // The text of each reply between two spaces; ` * ` for any reply.
    pieces: Vec<Block>,
}

impl Model for Clause {
    ghost use Rattle.explore_verdict.specs.Patterns.{Clause as ClauseParts};

    ghost Value = { ClauseParts };

    ghost view = { λ p. record { worker = p.worker; pieces = p.pieces.items } };
}

impl Clause {
    /// Returns the clause that a text spells: `W: ANSWER | ANSWER ..` or `worker W: ANSWER | ANSWER ..`, with a worker
    /// from 0 to 63, at least one answer, and `*` for any answer. `None` if the text spells no clause.
    pub fn spelt(alloc: Global, text: &[u8]) -> Result<Option<Clause>, AllocError>
        ensures { IfOk result (λ clause. clause ≡ clause_of text.now) }
    {
        match behind(text, b"worker ") {
            Some(rest) => of_sides(alloc, rest),
            None => of_sides(alloc, text),
        }
    }

    /// The worker.
    pub(crate) fn worker(&self) -> u32
        ensures { result ≡ self.now.worker }
    {
        self.worker
    }

    /// The expected replies, in order.
    pub(crate) fn pieces(&self) -> &[Block]
        ensures { result.now ≡ self.now.pieces }
    {
        self.pieces.as_slice()
    }
}

/// Returns the clause of a text that has a worker's number, a colon and the answers. `None` for any other text.
fn of_sides(alloc: Global, text: &[u8]) -> Result<Option<Clause>, AllocError>
    ensures { IfOk result (λ clause. clause ≡ sides_of text.now) }
{
    let Some((number, answers)) = cut(text, b':') else {
        return Ok(None);
    };
    if cut(answers, b':').is_some() {
        return Ok(None);
    }
    of_number(alloc, number, answers)
}

/// Returns the clause of a worker's number and its answers. `None` if the number or an answer is malformed.
fn of_number(alloc: Global, number: &[u8], answers: &[u8]) -> Result<Option<Clause>, AllocError>
    ensures { IfOk result (λ clause. clause ≡ of_number (number_in 0 63 number.now) answers.now) }
{
    let Ok(worker) = number32(number, 0, 63) else {
        return Ok(None);
    };
    let mut padded = Vec::new(alloc);
    padded.extend_from_slice(answers)?;
    padded.push(b' ')?;
    of_pieces(worker, pieces_of(alloc, padded.as_slice())?)
}

/// Returns the clause of a worker and its expected replies. `None` if some piece isn't a text between two spaces.
fn of_pieces(worker: u32, pieces: Vec<Block>) -> Result<Option<Clause>, AllocError>
    ensures { IfOk result (λ clause. clause ≡ of_pieces worker pieces.items) }
{
    if !are_pieces(pieces.as_slice()) {
        return Ok(None);
    }
    Ok(Some(Clause { worker, pieces }))
}

/// Returns the rest of a text that begins with `front`. `None` for any other text.
fn behind<'a>(text: &'a [u8], front: &[u8]) -> Option<&'a [u8]>
    ensures { MatchOption result (behind front.now text.now ≡ None)
        (λ rest. behind front.now text.now ≡ Some rest.now) }
{
    text.strip_prefix(front)
}

/// Returns the pieces of the text that the bars separate.
fn pieces_of(alloc: Global, answers: &[u8]) -> Result<Vec<Block>, AllocError>
    ensures { IfOk result (λ pieces. pieces.items ≡ pieces_of answers.now) }
{
    let mut pieces = Vec::new(alloc);
    let mut rest = answers;
    while let Some((piece, more)) = cut(rest, b'|') {
        pieces.push(copy_of(alloc, piece)?)?;
        rest = more;
    }
    pieces.push(copy_of(alloc, rest)?)?;
    Ok(pieces)
}

/// A block with a copy of some bytes.
fn copy_of(alloc: Global, bytes: &[u8]) -> Result<Block, AllocError>
    ensures { IfOk result (λ block. block ≡ bytes.now) }
{
    let mut copy = Vec::new(alloc);
    copy.extend_from_slice(bytes)?;
    Ok(Block::of(copy))
}

/// Whether each piece is a text of at least one byte between two spaces.
fn are_pieces(pieces: &[Block]) -> bool
    ensures { result ≡ list_all is_piece pieces.now }
{
    for piece in pieces {
        if !is_piece(piece.as_slice()) {
            return false;
        }
    }
    true
}

/// Whether a piece is a text of at least one byte between two spaces.
pub(crate) fn is_piece(piece: &[u8]) -> bool
    ensures { result ≡ is_piece piece.now }
{
    piece.starts_with(b" ") && piece.ends_with(b" ") && 3 <= piece.len()
}
