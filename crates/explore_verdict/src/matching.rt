//! Matches the workers' replies with patterns.
ghost use Rattle.std.specs.Prelude.{◌≡◌, [], IfOk, slice_index_or};
ghost use Rattle.std.specs.List.{list_all};
ghost use Rattle.explore_verdict.specs.Patterns.{are_met, is_begun_by, is_clause_met, is_match, is_met};

use crate::block::Block;
use crate::clause::Clause;
use crate::pattern::Pattern;
use explore_interleavings::Told;
use model_words::Reply;
use std::alloc::{AllocError, Global};
use text_fields::lines::is_word;
use text_words::add_reply;

/// Whether the workers' replies match a pattern.
pub(crate) fn is_match(alloc: Global, told: &[Told], pattern: &Pattern) -> Result<bool, AllocError>
    ensures { IfOk result (λ is. is ≡ is_match pattern.now told.now) }
{
    are_clauses_met(alloc, told, pattern.clauses())
}

/// Whether the workers' replies are those of each clause.
fn are_clauses_met(alloc: Global, told: &[Told], clauses: &[Clause]) -> Result<bool, AllocError>
    ensures { IfOk result (λ is. is ≡ list_all (is_clause_met told.now) clauses.now) }
{
    for clause in clauses {
        if !is_clause_met(alloc, told, clause)? {
            return Ok(false);
        }
    }
    Ok(true)
}

/// Whether the replies of a worker are those of a clause.
fn is_clause_met(alloc: Global, told: &[Told], clause: &Clause) -> Result<bool, AllocError>
    ensures { IfOk result (λ is. is ≡ is_clause_met told.now clause.now) }
{
    are_met(
        alloc,
        clause.pieces(),
        replies_of(told, clause.worker() as usize),
    )
}

/// The replies of a worker. Empty if there is no such worker.
pub(crate) fn replies_of(told: &[Told], worker: usize) -> &[Reply]
    ensures { result.now ≡ slice_index_or told.now worker [] }
{
    match told.get(worker) {
        Some(one) => one.replies(),
        None => &[],
    }
}

/// Whether the number of replies is the number of pieces, and each reply matches its piece.
fn are_met(alloc: Global, pieces: &[Block], replies: &[Reply]) -> Result<bool, AllocError>
    ensures { IfOk result (λ is. is ≡ are_met pieces.now replies.now) }
{
    let mut pieces = pieces;
    let mut replies = replies;
    while let Some((piece, more)) = pieces.split_first() {
        let Some((reply, others)) = replies.split_first() else {
            return Ok(false);
        };
        if !is_met(alloc, piece.as_slice(), reply)? {
            return Ok(false);
        }
        pieces = more;
        replies = others;
    }
    Ok(replies.is_empty())
}

/// Whether the piece is the reply's text with a space before and after it, or a beginning of this text and a star, as
/// ` bytes a* ` or ` * `.
pub(crate) fn is_met(alloc: Global, piece: &[u8], reply: &Reply) -> Result<bool, AllocError>
    ensures { IfOk result (λ is. is ≡ is_met piece.now reply.now) }
{
    let mut text = Vec::new(alloc);
    text.push(b' ')?;
    add_reply(&mut text, reply)?;
    text.push(b' ')?;
    Ok(is_word(piece, text.as_slice()) || is_begun_by(piece, text.as_slice()))
}

/// Whether the piece ends with a star, and the text begins as the piece does before the star.
fn is_begun_by(piece: &[u8], text: &[u8]) -> bool
    ensures { result ≡ is_begun_by piece.now text.now }
{
    piece.ends_with(b"* ") && text.starts_with(&piece[..piece.len() - 2])
}
