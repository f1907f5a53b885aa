//! `Pattern`: the replies of workers in a forbidden outcome.
ghost use Rattle.std.specs.Prelude.{◌≡◌, IfOk};
ghost use Rattle.explore_verdict.specs.Patterns.{clause_in, inner, of_parts, pattern_of};

use crate::clause::{Clause, is_piece};
use std::alloc::{AllocError, Global};
use std::marker::Model;
use text_fields::lines::cut;

/// A pattern of the workers' replies in one outcome: clauses that all have to hold.
#[derive(Drop)]
pub struct Pattern {
    clauses: Vec<Clause>,
}

impl Model for Pattern {
    ghost use Rattle.explore_verdict.specs.Patterns.{Wanted};

    ghost Value = { Wanted };

    ghost view = { λ p. record { clauses = p.clauses.items } };
}

impl Pattern {
    /// Returns the pattern that a text spells: one clause, or several with ` & ` between them. `None` if the text
    /// spells no pattern.
    pub fn spelt(alloc: Global, text: &[u8]) -> Result<Option<Pattern>, AllocError>
        ensures { IfOk result (λ pattern. pattern ≡ pattern_of text.now) }
    {
        let mut padded = Vec::new(alloc);
        padded.push(b' ')?;
        padded.extend_from_slice(text)?;
        padded.push(b' ')?;
        of_parts(alloc, padded.as_slice())
    }

    /// The clauses, in order.
    pub(crate) fn clauses(&self) -> &[Clause]
        ensures { result.now ≡ self.now.clauses }
    {
        self.clauses.as_slice()
    }
}

/// Returns the pattern of a text whose clauses are each between two spaces, with `&` between them. `None` for any other
/// text.
fn of_parts(alloc: Global, text: &[u8]) -> Result<Option<Pattern>, AllocError>
    ensures { IfOk result (λ pattern. pattern ≡ of_parts text.now) }
{
    let mut clauses = Vec::new(alloc);
    let mut rest = text;
    while let Some((part, behind)) = cut(rest, b'&') {
        let Some(clause) = clause_in(alloc, part)? else {
            return Ok(None);
        };
        clauses.push(clause)?;
        rest = behind;
    }
    let Some(clause) = clause_in(alloc, rest)? else {
        return Ok(None);
    };
    clauses.push(clause)?;
    Ok(Some(Pattern { clauses }))
}

/// Returns the clause between two spaces. `None` for any other text.
fn clause_in(alloc: Global, part: &[u8]) -> Result<Option<Clause>, AllocError>
    ensures { IfOk result (λ clause. clause ≡ clause_in part.now) }
{
    if !is_piece(part) {
        return Ok(None);
    }
    Clause::spelt(alloc, inner(part))
}

/// The text of a piece without the bytes at its ends.
pub(crate) fn inner(piece: &[u8]) -> &[u8]
    ensures { result.now ≡ inner piece.now }
{
    match piece {
        [_, inner @ .., _] => inner,
        _ => &[],
    }
}
