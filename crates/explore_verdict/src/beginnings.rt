//! Answers, and beginnings of answers.
ghost use Rattle.std.specs.Prelude.{◌≡◌, ◌++◌, IfOk};
ghost use Rattle.std.specs.List.{list_any};
ghost use Rattle.explore_verdict.specs.Beginnings.{begins_answer, begins_kind, begins_with, has_ending, is_begun, is_spelt, refusals};

use model_words::{MAX_BYTES, Refusal};
use std::alloc::{AllocError, Global};
use text_fields::lines::fields_up_to;
use text_words::{add_refusal, reply_of};

/// The greatest number of fields of an answer.
const MOST_FIELDS: usize = 4;

/// The refusals, in the order of their numbers.
const REFUSALS: [Refusal; 17] = [
    Refusal::Zero,
    Refusal::TooLarge,
    Refusal::NoPages,
    Refusal::NoAddresses,
    Refusal::Empty,
    Refusal::Freed,
    Refusal::Outside,
    Refusal::Stray,
    Refusal::NoGroup,
    Refusal::Same,
    Refusal::Class,
    Refusal::Busy,
    Refusal::Overlap,
    Refusal::Members,
    Refusal::NoMesh,
    Refusal::TooLate,
    Refusal::NotEmpty,
];

/// Whether the text spells an answer.
pub(crate) fn is_spelt(alloc: Global, text: &[u8]) -> bool
    ensures { result ≡ is_spelt text.now }
{
    let Ok(fields) = fields_up_to::<MOST_FIELDS>(text) else {
        return false;
    };
    match fields.as_slice() {
        [word, behind @ ..] => reply_of(alloc, MAX_BYTES, word, behind).is_ok(),
        [] => false,
    }
}

/// Whether the text is the beginning of an answer and a star.
pub(crate) fn is_begun(alloc: Global, text: &[u8]) -> Result<bool, AllocError>
    ensures { IfOk result (λ is. is ≡ is_begun text.now) }
{
    if !text.ends_with(b"*") {
        return Ok(false);
    }
    begins_answer(alloc, &text[..text.len() - 1])
}

/// Whether some answer begins with this text.
fn begins_answer(alloc: Global, front: &[u8]) -> Result<bool, AllocError>
    ensures { IfOk result (λ is. is ≡ begins_answer front.now) }
{
    Ok(begins_kind(front) || begins_refusal(alloc, front)? || has_ending(alloc, front)?)
}

/// Whether an answer with the least numbers and bytes that isn't refused begins with this text.
fn begins_kind(front: &[u8]) -> bool
    ensures { result ≡ begins_kind front.now }
{
    b"done".starts_with(front)
        || b"object 0 at 0".starts_with(front)
        || b"bytes 00".starts_with(front)
        || b"byte 00".starts_with(front)
        || b"at 0".starts_with(front)
}

/// Whether some refusal begins with this text.
fn begins_refusal(alloc: Global, front: &[u8]) -> Result<bool, AllocError>
    ensures { IfOk result (λ is. is ≡ list_any (begins_with front.now) refusals) }
{
    is_front_of_any(alloc, front, &REFUSALS)
}

/// Whether one of these refusals begins with this text.
fn is_front_of_any(alloc: Global, front: &[u8], refusals: &[Refusal]) -> Result<bool, AllocError>
    ensures { IfOk result (λ is. is ≡ list_any (begins_with front.now) refusals.now) }
{
    let mut rest = refusals;
    while let [refusal, behind @ ..] = rest {
        if is_front(alloc, front, *refusal)? {
            return Ok(true);
        }
        rest = behind;
    }
    Ok(false)
}

/// Whether this refusal begins with this text.
fn is_front(alloc: Global, front: &[u8], refusal: Refusal) -> Result<bool, AllocError>
    ensures { IfOk result (λ is. is ≡ begins_with front.now refusal) }
{
    let mut text = Vec::new(alloc);
    add_refusal(&mut text, refusal)?;
    Ok(text.as_slice().starts_with(front))
}

/// Whether the text spells an answer, or does so with a last digit or with what is behind an object's serial number.
fn has_ending(alloc: Global, front: &[u8]) -> Result<bool, AllocError>
    ensures { IfOk result (λ has. has ≡ has_ending front.now) }
{
    Ok(
        is_spelt(alloc, front)
            || ends_with(alloc, front, b"0")?
            || ends_with(alloc, front, b" at 0")?
            || ends_with(alloc, front, b"at 0")?
            || ends_with(alloc, front, b"t 0")?
            || ends_with(alloc, front, b" 0")?,
    )
}

/// Whether the two texts together spell an answer.
fn ends_with(alloc: Global, front: &[u8], ending: &[u8]) -> Result<bool, AllocError>
    ensures { IfOk result (λ ends. ends ≡ is_spelt (front.now ++ ending.now)) }
{
    let mut text = Vec::new(alloc);
    text.extend_from_slice(front)?;
    text.extend_from_slice(ending)?;
    Ok(is_spelt(alloc, text.as_slice()))
}
