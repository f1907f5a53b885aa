//! The refusals of a recorded history, each written as its number and its name.
ghost use Rattle.std.specs.Prelude.{◌≡◌};
ghost use Rattle.text_words.specs.ReplyWords.{refusal_in, refusal_of};

use model_words::{FaultKind, Refusal};
use text_fields::lines::is_word;
use text_fields::numbers::number32;

/// The greatest number of a refusal.
const MAX_REFUSAL: u32 = 17;

/// Returns the refusal with this number and this name. The error is NUMBER if the first field isn't a number from 1 to
/// 17. It is WORD if the second field isn't the name of the refusal with this number.
pub fn refusal_named(number: &[u8], name: &[u8]) -> Result<Refusal, FaultKind>
    ensures { result ≡ refusal_in number.now name.now }
{
    let refusal = refusal_of(number32(number, 1, MAX_REFUSAL)?);
    if !is_word(name, refusal.name().as_bytes()) {
        return Err(FaultKind::Word);
    }
    Ok(refusal)
}

/// The refusal of a number from 1 to 17.
fn refusal_of(number: u32) -> Refusal
    ensures { result ≡ refusal_of number }
{
    match number {
        1 => Refusal::Zero,
        2 => Refusal::TooLarge,
        3 => Refusal::NoPages,
        4 => Refusal::NoAddresses,
        5 => Refusal::Empty,
        6 => Refusal::Freed,
        7 => Refusal::Outside,
        8 => Refusal::Stray,
        9 => Refusal::NoGroup,
        10 => Refusal::Same,
        11 => Refusal::Class,
        12 => Refusal::Busy,
        13 => Refusal::Overlap,
        14 => Refusal::Members,
        15 => Refusal::NoMesh,
        16 => Refusal::TooLate,
        _ => Refusal::NotEmpty,
    }
}
