//! Quotes pieces of a text.
ghost use Rattle.std.specs.Prelude.{◌≡◌, ◌++◌, OnOk, take};
ghost use Rattle.std.specs.List.{flat_map};
ghost use Rattle.text_reasons.specs.Quotes.{escaped_text, quoted_text};

use crate::bytes::is_printable;
use std::alloc::AllocError;
use text_words::add_bytes;

/// The greatest number of bytes that are shown of a quoted piece.
const MOST_SHOWN: usize = 40;

/// Appends a piece of a text between quotes. Of a piece of more than 40 bytes, the first 40 are shown, and dots behind
/// the quotes.
#[tactic(auto, unfolding(crate::specs::Quotes::quoted_text))]
pub(crate) fn add_quoted(text: &mut Vec<u8>, piece: &[u8]) -> Result<(), AllocError>
    ensures { OnOk result (text.new.items ≡ text.old.items ++ quoted_text piece.now) }
{
    text.push(b'\'')?;
    add_escaped(text, beginning(piece))?;
    text.push(b'\'')?;
    if piece.len() > MOST_SHOWN {
        text.extend_from_slice(b"..")?;
    }
    Ok(())
}

/// The bytes that are shown of a piece.
fn beginning(piece: &[u8]) -> &[u8]
    ensures { result.now ≡ take 40 piece.now }
{
    if piece.len() > MOST_SHOWN {
        &piece[..MOST_SHOWN]
    } else {
        piece
    }
}

/// Appends bytes, each as `add_byte` does.
fn add_escaped(text: &mut Vec<u8>, bytes: &[u8]) -> Result<(), AllocError>
    ensures { OnOk result (text.new.items ≡ text.old.items ++ flat_map escaped_text bytes.now) }
{
    for byte in bytes {
        add_byte(text, *byte)?;
    }
    Ok(())
}

/// Appends a byte: as it is if it is printable, and otherwise as `\x` and two hexadecimal digits.
pub(crate) fn add_byte(text: &mut Vec<u8>, byte: u8) -> Result<(), AllocError>
    ensures { OnOk result (text.new.items ≡ text.old.items ++ escaped_text byte) }
{
    if is_printable(byte) {
        text.push(byte)?;
        return Ok(());
    }
    text.extend_from_slice(b"\\x")?;
    add_bytes(text, &[byte])
}
