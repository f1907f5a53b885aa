//! The words of a line: numbers, shares, and words aligned in fields.
ghost use Rattle.std.specs.Prelude.{◌≡◌, ◌<◌, ◌^◌, ◌++◌, decimal, replicate, OnOk};
ghost use Rattle.savings_report.specs.FigureTexts.{column, counted, left, saved_text, share_column, sign_text, right, tenths_text};

use crate::table::rounding::divided;
use itoa::Buffer;
use std::alloc::{AllocError, Global};

/// Adds a word. The only error of each function in this file is an allocation failure.
pub fn add(text: &mut Vec<u8>, word: &[u8]) -> Result<(), AllocError>
    ensures { OnOk result (text.new.items ≡ text.old.items ++ word.now) }
{
    text.extend_from_slice(word)
}

/// Adds a number in decimal digits.
pub fn add_decimal(text: &mut Vec<u8>, number: u128) -> Result<(), AllocError>
    ensures { OnOk result (text.new.items ≡ text.old.items ++ decimal number) }
{
    let mut digits = Buffer::new();
    add(text, digits.format(number).as_bytes())
}

/// Adds a name, and then a number.
#[tactic(auto, unfolding(crate::specs::FigureTexts::counted))]
pub fn add_counted(text: &mut Vec<u8>, name: &[u8], number: u128) -> Result<(), AllocError>
    ensures { OnOk result (text.new.items ≡ text.old.items ++ counted name.now number) }
{
    add(text, name)?;
    add_decimal(text, number)
}

/// Adds `count` spaces.
fn add_spaces(text: &mut Vec<u8>, count: usize) -> Result<(), AllocError>
    ensures { OnOk result (text.new.items ≡ text.old.items ++ replicate count 32) }
{
    for _added in 0..count {
        text.push(b' ')?;
    }
    Ok(())
}

/// Adds a word, right-aligned in a field of `width` bytes. A longer word isn't cut.
pub fn add_right(text: &mut Vec<u8>, width: usize, word: &[u8]) -> Result<(), AllocError>
    ensures { OnOk result (text.new.items ≡ text.old.items ++ right width word.now) }
{
    add_spaces(text, width.saturating_sub(word.len()))?;
    add(text, word)
}

/// Adds a word, left-aligned in a field of `width` bytes. A longer word isn't cut.
pub fn add_left(text: &mut Vec<u8>, width: usize, word: &[u8]) -> Result<(), AllocError>
    ensures { OnOk result (text.new.items ≡ text.old.items ++ left width word.now) }
{
    add(text, word)?;
    add_spaces(text, width.saturating_sub(word.len()))
}

/// Adds a number, right-aligned in a field of this width.
pub fn add_column(text: &mut Vec<u8>, width: usize, number: u128) -> Result<(), AllocError>
    ensures { OnOk result (text.new.items ≡ text.old.items ++ column width number) }
{
    let mut digits = Buffer::new();
    add_right(text, width, digits.format(number).as_bytes())
}

/// Adds a number, left-aligned in a field of this width.
pub fn add_number_left(text: &mut Vec<u8>, width: usize, number: u128) -> Result<(), AllocError>
    ensures { OnOk result (text.new.items ≡ text.old.items ++ left width (decimal number)) }
{
    let mut digits = Buffer::new();
    add_left(text, width, digits.format(number).as_bytes())
}

/// Adds a number that is given in tenths, with one digit after the decimal point.
#[tactic(auto, unfolding(crate::specs::FigureTexts::tenths_text))]
pub fn add_tenths(text: &mut Vec<u8>, tenths: u128) -> Result<(), AllocError>
    ensures { OnOk result (text.new.items ≡ text.old.items ++ tenths_text tenths) }
{
    add_decimal(text, tenths / 10)?;
    add(text, b".")?;
    add_decimal(text, tenths % 10)
}

/// Adds a minus sign if `without` is below `with` and `tenths` isn't 0, and nothing otherwise.
#[tactic(auto, unfolding(crate::specs::FigureTexts::sign_text))]
fn add_sign(text: &mut Vec<u8>, without: u128, with: u128, tenths: u128) -> Result<(), AllocError>
    ensures { OnOk result (text.new.items ≡ text.old.items ++ sign_text without with tenths) }
{
    if without < with && tenths > 0 {
        add(text, b"-")?;
    }
    Ok(())
}

/// Adds the share of pages that meshing saves, in percent, or a dash if `without` is 0. The share is negative if `with`
/// is above `without` and the share isn't rounded to 0.
#[tactic(auto, unfolding(crate::specs::FigureTexts::saved_text, crate::specs::FigureTexts::saved_tenths))]
pub fn add_saved(text: &mut Vec<u8>, without: u128, with: u128) -> Result<(), AllocError>
    requires without { without < 2 ^ 118 }
    requires with { with < 2 ^ 118 }
    ensures { OnOk result (text.new.items ≡ text.old.items ++ saved_text without with) }
{
    if without == 0 {
        return add(text, b"-");
    }
    let tenths = divided(1000 * without.abs_diff(with), without);
    add_sign(text, without, with, tenths)?;
    add_tenths(text, tenths)?;
    add(text, b"%")
}

/// Adds a space, and then the share of pages that meshing saves, right-aligned in a field of this width.
pub fn add_saved_column(
    text: &mut Vec<u8>,
    width: usize,
    without: u128,
    with: u128,
) -> Result<(), AllocError>
    requires without { without < 2 ^ 118 }
    requires with { with < 2 ^ 118 }
    ensures { OnOk result (text.new.items ≡ text.old.items ++ share_column width without with) }
{
    let mut saved = Vec::new(*text.allocator());
    add_saved(&mut saved, without, with)?;
    add(text, b" ")?;
    add_right(text, width, saved.as_slice())
}
