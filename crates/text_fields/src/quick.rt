//! The fields of the most frequent lines, each read in one pass over the text, together with the byte after the field.
//! A function returns `None` if it can't read the field. The line is then read field by field.
ghost use Rattle.std.specs.Prelude.{◌≡◌, ◌∷◌, ◌++◌, ◌<◌, ◌≤◌, ◌^◌, decimal, length, IfSome, IsTrue};
ghost use Rattle.std.specs.List.{All};
ghost use Rattle.model_jobs.specs.Texts.{address_text, byte_text, bytes_text, hex_from};
ghost use Rattle.text_fields.specs.Bases.{radix};
ghost use Rattle.text_fields.specs.Fields.{LeadsNoZero};
ghost use Rattle.text_fields.specs.Quick.{most_digits, spelling};

use crate::bases::Base;
use crate::hex::{byte_of, has_leading_zero};
use arrayvec::ArrayVec;
use model_words::MAX_BYTES;

/// The greatest number of decimal digits that are read. Any 19 digits fit 64 bits.
const MOST_DIGITS: usize = 19;

/// The greatest number of digits of an address of a job.
const MOST_HEX_DIGITS: usize = 7;

/// The greatest number of digits of an address of 48 bits.
const MOST_WIDE_DIGITS: usize = 12;

/// Returns the bytes after the first byte, if the first byte is `byte`. Otherwise returns `None`.
#[inline]
pub fn behind(text: &[u8], byte: u8) -> Option<&[u8]>
    ensures { IfSome result (λ rest. text.now ≡ byte ∷ rest.now) }
{
    match text {
        [first, rest @ ..] if *first == byte => Some(rest),
        _ => None,
    }
}

/// Returns the bytes after `front`, if the text begins with `front`. Otherwise returns `None`.
#[inline]
pub fn behind_all<'a>(text: &'a [u8], front: &[u8]) -> Option<&'a [u8]>
    ensures { IfSome result (λ rest. text.now ≡ front.now ++ rest.now) }
{
    text.strip_prefix(front)
}

/// Whether digits are the spelling of a number: there is at least one digit, and if there are two or more digits, the
/// first digit isn't 0.
#[inline]
fn spell_number(digits: &[u8]) -> bool
    ensures some { IsTrue result → 1 ≤ length digits.now }
    ensures first { IsTrue result → LeadsNoZero digits.now }
{
    !digits.is_empty() && !has_leading_zero(digits)
}

/// Returns the number that the digits at the start of the text spell, and the bytes after these digits. Reads at most
/// `most` digits. Returns `None` if there is no digit, or if the digits have a leading zero.
#[inline]
fn digits(text: &[u8], base: Base, most: usize) -> Option<(u64, &[u8])>
    requires { most ≤ most_digits base }
    ensures spelt { IfSome result (λ read. text.now ≡ spelling base read.0 ++ read.1.now) }
    ensures below { IfSome result (λ read. read.0 < radix base ^ most) }
{
    let most = text.len().min(most);
    let mut value = 0u64;
    let mut place = 0;
    while place < most {
        let Some(next) = base.digit(text[place]) else {
            break;
        };
        value = value * base.radix() + u64::from(next);
        place += 1;
    }
    if !spell_number(&text[..place]) {
        return None;
    }
    Some((value, &text[place..]))
}

/// Reads a word of 64 bits and the byte `end` after it. Returns the word and the remaining bytes.
#[inline]
pub fn word(text: &[u8], end: u8) -> Option<(u64, &[u8])>
    ensures { IfSome result (λ read. text.now ≡ decimal read.0 ++ end ∷ read.1.now) }
{
    let (value, rest) = digits(text, Base::Decimal, MOST_DIGITS)?;
    let rest = behind(rest, end)?;
    Some((value, rest))
}

/// Reads a number from `least` to `most` and the byte `end` after it. Returns the number and the remaining bytes.
#[inline]
pub fn number(text: &[u8], least: u32, most: u32, end: u8) -> Option<(u32, &[u8])>
    ensures spelt { IfSome result (λ read. text.now ≡ decimal read.0 ++ end ∷ read.1.now) }
    ensures least { IfSome result (λ read. least ≤ read.0) }
    ensures most { IfSome result (λ read. read.0 ≤ most) }
{
    let (value, rest) = word(text, end)?;
    if value < u64::from(least) {
        return None;
    }
    if value > u64::from(most) {
        return None;
    }
    Some((value as u32, rest))
}

/// Reads the number of a root cell and the byte `end` after it. Returns the number and the remaining bytes.
#[inline]
pub fn cell(text: &[u8], end: u8) -> Option<(u8, &[u8])>
    ensures { IfSome result (λ read. text.now ≡ decimal read.0 ++ end ∷ read.1.now) }
{
    let (value, rest) = number(text, 0, u32::from(u8::MAX), end)?;
    Some((value as u8, rest))
}

/// Reads an address of a job and the byte `end` after it. Returns the address and the remaining bytes.
#[inline]
pub fn address(text: &[u8], end: u8) -> Option<(u32, &[u8])>
    ensures spelt { IfSome result (λ read. text.now ≡ address_text read.0 ++ end ∷ read.1.now) }
    ensures most { IfSome result (λ read. read.0 ≤ 268435455) }
{
    let (value, rest) = digits(text, Base::Hex, MOST_HEX_DIGITS)?;
    let rest = behind(rest, end)?;
    Some((value as u32, rest))
}

/// Reads an address of 48 bits and the byte `end` after it. Returns the address and the remaining bytes.
#[inline]
pub fn wide_address(text: &[u8], end: u8) -> Option<(u64, &[u8])>
    ensures spelt { IfSome result (λ read. text.now ≡ hex_from 11 read.0 ++ end ∷ read.1.now) }
    ensures most { IfSome result (λ read. read.0 ≤ 281474976710655) }
{
    let (value, rest) = digits(text, Base::Hex, MOST_WIDE_DIGITS)?;
    let rest = behind(rest, end)?;
    Some((value, rest))
}

/// Reads the two digits of a byte and the byte `end` after them. Returns the byte and the remaining text.
#[inline]
pub fn byte(text: &[u8], end: u8) -> Option<(u8, &[u8])>
    ensures { IfSome result (λ read. text.now ≡ byte_text read.0 ++ end ∷ read.1.now) }
{
    let [high, low, rest @ ..] = text else {
        return None;
    };
    let value = byte_of(*high, *low).ok()?;
    let rest = behind(rest, end)?;
    Some((value, rest))
}

/// Reads the digits of 1 to 32 bytes and the byte `end` after them. Returns the bytes and the remaining text.
#[inline]
pub fn bytes(text: &[u8], end: u8) -> Option<(ArrayVec<u8, MAX_BYTES>, &[u8])>
    ensures spelt { IfSome result (λ read. text.now ≡ bytes_text read.0.items ++ end ∷ read.1.now) }
    ensures some { IfSome result (λ read. 1 ≤ length read.0.items) }
    ensures most { IfSome result (λ read. length read.0.items ≤ 32) }
    ensures bytes { IfSome result (λ read. All (λ b. b ≤ 255) read.0.items) }
{
    let mut bytes = ArrayVec::new();
    let mut rest = text;
    while let [high, low, later @ ..] = rest {
        let Ok(byte) = byte_of(*high, *low) else {
            break;
        };
        bytes.try_push(byte).ok()?;
        rest = later;
    }
    if bytes.is_empty() {
        return None;
    }
    let rest = behind(rest, end)?;
    Some((bytes, rest))
}
