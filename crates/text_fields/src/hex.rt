//! Fields of hexadecimal digits in lower case.
ghost use Rattle.std.specs.Prelude.{◌≡◌, ◌<◌, ◌≤◌, ◌^◌, ◌↔◌, ℕ, suc, Ok, Err, IfSome, IfOk, IfErr, IsTrue, is_err, length, not, slice_index};
ghost use Rattle.arrayvec.specs.ArrayVec.{array_vec_len};
ghost use Rattle.model_jobs.specs.JobFiles.{address_in, byte_from, byte_in, bytes_in, hex_value};
ghost use Rattle.text_fields.specs.Fields.{IsUnread, hex_in};

use crate::bases::Base;
use crate::faults::LineFault;
use history_bytes::RecordedBytes;
use model_words::FaultKind;
use std::alloc::Global;

/// The greatest address of a job: the address of the last byte of the last virtual page.
const MAX_ADDRESS: u64 = 0xfff_ffff;

/// The greatest address of 48 bits.
const MAX_WIDE_ADDRESS: u64 = 0xffff_ffff_ffff;

/// For each byte, its value as a hexadecimal digit in lower case, or 16 if the byte is no such digit. The digits of a
/// text are unpredictable, so the reader looks them up instead of branching on them.
static VALUES: [u8; 256] = [
    16, 16, 16, 16, 16, 16, 16, 16, 16, 16, 16, 16, 16, 16, 16, 16, 16, 16, 16, 16, 16, 16, 16, 16,
    16, 16, 16, 16, 16, 16, 16, 16, 16, 16, 16, 16, 16, 16, 16, 16, 16, 16, 16, 16, 16, 16, 16, 16,
    0, 1, 2, 3, 4, 5, 6, 7, 8, 9, 16, 16, 16, 16, 16, 16, 16, 16, 16, 16, 16, 16, 16, 16, 16, 16,
    16, 16, 16, 16, 16, 16, 16, 16, 16, 16, 16, 16, 16, 16, 16, 16, 16, 16, 16, 16, 16, 16, 16, 10,
    11, 12, 13, 14, 15, 16, 16, 16, 16, 16, 16, 16, 16, 16, 16, 16, 16, 16, 16, 16, 16, 16, 16, 16,
    16, 16, 16, 16, 16, 16, 16, 16, 16, 16, 16, 16, 16, 16, 16, 16, 16, 16, 16, 16, 16, 16, 16, 16,
    16, 16, 16, 16, 16, 16, 16, 16, 16, 16, 16, 16, 16, 16, 16, 16, 16, 16, 16, 16, 16, 16, 16, 16,
    16, 16, 16, 16, 16, 16, 16, 16, 16, 16, 16, 16, 16, 16, 16, 16, 16, 16, 16, 16, 16, 16, 16, 16,
    16, 16, 16, 16, 16, 16, 16, 16, 16, 16, 16, 16, 16, 16, 16, 16, 16, 16, 16, 16, 16, 16, 16, 16,
    16, 16, 16, 16, 16, 16, 16, 16, 16, 16, 16, 16, 16, 16, 16, 16, 16, 16, 16, 16, 16, 16, 16, 16,
    16, 16, 16, 16, 16, 16, 16, 16, 16, 16, 16, 16, 16, 16,
];

/// Returns the value of a hexadecimal digit in lower case. Returns `None` if the byte is no such digit.
#[inline]
pub fn digit(byte: u8) -> Option<u8>
    ensures value { result ≡ hex_value byte }
    ensures below { IfSome result (λ value. value < 16) }
{
    let value = VALUES[byte as usize];
    if value < 16 { Some(value) } else { None }
}

/// Returns the byte that two hexadecimal digits in lower case spell. The error is HEX if `high` or `low` is no such
/// digit.
#[inline]
pub fn byte_of(high: u8, low: u8) -> Result<u8, FaultKind>
    ensures { result ≡ byte_from high low }
{
    let high = digit(high).ok_or(FaultKind::Hex)?;
    let low = digit(low).ok_or(FaultKind::Hex)?;
    Ok(high * 16 + low)
}

/// Reads a field of one byte. The error is HEX unless the field is two hexadecimal digits in lower case.
pub fn byte(field: &[u8]) -> Result<u8, FaultKind>
    ensures { result ≡ byte_in field.now }
{
    match field {
        [high, low] => byte_of(*high, *low),
        _ => Err(FaultKind::Hex),
    }
}

/// Reads a field of 1 to `most` bytes, each spelt by two hexadecimal digits in lower case. The fault is HEX for any
/// other field. An allocation can fail only if `most` is above 32.
pub fn bytes(alloc: Global, field: &[u8], most: usize) -> Result<RecordedBytes, LineFault>
    requires { most ≤ 4096 }
    ensures ok { IfOk result (λ bytes. bytes_in most field.now ≡ Ok bytes.items) }
    ensures err { IfErr result (λ fault. IsUnread most (bytes_in most field.now) fault) }
    ensures some { IfOk result (λ bytes. 1 ≤ array_vec_len bytes) }
    ensures most { IfOk result (λ bytes. array_vec_len bytes ≤ most) }
{
    let mut bytes = RecordedBytes::new(alloc);
    let mut rest = field;
    while let [high, low, behind @ ..] = rest {
        let byte = byte_of(*high, *low)?;
        if bytes.len() >= most {
            return Err(LineFault::Kind(FaultKind::Hex));
        }
        bytes.push(byte)?;
        rest = behind;
    }
    if !rest.is_empty() {
        return Err(LineFault::Kind(FaultKind::Hex));
    }
    if bytes.is_empty() {
        return Err(LineFault::Kind(FaultKind::Hex));
    }
    Ok(bytes)
}

/// Whether a field spells 1 to `most` bytes, each by two hexadecimal digits in lower case.
pub fn spells_bytes(field: &[u8], most: usize) -> bool
    ensures { result ≡ not (is_err (bytes_in most field.now)) }
{
    let mut count = 0;
    let mut rest = field;
    while let [high, low, behind @ ..] = rest {
        let Ok(_byte) = byte_of(*high, *low) else {
            return false;
        };
        if count >= most {
            return false;
        }
        count += 1;
        rest = behind;
    }
    rest.is_empty() && count > 0
}

/// Reads a hexadecimal address from 0 to fffffff, without a leading zero. The error is NUMBER if the field isn't such
/// an address.
pub fn address(field: &[u8]) -> Result<u64, FaultKind>
    ensures value { result ≡ address_in field.now }
    ensures most { IfOk result (λ a. a ≤ 268435455) }
{
    hex_within(field, MAX_ADDRESS)
}

/// Reads a hexadecimal address of 48 bits, from 0 to ffffffffffff, without a leading zero. The error is NUMBER if the
/// field isn't such an address.
pub fn wide_address(field: &[u8]) -> Result<u64, FaultKind>
    ensures value { result ≡ hex_in 11 281474976710655 field.now }
    ensures most { IfOk result (λ a. a ≤ 281474976710655) }
{
    hex_within(field, MAX_WIDE_ADDRESS)
}

/// Reads a hexadecimal number from 0 to `most`, without a leading zero. The error is NUMBER if the field isn't such a
/// number.
fn hex_within(field: &[u8], most: u64) -> Result<u64, FaultKind>
    ensures value { (more : ℕ) → most < 16 ^ suc more → result ≡ hex_in more most field.now }
    ensures most { IfOk result (λ value. value ≤ most) }
{
    if field.is_empty() {
        return Err(FaultKind::Number);
    }
    if has_leading_zero(field) {
        return Err(FaultKind::Number);
    }
    let Some(value) = Base::Hex.value_of(field) else {
        return Err(FaultKind::Number);
    };
    if value > most {
        return Err(FaultKind::Number);
    }
    Ok(value)
}

/// Whether there are at least two digits and the first of them is 0.
pub fn has_leading_zero(digits: &[u8]) -> bool
    ensures { IsTrue result ↔ (2 ≤ length digits.now) × (slice_index digits.now 0 ≡ 48) }
{
    match digits {
        [first, _, ..] => *first == b'0',
        _ => false,
    }
}
