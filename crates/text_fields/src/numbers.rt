//! Decimal fields.
ghost use Rattle.std.specs.Prelude.{◌≡◌, ◌≢◌, ◌<◌, ◌≤◌, ◌^◌, ℕ, decimal, IfSome, IfOk, IsNone};
ghost use Rattle.model_jobs.specs.JobFiles.{number_in};

use crate::bases::Base;
use crate::hex::has_leading_zero;
use model_words::FaultKind;

/// Returns the number that the field spells in decimal. A spelling has no leading zero, and the number is at most
/// 18446744073709551615. Returns `None` if the field is no such spelling.
fn decimal_of(field: &[u8]) -> Option<u64>
    ensures some { IfSome result (λ number. field.now ≡ decimal number) }
    ensures none { IsNone result → (n : ℕ) → n < 2 ^ 64 → field.now ≢ decimal n }
{
    if field.is_empty() {
        return None;
    }
    if has_leading_zero(field) {
        return None;
    }
    let number = Base::Decimal.value_of(field)?;
    Some(number)
}

/// Reads a decimal number from `least` to `most`. The error is NUMBER if the field isn't such a number.
pub fn number(field: &[u8], least: u64, most: u64) -> Result<u64, FaultKind>
    ensures value { result ≡ number_in least most field.now }
    ensures most { IfOk result (λ number. number ≤ most) }
{
    let Some(number) = decimal_of(field) else {
        return Err(FaultKind::Number);
    };
    if number < least {
        return Err(FaultKind::Number);
    }
    if number > most {
        return Err(FaultKind::Number);
    }
    Ok(number)
}

/// Reads a decimal number from `least` to `most`, of at most 32 bits. The error is NUMBER if the field isn't such a
/// number.
pub fn number32(field: &[u8], least: u32, most: u32) -> Result<u32, FaultKind>
    ensures value { result ≡ number_in least most field.now }
    ensures most { IfOk result (λ number. number ≤ most) }
{
    let number = number(field, u64::from(least), u64::from(most))?;
    Ok(number as u32)
}
