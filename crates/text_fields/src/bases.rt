//! The digits of the two bases in which fields spell numbers.
ghost use Rattle.std.specs.Prelude.{◌≡◌, ◌+◌, ◌*◌, ◌≤◌, ◌^◌, ◌⊎◌, true, false, IfSome, IsNone};
ghost use Rattle.std.specs.List.{list_all};
ghost use Rattle.text_fields.specs.Bases.{digit_value, is_digit, radix, value_in};

use crate::hex;

/// The base of the digits of a field.
#[derive(Clone, Copy)]
pub enum Base {
    /// Digits from 0 to 9.
    Decimal,
    /// Digits from 0 to f, in lower case.
    Hex,
}

impl Base {
    /// Returns the number of digits of the base.
    #[inline]
    pub fn radix(self) -> u64
        ensures { result ≡ radix self }
    {
        match self {
            Base::Decimal => 10,
            Base::Hex => 16,
        }
    }

    /// Returns the value of a digit of the base. Returns `None` if the byte is no such digit.
    #[inline]
    pub fn digit(self, byte: u8) -> Option<u8>
        ensures { result ≡ digit_value self byte }
    {
        match self {
            Base::Decimal => decimal_digit(byte),
            Base::Hex => hex::digit(byte),
        }
    }

    /// Returns the value of digits of the base. Returns `None` if some byte is no such digit, or if the value doesn't
    /// fit 64 bits.
    #[inline]
    pub fn value_of(self, digits: &[u8]) -> Option<u64>
        ensures digits { IfSome result (λ value. list_all (is_digit self) digits.now ≡ true) }
        ensures value { IfSome result (λ value. value ≡ value_in self digits.now) }
        ensures none { IsNone result
            → (list_all (is_digit self) digits.now ≡ false) ⊎ (2 ^ 64 ≤ value_in self digits.now) }
    {
        let mut value = 0u64;
        for byte in digits {
            let next = self.digit(*byte)?;
            value = with_digit(value, self.radix(), next)?;
        }
        Some(value)
    }
}

/// Returns the value of a decimal digit. Returns `None` if the byte is no decimal digit.
#[inline]
fn decimal_digit(byte: u8) -> Option<u8>
    ensures { result ≡ digit_value Base.Decimal byte }
{
    match byte {
        b'0'..=b'9' => Some(byte - b'0'),
        _ => None,
    }
}

/// Returns the number with one more digit at its end. Returns `None` if this number doesn't fit 64 bits.
#[inline]
fn with_digit(number: u64, radix: u64, digit: u8) -> Option<u64>
    ensures some { IfSome result (λ longer. longer ≡ number * radix + digit) }
    ensures none { IsNone result → 2 ^ 64 ≤ number * radix + digit }
{
    number.checked_mul(radix)?.checked_add(u64::from(digit))
}
