//! Numbers of 32 bits. A sum or a product that doesn't fit is replaced by the greatest number.
ghost use Rattle.std.specs.Prelude.{◌≡◌};
ghost use Rattle.draw_picture.specs.Numbers.{fitting, plus, quotient, remainder, share, times};

/// Returns the sum of two numbers.
pub fn plus(one: u32, other: u32) -> u32
    ensures { result ≡ plus one other }
{
    one.saturating_add(other)
}

/// Returns the product of two numbers.
pub fn times(one: u32, other: u32) -> u32
    ensures { result ≡ times one other }
{
    one.saturating_mul(other)
}

/// Returns `length * part / whole`, rounded down, or 0 if `whole` is 0.
pub fn share(length: u32, part: u32, whole: u32) -> u32
    ensures { result ≡ share length part whole }
{
    quotient(times(length, part), whole)
}

/// Returns a count as a `u32`.
pub fn narrow(count: usize) -> u32
    ensures { result ≡ fitting count }
{
    if count <= u32::MAX as usize {
        count as u32
    } else {
        u32::MAX
    }
}

/// Returns a quotient, rounded down, or 0 if `whole` is 0.
pub fn quotient(number: u32, whole: u32) -> u32
    ensures { result ≡ quotient number whole }
{
    if whole == 0 { 0 } else { number / whole }
}

/// Returns the remainder of a division, or 0 if `whole` is 0.
pub fn remainder(number: u32, whole: u32) -> u32
    ensures { result ≡ remainder number whole }
{
    if whole == 0 { 0 } else { number % whole }
}
