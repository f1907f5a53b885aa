//! Division, rounded half up, and bytes rounded up to whole pages.
ghost use Rattle.std.specs.Prelude.{◌≡◌, ◌<◌, ◌≤◌};
ghost use Rattle.std.specs.Int.{div_ceil};
ghost use Rattle.savings_report.specs.FigureSamples.{mean_of, rounded};

/// The number of bytes in a page.
const PAGE: u64 = 4096;

/// Returns `a / b`, rounded half up.
pub fn divided(a: u128, b: u128) -> u128
    requires { 0 < b }
    ensures value { result ≡ rounded a b }
    ensures small { result ≤ a }
{
    let whole = a / b;
    let rest = a % b;
    if rest >= b - rest { whole + 1 } else { whole }
}

/// Returns the mean of `count` numbers whose sum is `sum`, rounded half up, or 0 if `count` is 0.
pub fn mean(sum: u128, count: u32) -> u128
    ensures value { result ≡ mean_of sum count }
    ensures small { result ≤ sum }
{
    if count == 0 {
        0
    } else {
        divided(sum, u128::from(count))
    }
}

/// Returns the number of whole pages that `bytes` bytes take, rounded up.
pub fn whole_pages(bytes: u64) -> u64
    ensures { result ≡ div_ceil bytes 4096 }
{
    bytes.div_ceil(PAGE)
}
