//! Axes with round steps, and shares of lengths.
ghost use Rattle.std.specs.Prelude.{◌≡◌, ◌*◌, ◌/◌, ◌<◌, ◌≤◌, max, min};

/// The maximal number of marks on an axis.
pub const MARKS: u32 = 8;

/// The steps of the axis of calls, in ascending order.
static CALL_STEPS: [u32; 28] = [
    1,
    2,
    5,
    10,
    20,
    50,
    100,
    200,
    500,
    1_000,
    2_000,
    5_000,
    10_000,
    20_000,
    50_000,
    100_000,
    200_000,
    500_000,
    1_000_000,
    2_000_000,
    5_000_000,
    10_000_000,
    20_000_000,
    50_000_000,
    100_000_000,
    200_000_000,
    500_000_000,
    1_000_000_000,
];

/// The steps of the axis of pages that are below ten, in ascending order.
static SMALL_STEPS: [u32; 7] = [1, 2, 3, 4, 5, 6, 8];

/// The steps of the axis of pages from ten on, in ascending order, for each power of ten in tenths of the power. A step
/// is at most a third above the one before it, so an axis of seven steps ends less than a fifth above any number that
/// needs it.
static TENTHS: [u32; 10] = [10, 12, 15, 20, 25, 30, 40, 50, 60, 80];

/// The powers of ten, without 1.
static POWERS: [u32; 7] = [10, 100, 1_000, 10_000, 100_000, 1_000_000, 10_000_000];

/// An axis from the number `first` to the greater number `last`, with marks at the multiples of `step`.
#[derive(Clone, Copy)]
pub struct Axis {
    pub first: u32,
    pub last: u32,
    pub step: u32,
}

impl Axis {
    /// Returns the axis of the calls after the first `before` calls up to call `end`.
    pub fn of_calls(before: u32, end: u32) -> Axis {
        Axis {
            first: before,
            last: end,
            step: call_step(end.saturating_sub(before)),
        }
    }

    /// Returns the axis of pages, from 0 to a number that isn't below `most`, and above it by at most a fifth.
    pub fn of_pages(most: u32) -> Axis
        ensures covers { most ≤ result.last }
        ensures fills { 5 * result.last ≤ 6 * max most 1 }
        ensures some { 0 < result.last }
    {
        let most = most.max(1);
        let step = page_step(most.div_ceil(MARKS - 1));
        Axis {
            first: 0,
            last: top_of(most, step),
            step,
        }
    }

    /// Returns the mark at index `place`, counted from 0, or `None` if the axis has no such mark.
    pub fn mark(self, place: u32) -> Option<u32> {
        let step = self.step.max(1);
        let number = self
            .first
            .div_ceil(step)
            .saturating_add(place)
            .checked_mul(step)?;
        if number <= self.last {
            Some(number)
        } else {
            None
        }
    }
}

/// Returns the first multiple of `step` that isn't below `most`, or `most` if this multiple is more than a fifth above
/// it.
fn top_of(most: u32, step: u32) -> u32
    requires { 0 < most }
    ensures covers { most ≤ result }
    ensures fills { 5 * result ≤ 6 * most }
{
    let top = most.div_ceil(step.max(1)).saturating_mul(step);
    if most <= top && 5 * u64::from(top) <= 6 * u64::from(most) {
        top
    } else {
        most
    }
}

/// Returns the least of the steps that isn't below `least`.
fn page_step(least: u32) -> u32 {
    for step in &SMALL_STEPS {
        if least <= *step {
            return *step;
        }
    }
    for power in &POWERS {
        for tenths in &TENTHS {
            let step = (*power / 10).saturating_mul(*tenths);
            if least <= step {
                return step;
            }
        }
    }
    least
}

/// Returns the least of the steps that cover this span with at most six steps. The axis then has at most seven marks.
fn call_step(span: u32) -> u32 {
    for step in &CALL_STEPS {
        if span.div_ceil(6) <= *step {
            return *step;
        }
    }
    1_000_000_000
}

/// Returns `product / whole`, rounded down and at most `length`.
pub fn share(product: u64, whole: u32, length: u32) -> u32
    requires { 0 < whole }
    ensures value { result ≡ min (product / whole) length }
    ensures within { result ≤ length }
{
    let share = product / u64::from(whole);
    share.min(u64::from(length)) as u32
}
