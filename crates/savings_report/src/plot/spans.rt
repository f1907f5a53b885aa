//! What is kept of an interval of calls: its last reading, and the least and the greatest value of each curve.
ghost use Rattle.std.specs.Prelude.{◌≡◌, ◌+◌, ◌<◌, [], ◌∷◌, ◌++◌, List, ℕ, length, max, min};
ghost use Rattle.savings_report.specs.Intervals.{interval_of, span_of};
ghost use Rattle.savings_report.specs.declared.plot.readings.Reading.{Reading};

use crate::plot::readings::Reading;

/// The least and the greatest number of pages.
#[derive(Clone, Copy, Debug)]
pub struct Span {
    pub least: u32,
    pub greatest: u32,
}

/// The last reading of an interval, and the spans of the four curves.
#[derive(Clone, Copy, Debug)]
pub struct Interval {
    pub last: Reading,
    pub without: Span,
    pub with: Span,
    pub perfect: Span,
    pub live: Span,
}

impl Span {
    /// Returns the span of one number.
    pub fn of(pages: u32) -> Span
        ensures { result ≡ span_of (pages ∷ []) }
    {
        Span {
            least: pages,
            greatest: pages,
        }
    }

    /// Returns the smallest span that contains both spans.
    pub fn joined(self, next: Span) -> Span
        ensures least { result.least ≡ min self.least next.least }
        ensures greatest { result.greatest ≡ max self.greatest next.greatest }
    {
        Span {
            least: self.least.min(next.least),
            greatest: self.greatest.max(next.greatest),
        }
    }

    /// Returns twice the middle between the least and the greatest number.
    pub fn middle(self) -> u64
        ensures { result ≡ self.least + self.greatest }
    {
        u64::from(self.least) + u64::from(self.greatest)
    }
}

impl Interval {
    /// Returns the interval of one call.
    pub fn of(reading: Reading) -> Interval
        ensures { result ≡ interval_of (reading ∷ []) }
    {
        Interval {
            last: reading,
            without: Span::of(reading.without),
            with: Span::of(reading.with),
            perfect: Span::of(reading.perfect),
            live: Span::of(reading.live),
        }
    }

    /// Returns the interval that has the calls of this interval, and then those of `next`. Both intervals must have at
    /// least one call.
    pub fn joined(self, next: Interval) -> Interval
        ensures { (these those : List Reading) → 0 < length these → 0 < length those → self ≡ interval_of these
            → next ≡ interval_of those
            → result ≡ interval_of (these ++ those) }
    {
        Interval {
            last: next.last,
            without: self.without.joined(next.without),
            with: self.with.joined(next.with),
            perfect: self.perfect.joined(next.perfect),
            live: self.live.joined(next.live),
        }
    }
}
