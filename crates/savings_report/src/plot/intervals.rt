//! Gathers readings in at most 600 intervals of equally many calls. The last interval may have fewer calls.
ghost use Rattle.std.specs.Prelude.{◌≡◌, ◌+◌, ◌*◌, ◌<◌, ◌≤◌, [], ◌∷◌, ◌++◌, List, ℕ, IfOk, length, take};
ghost use Rattle.std.specs.Int.{div_ceil};
ghost use Rattle.savings_report.specs.Intervals.{AreOf, IsSound, interval_at, interval_of, piece};
ghost use Rattle.savings_report.specs.declared.plot.readings.Reading.{Reading};

use crate::plot::readings::Reading;
use crate::plot::spans::{Interval, Span};
use std::alloc::{AllocError, Global};

/// The maximal number of intervals.
pub const MOST: usize = 600;

/// The span of a curve in an interval without calls.
const NOTHING: Span = Span {
    least: 0,
    greatest: 0,
};

/// The reading of an interval without calls.
const NO_READING: Reading = Reading {
    without: 0,
    with: 0,
    perfect: 0,
    live: 0,
    large: 0,
    empty_without: 0,
    empty_with: 0,
};

/// Intervals of equally many calls each, except that the last may have fewer.
#[derive(Drop)]
pub struct Intervals {
    /// The intervals of the calls so far, followed by unused entries.
    pub list: Vec<Interval>,
    /// The number of calls in a full interval. It is a power of two.
    pub width: u32,
    /// The number of calls in all intervals together.
    pub count: u32,
}

impl Intervals {
    /// Makes an empty list of intervals, with room for 600 intervals. Returns an error if an allocation fails.
    pub fn new(alloc: Global) -> Result<Intervals, AllocError>
        ensures value { IfOk result (λ intervals. AreOf intervals []) }
        ensures sound { IfOk result (λ intervals. IsSound intervals) }
        ensures count { IfOk result (λ intervals. intervals.count ≡ 0) }
    {
        let nothing = Interval {
            last: NO_READING,
            without: NOTHING,
            with: NOTHING,
            perfect: NOTHING,
            live: NOTHING,
        };
        Ok(Intervals {
            list: vec![in alloc; nothing; MOST]?,
            width: 1,
            count: 0,
        })
    }

    /// Adds the reading after the next call.
    pub fn add(&mut self, reading: Reading)
        requires room { self.old.count < 4294967295 }
        requires sound { IsSound self.old }
        ensures value { (rs : List Reading) → AreOf self.old rs → AreOf self.new (rs ++ reading ∷ []) }
        ensures sound { IsSound self.new }
        ensures count { self.new.count ≡ self.old.count + 1 }
    {
        if (self.count / self.width) as usize == MOST {
            self.join();
        }
        self.put(reading);
    }

    /// Returns the intervals of the calls so far.
    pub fn used(&self) -> &[Interval]
        requires { IsSound self.now }
        ensures { result.now ≡ take (div_ceil self.now.count self.now.width) self.now.list.items }
    {
        let used = self.count.div_ceil(self.width) as usize;
        &self.list[..used]
    }

    /// Joins each pair of neighbouring intervals, which doubles the number of calls in an interval. All 600 intervals
    /// must be full.
    fn join(&mut self)
        requires sound { IsSound self.old }
        requires full { self.old.count ≡ 600 * self.old.width }
        ensures pieces { (rs : List Reading) → self.old.count ≡ length rs
            → ((k : ℕ) → k * self.old.width < length rs
            → interval_at self.old.list.items k ≡ interval_of (piece self.old.width k rs))
            → (k : ℕ) → k * self.new.width < length rs
            → interval_at self.new.list.items k ≡ interval_of (piece self.new.width k rs) }
        ensures width { self.new.width ≡ 2 * self.old.width }
        ensures count { self.new.count ≡ self.old.count }
        ensures room { length self.new.list.items ≡ 600 }
    {
        for k in 0..MOST / 2 {
            self.list[k] = self.list[2 * k].joined(self.list[2 * k + 1]);
        }
        self.width *= 2;
    }

    /// Adds the reading after the next call to the last interval, or to a new interval if the last is full. There must
    /// be room for the reading.
    fn put(&mut self, reading: Reading)
        requires few { self.old.count < 4294967295 }
        requires room { length self.old.list.items ≡ 600 }
        requires wide { 0 < self.old.width }
        requires space { self.old.count < 600 * self.old.width }
        ensures pieces { (rs : List Reading) → self.old.count ≡ length rs
            → ((k : ℕ) → k * self.old.width < length rs
            → interval_at self.old.list.items k ≡ interval_of (piece self.old.width k rs))
            → (k : ℕ) → k * self.new.width < length rs + 1
            → interval_at self.new.list.items k ≡ interval_of (piece self.new.width k (rs ++ reading ∷ [])) }
        ensures width { self.new.width ≡ self.old.width }
        ensures count { self.new.count ≡ self.old.count + 1 }
        ensures room { length self.new.list.items ≡ 600 }
    {
        let place = (self.count / self.width) as usize;
        let next = Interval::of(reading);
        if self.count % self.width == 0 {
            self.list[place] = next;
        } else {
            self.list[place] = self.list[place].joined(next);
        }
        self.count += 1;
    }
}
