//! The data gathered from the measured calls.
ghost use Rattle.std.specs.Prelude.{◌≡◌, ℕ, ◌+◌, ◌<◌, ◌≤◌, ◌∷◌, [], ◌++◌, List, length};
ghost use Rattle.savings_report.specs.declared.table.samples.Sample.{Sample};
ghost use Rattle.savings_report.specs.FigureSamples.{IsBounded, empty_by, last, mean, of_class, pages_by, peak, row_by};
ghost use Rattle.savings_report.specs.Figures.{IsInBounds, IsMeasured, IsSmall};

use crate::table::levels::{Column, Levels, total_pages};
use crate::table::moments::{Moment, keep_most_live, keep_most_saved};
use crate::table::pages::{Both, Pages, Row};
use crate::table::rounding;
use crate::table::samples::{CLASSES, Sample};

/// The data gathered from consecutive calls.
#[derive(Clone, Copy, Debug)]
pub struct Measured {
    /// The number of calls.
    pub count: u32,
    /// The sample after the last of these calls.
    pub end: Sample,
    pub without: Column,
    pub with: Column,
    pub perfect: Column,
    pub levels: Levels,
    /// The first call after which meshing saves the most pages.
    pub most_saved: Option<Moment>,
    /// The first call after which the live small objects have the most bytes.
    pub most_live: Option<Moment>,
}

impl Measured {
    /// Returns the data of an empty sequence of calls.
    pub fn none() -> Measured
        ensures measured { (first : ℕ) → IsMeasured result first [] }
        ensures bounds { IsInBounds result }
        ensures count { result.count ≡ 0 }
    {
        Measured {
            count: 0,
            end: Sample {
                without: [0; CLASSES],
                with: [0; CLASSES],
                perfect: [0; CLASSES],
                live_bytes: 0,
                large_pages: 0,
                empty_without: 0,
                empty_with: 0,
            },
            without: Column::none(),
            with: Column::none(),
            perfect: Column::none(),
            levels: Levels::none(),
            most_saved: None,
            most_live: None,
        }
    }

    /// Adds the sample after the next call, whose number is `call`.
    pub fn add(&mut self, call: u32, sample: &Sample)
        requires room { self.old.count < 4294967295 }
        requires bounds { IsInBounds self.old }
        requires bounded { IsBounded sample.now }
        ensures measured { (first : ℕ) (samples : List Sample) → IsMeasured self.old first samples
            → call ≡ first + length samples
            → IsMeasured self.new first (samples ++ sample.now ∷ []) }
        ensures bounds { IsInBounds self.new }
        ensures count { self.new.count ≡ self.old.count + 1 }
    {
        self.count += 1;
        self.end = *sample;
        let without = self.without.add(&sample.without);
        let with = self.with.add(&sample.with);
        let perfect = self.perfect.add(&sample.perfect);
        self.levels.add(without, with, sample);
        let moment = Moment {
            call,
            without,
            with,
            perfect,
            live_bytes: sample.live_bytes,
            large_pages: sample.large_pages,
        };
        keep_most_saved(&mut self.most_saved, &moment);
        keep_most_live(&mut self.most_live, &moment);
    }

    /// Returns the row of the peaks.
    pub fn peaks(&self) -> Row
        requires { IsInBounds self.now }
        ensures value { (first : ℕ) (samples : List Sample) → IsMeasured self.now first samples
            → result ≡ row_by peak samples }
        ensures small { IsSmall result }
    {
        Row {
            small: Pages {
                without: self.without.total.peak,
                with: self.with.total.peak,
                perfect: self.perfect.total.peak,
            },
            live: self.levels.live.peak,
            large: self.levels.large.peak,
            all: Both {
                without: self.levels.all_without.peak,
                with: self.levels.all_with.peak,
            },
        }
    }

    /// Returns the row of the means.
    pub fn means(&self) -> Row
        requires { IsInBounds self.now }
        ensures value { (first : ℕ) (samples : List Sample) → IsMeasured self.now first samples
            → result ≡ row_by mean samples }
        ensures small { IsSmall result }
    {
        Row {
            small: Pages {
                without: rounding::mean(self.without.total.sum, self.count),
                with: rounding::mean(self.with.total.sum, self.count),
                perfect: rounding::mean(self.perfect.total.sum, self.count),
            },
            live: rounding::mean(self.levels.live.sum, self.count),
            large: rounding::mean(self.levels.large.sum, self.count),
            all: Both {
                without: rounding::mean(self.levels.all_without.sum, self.count),
                with: rounding::mean(self.levels.all_with.sum, self.count),
            },
        }
    }

    /// Returns the row of the numbers after the last call.
    pub fn ends(&self) -> Row
        requires { IsInBounds self.now }
        ensures value { (first : ℕ) (samples : List Sample) → IsMeasured self.now first samples
            → result ≡ row_by last samples }
        ensures small { IsSmall result }
    {
        let end = &self.end;
        let without = u128::from(total_pages(&end.without));
        let with = u128::from(total_pages(&end.with));
        Row {
            small: Pages {
                without,
                with,
                perfect: u128::from(total_pages(&end.perfect)),
            },
            live: u128::from(rounding::whole_pages(end.live_bytes)),
            large: end.large_pages,
            all: Both {
                without: without + end.large_pages,
                with: with + end.large_pages,
            },
        }
    }

    /// Returns the peaks of the pages of empty spans in both heaps.
    pub fn empty_peaks(&self) -> Both
        ensures { (first : ℕ) (samples : List Sample) → IsMeasured self.now first samples
            → result ≡ empty_by peak samples }
    {
        Both {
            without: self.levels.empty_without.peak,
            with: self.levels.empty_with.peak,
        }
    }

    /// Returns the means of the pages of empty spans in both heaps.
    pub fn empty_means(&self) -> Both
        ensures { (first : ℕ) (samples : List Sample) → IsMeasured self.now first samples
            → result ≡ empty_by mean samples }
    {
        Both {
            without: rounding::mean(self.levels.empty_without.sum, self.count),
            with: rounding::mean(self.levels.empty_with.sum, self.count),
        }
    }

    /// Returns the pages of empty spans in both heaps after the last call.
    pub fn empty_ends(&self) -> Both
        ensures { (first : ℕ) (samples : List Sample) → IsMeasured self.now first samples
            → result ≡ empty_by last samples }
    {
        Both {
            without: u128::from(self.end.empty_without),
            with: u128::from(self.end.empty_with),
        }
    }

    /// Returns the mean numbers of pages of the class at place `k` of the class table, for both heaps and for perfect
    /// packing.
    pub fn class_means(&self, k: usize) -> Pages
        requires { k < 10 }
        ensures { (first : ℕ) (samples : List Sample) → IsMeasured self.now first samples
            → result ≡ pages_by mean (of_class k) samples }
    {
        Pages {
            without: rounding::mean(self.without.sum_of(k), self.count),
            with: rounding::mean(self.with.sum_of(k), self.count),
            perfect: rounding::mean(self.perfect.sum_of(k), self.count),
        }
    }

    /// Returns the numbers of pages, after the last call, of the class at place `k` of the class table, for both heaps
    /// and for perfect packing.
    pub fn class_ends(&self, k: usize) -> Pages
        requires { k < 10 }
        ensures { (first : ℕ) (samples : List Sample) → IsMeasured self.now first samples
            → result ≡ pages_by last (of_class k) samples }
    {
        Pages {
            without: u128::from(self.end.without[k]),
            with: u128::from(self.end.with[k]),
            perfect: u128::from(self.end.perfect[k]),
        }
    }
}
