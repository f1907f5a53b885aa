//! The peaks and the sums of sequences of numbers.
ghost use Rattle.std.specs.Prelude.{◌≡◌, ℕ, ◌+◌, ◌*◌, ◌<◌, ◌≤◌, ◌^◌, ◌∷◌, [], ◌++◌, List, IsTrue, slice_index, sum};
ghost use Rattle.savings_report.specs.declared.table.samples.Sample.{Sample};
ghost use Rattle.savings_report.specs.FigureSamples.{AreFew, IsBounded, total};
ghost use Rattle.savings_report.specs.Figures.{AreLevels, AreLevelsIn, IsColumn, IsColumnIn, class_sum, IsLevel, IsLevelIn};

use crate::table::rounding::whole_pages;
use crate::table::samples::{CLASSES, Sample};

/// The peak and the sum of a sequence of numbers.
#[derive(Clone, Copy, Debug)]
pub struct Level {
    pub peak: u128,
    pub sum: u128,
}

/// The peak and the sum of the total pages over some samples, and for each class the sum of the class's pages. Most
/// samples have the pages of the sample before. Such samples are counted, and their pages are added to the sums of the
/// classes when the pages change.
#[derive(Clone, Copy, Debug)]
pub struct Column {
    pub total: Level,
    /// The pages of the last sample.
    pub pages: [u32; CLASSES],
    /// The total of these pages.
    pub all: u32,
    /// The number of samples at the end that have these pages, and aren't in `sums`.
    pub repeats: u32,
    /// For each class, the sum of its pages over the samples before.
    pub sums: [u64; CLASSES],
}

/// The levels of the numbers of some samples that aren't divided into classes.
#[derive(Clone, Copy, Debug)]
pub struct Levels {
    /// Live bytes of each sample, rounded up to whole pages.
    pub live: Level,
    /// Pages of large objects.
    pub large: Level,
    /// Pages of small and large objects together, in the heap that doesn't mesh. Their peak isn't the sum of two
    /// peaks, which can be peaks of different samples.
    pub all_without: Level,
    /// The same in the heap that meshes.
    pub all_with: Level,
    /// Pages of empty groups in the heap that doesn't mesh.
    pub empty_without: Level,
    /// The same in the heap that meshes.
    pub empty_with: Level,
}

impl Level {
    /// Returns the peak and the sum of an empty sequence.
    pub fn none() -> Level
        ensures level { IsLevel result [] }
        ensures bounds { (most : ℕ) → IsLevelIn result most 0 }
    {
        Level { peak: 0, sum: 0 }
    }

    /// Adds a number to the sequence.
    pub fn add(&mut self, number: u128)
        requires { self.old.sum + number < 2 ^ 128 }
        ensures level { (ns : List ℕ) → IsLevel self.old ns → IsLevel self.new (ns ++ number ∷ []) }
        ensures bounds { (most count : ℕ) → number ≤ most → IsLevelIn self.old most count
            → IsLevelIn self.new most (count + 1) }
    {
        self.peak = self.peak.max(number);
        self.sum += number;
    }
}

impl Column {
    /// Returns the column of an empty sequence of samples.
    pub fn none() -> Column
        ensures column { IsColumn result [] }
        ensures bounds { IsColumnIn result 0 }
    {
        Column {
            total: Level::none(),
            pages: [0; CLASSES],
            all: 0,
            repeats: 0,
            sums: [0; CLASSES],
        }
    }

    /// Adds the pages of one more sample, and returns their total.
    pub fn add(&mut self, pages: &[u32; CLASSES]) -> u32
        requires few { AreFew pages.now }
        requires bounds { IsColumnIn self.old 4294967294 }
        ensures total { result ≡ sum pages.now }
        ensures few { result ≤ 1310720 }
        ensures column { (samples : List (List ℕ)) → IsColumn self.old samples
            → IsColumn self.new (samples ++ pages.now ∷ []) }
        ensures bounds { (count : ℕ) → IsColumnIn self.old count → IsColumnIn self.new (count + 1) }
    {
        self.turn_to(pages);
        self.repeats += 1;
        self.total.add(u128::from(self.all));
        self.all
    }

    /// Returns the sum of the pages of the class at place `k` of the class table, over all samples.
    pub fn sum_of(&self, k: usize) -> u128
        requires { k < 10 }
        ensures { result ≡ class_sum self.now k }
    {
        u128::from(self.sums[k]) + u128::from(self.repeats) * u128::from(self.pages[k])
    }

    /// Makes these pages those of the last sample, without a sample that has them if they are new.
    fn turn_to(&mut self, pages: &[u32; CLASSES])
        requires few { AreFew pages.now }
        requires bounds { IsColumnIn self.old 4294967294 }
        ensures pages { self.new.pages ≡ pages.now }
        ensures all { self.new.all ≡ sum pages.now }
        ensures repeats { self.new.repeats ≤ self.old.repeats }
        ensures total { self.new.total ≡ self.old.total }
        ensures sums { (k : ℕ) → k < 10 → class_sum self.new k ≡ class_sum self.old k }
    {
        if !are_equal(pages, &self.pages) {
            add_each(&mut self.sums, &self.pages, self.repeats);
            self.pages = *pages;
            self.all = total_pages(pages);
            self.repeats = 0;
        }
    }
}

impl Levels {
    /// Returns the levels of an empty sequence of samples.
    pub fn none() -> Levels
        ensures levels { AreLevels result [] }
        ensures bounds { AreLevelsIn result 0 }
    {
        Levels {
            live: Level::none(),
            large: Level::none(),
            all_without: Level::none(),
            all_with: Level::none(),
            empty_without: Level::none(),
            empty_with: Level::none(),
        }
    }

    /// Adds the numbers of one more sample, whose total pages are `without` and `with`.
    pub fn add(&mut self, without: u32, with: u32, sample: &Sample)
        requires bounds { AreLevelsIn self.old 4294967295 }
        requires bounded { IsBounded sample.now }
        requires without { without ≡ total sample.now.without }
        requires with { with ≡ total sample.now.with }
        requires few { (without ≤ 1310720) × (with ≤ 1310720) }
        ensures levels { (samples : List Sample) → AreLevels self.old samples
            → AreLevels self.new (samples ++ sample.now ∷ []) }
        ensures bounds { (count : ℕ) → AreLevelsIn self.old count → AreLevelsIn self.new (count + 1) }
    {
        self.live.add(u128::from(whole_pages(sample.live_bytes)));
        self.large.add(sample.large_pages);
        self.all_without
            .add(u128::from(without) + sample.large_pages);
        self.all_with.add(u128::from(with) + sample.large_pages);
        self.empty_without.add(u128::from(sample.empty_without));
        self.empty_with.add(u128::from(sample.empty_with));
    }
}

/// Returns the sum of the pages of all classes.
pub fn total_pages(pages: &[u32; CLASSES]) -> u32
    requires { sum pages.now < 2 ^ 32 }
    ensures { result ≡ sum pages.now }
{
    pages.iter().sum()
}

/// Whether each class has as many pages in one list as in the other.
fn are_equal(one: &[u32; CLASSES], other: &[u32; CLASSES]) -> bool
    ensures { IsTrue result → one.now ≡ other.now }
{
    for k in 0..CLASSES {
        if one[k] != other[k] {
            return false;
        }
    }
    true
}

/// Adds the pages of each class to the sum of that class, so many times.
fn add_each(sums: &mut [u64; CLASSES], pages: &[u32; CLASSES], times: u32)
    requires { (k : ℕ) → k < 10 → slice_index sums.old k + times * slice_index pages.now k < 2 ^ 64 }
    ensures { (k : ℕ) → k < 10 → slice_index sums.new k ≡ slice_index sums.old k + times * slice_index pages.now k }
{
    for k in 0..CLASSES {
        sums[k] += u64::from(times) * u64::from(pages[k]);
    }
}
