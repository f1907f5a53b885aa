//! Lemmas about every sample of a run. Each is the contract of a function that does nothing.
ghost use Rattle.savings_report.specs.Laws.{PerfectFiguresAreLeast, PerfectIsLeast};

use savings_replay::class_laws::{bytes_fit_pages, objects_fit_pages};
use savings_replay::laws::{heaps_are_alike, heaps_are_sound};

/// After any calls, the pages of each class with perfect packing are at most the pages of that class in either heap.
/// The live bytes, in whole pages, are at most the pages of all classes with perfect packing.
pub fn perfect_is_least()
    ensures { PerfectIsLeast }
{
    objects_fit_pages();
    bytes_fit_pages();
    heaps_are_sound();
    heaps_are_alike();
}

/// If this is true for each sample, it is true for each row of the table: the live bytes are at most the pages with
/// perfect packing, which are at most the pages of either heap.
pub fn perfect_figures_are_least()
    ensures { PerfectFiguresAreLeast }
{}
