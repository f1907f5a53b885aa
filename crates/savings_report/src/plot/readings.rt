//! The numbers of pages after a call.
ghost use Rattle.std.specs.Prelude.{◌≡◌, ◌<◌, ◌^◌, sum};
ghost use Rattle.std.specs.Int.{div_ceil};
ghost use Rattle.savings_report.specs.FigureSamples.{AreFew, IsBounded};
ghost use Rattle.savings_report.specs.Intervals.{reading};

use crate::table::{Sample, total_pages, whole_pages};

/// The numbers of pages after a call. The first four are those of the curves.
#[derive(Clone, Copy, Debug)]
pub struct Reading {
    /// Pages of the held groups of the heap that doesn't mesh.
    pub without: u32,
    /// Pages of the held groups of the heap that meshes.
    pub with: u32,
    /// The pages that the live objects would need if they were packed perfectly.
    pub perfect: u32,
    /// The live bytes in whole pages, rounded up.
    pub live: u32,
    /// Pages of the live objects above 2,048 bytes.
    pub large: u128,
    /// Pages of the empty groups of the heap that doesn't mesh.
    pub empty_without: u32,
    /// Pages of the empty groups of the heap that meshes.
    pub empty_with: u32,
}

impl Reading {
    /// Returns the numbers of pages for a sample.
    pub fn of(sample: &Sample) -> Reading
        requires { IsBounded sample.now }
        ensures { result ≡ reading sample.now }
    {
        Reading {
            without: total_pages(&sample.without),
            with: total_pages(&sample.with),
            perfect: total_pages(&sample.perfect),
            live: whole_pages(sample.live_bytes) as u32,
            large: sample.large_pages,
            empty_without: sample.empty_without,
            empty_with: sample.empty_with,
        }
    }
}
