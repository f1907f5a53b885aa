//! `Curves`, which gathers one sample after each call.
ghost use Rattle.std.specs.Prelude.{◌≡◌, ◌<◌, ◌≤◌, ◌^◌, ◌↔◌, ◌∷◌, [], ◌++◌, List, IfOk, IsTrue};
ghost use Rattle.savings_report.specs.declared.table.samples.Sample.{Sample};
ghost use Rattle.savings_report.specs.declared.table.samples.Window.{Window};
ghost use Rattle.savings_report.specs.Courses.{series_in, series_of};
ghost use Rattle.savings_report.specs.FigureSamples.{IsBounded};
ghost use Rattle.savings_report.specs.Intervals.{IsOf};
ghost use Rattle.savings_report.specs.PlotCurves.{IsPlot};

use crate::plot::captions::Caption;
use crate::plot::courses::Course;
use crate::plot::intervals::Intervals;
use crate::plot::plotted::draw_plot;
use crate::plot::readings::Reading;
use crate::table::{Moment, Sample, Window, keep_most_saved};
use draw_svg::Text;
use std::alloc::{AllocError, Global};
use std::marker::Model;

/// Four curves over the measured calls. The calls are divided into at most 600 intervals of equal size, but the last
/// interval may have fewer calls. `Curves` takes one sample after each call. For each curve, an interval keeps the
/// least and the greatest value.
#[derive(Drop)]
pub struct Curves {
    window: Window,
    // The number of samples so far.
    calls: u32,
    // The least and greatest values of the measured samples, by interval.
    intervals: Intervals,
    // The first measured call after which meshing saves the most pages.
    most_saved: Option<Moment>,
}

impl Model for Curves {
    ghost use Rattle.std.specs.Prelude.{◌+◌, ◌-◌, ◌<◌, ◌≤◌, max, take};
    ghost use Rattle.std.specs.Int.{div_ceil};
    ghost use Rattle.savings_report.specs.Intervals.{Gathered, IsSound};

    ghost Value = { Gathered };

    ghost view = { λ c. record {
      window = c.window;
      calls = c.calls;
      count = c.intervals.count;
      width = c.intervals.width;
      intervals = take (div_ceil c.intervals.count c.intervals.width) c.intervals.list.items;
    } };

    ghost invariant = { λ c. IsSound c.intervals
        × (c.window.from - 1 + c.intervals.count ≤ max c.calls (c.window.from - 1))
        × (c.calls < 4294967296) };
}

impl Curves {
    /// Makes curves without calls, and allocates all memory that their samples will use. Returns an error if an
    /// allocation fails.
    pub fn new(alloc: Global, window: Window) -> Result<Curves, AllocError>
        ensures { IfOk result (λ curves. IsOf curves window []) }
    {
        Ok(Curves {
            window,
            calls: 0,
            intervals: Intervals::new(alloc)?,
            most_saved: None,
        })
    }

    /// Whether `look` was called 2^32 - 1 times. `look` must not be called then.
    pub fn is_full(&self) -> bool
        ensures { IsTrue result ↔ 4294967295 ≤ self.now.calls }
    {
        self.calls == u32::MAX
    }

    /// Takes the sample of both heaps after the next call. Only calls in the window are measured. `look` allocates
    /// nothing.
    pub fn look(&mut self, sample: &Sample)
        requires room { self.old.calls < 4294967295 }
        requires bounded { IsBounded sample.now }
        ensures { (window : Window) (samples : List Sample) → IsOf self.old window samples
            → IsOf self.new window (samples ++ sample.now ∷ []) }
    {
        self.calls += 1;
        if self.window.from <= self.calls && self.calls <= self.window.to {
            let reading = Reading::of(sample);
            let moment = Moment {
                call: self.calls,
                without: reading.without,
                with: reading.with,
                perfect: reading.perfect,
                live_bytes: sample.live_bytes,
                large_pages: sample.large_pages,
            };
            keep_most_saved(&mut self.most_saved, &moment);
            self.intervals.add(reading);
        }
    }

    /// Returns the plot as an SVG file, with the caption above it. Returns an error if an allocation fails.
    pub fn picture(&self, alloc: Global, caption: &Caption) -> Result<Vec<u8>, AllocError>
        ensures { (window : Window) (samples : List Sample) → IsOf self.now window samples
            → IfOk result (λ file. IsPlot (series_of window samples) file.items) }
    {
        let mut text = Text::new(alloc);
        draw_plot(&mut text, &self.course(), caption);
        text.finish()
    }

    /// Returns the intervals of the measured calls.
    pub fn course(&self) -> Course<'_>
        ensures before { result.before < 4294967295 }
        ensures value { (window : Window) (samples : List Sample) → IsOf self.now window samples
            → series_in result ≡ series_of window samples }
    {
        let before = self.window.from.saturating_sub(1);
        Course {
            intervals: self.intervals.used(),
            width: self.intervals.width,
            before,
            last: before + self.intervals.count,
            most_saved: self.most_saved,
        }
    }
}
