//! `Figures`: the figures of a run, gathered from one sample after each call.
ghost use Rattle.std.specs.Prelude.{◌≡◌, ◌<◌, ◌≤◌, ◌↔◌, ◌∷◌, [], ◌++◌, List, IfOk, IsTrue};
ghost use Rattle.savings_report.specs.declared.table.samples.Sample.{Sample};
ghost use Rattle.savings_report.specs.declared.table.samples.Window.{Window};
ghost use Rattle.savings_report.specs.FigureSamples.{IsBounded};
ghost use Rattle.savings_report.specs.Figures.{IsOf};
ghost use Rattle.savings_report.specs.FigureTexts.{figures_text};

use crate::table::lines::{add_calls, add_classes, add_empty, add_meshes, add_most, add_rows};
use crate::table::measured::Measured;
use crate::table::samples::{Counts, Sample, Window};
use std::alloc::{AllocError, Global};
use std::marker::Model;

/// The data gathered from a run on two heaps, one of which meshes. One sample is added after each call.
#[derive(Drop)]
pub struct Figures {
    window: Window,
    // The number of samples so far.
    calls: u32,
    // The sums and greatest values over the measured samples.
    measured: Measured,
}

impl Model for Figures {
    ghost use Rattle.std.specs.Prelude.{◌≤◌};
    ghost use Rattle.savings_report.specs.Figures.{Gathered, IsInBounds};

    ghost Value = { Gathered };

    ghost view = { λ f. record { window = f.window; calls = f.calls; measured = f.measured } };

    ghost invariant = { λ f. IsInBounds f.measured × (f.measured.count ≤ f.calls) };
}

impl Figures {
    /// Returns the figures before the first call. Of the calls that follow, only those in `window` are measured.
    pub fn new(window: Window) -> Figures
        ensures { IsOf result window [] }
    {
        Figures {
            window,
            calls: 0,
            measured: Measured::none(),
        }
    }

    /// Whether 2^32 - 1 calls have been counted. In that case `look` must not be called.
    pub fn is_full(&self) -> bool
        ensures { IsTrue result ↔ 4294967295 ≤ self.now.calls }
    {
        self.calls == u32::MAX
    }

    /// Counts the next call, and adds its sample if the call is in the window.
    pub fn look(&mut self, sample: &Sample)
        requires room { self.old.calls < 4294967295 }
        requires bounded { IsBounded sample.now }
        ensures { (window : Window) (samples : List Sample) → IsOf self.old window samples
            → IsOf self.new window (samples ++ sample.now ∷ []) }
    {
        self.calls += 1;
        if self.window.from <= self.calls && self.calls <= self.window.to {
            self.measured.add(self.calls, sample);
        }
    }

    /// Returns the table of the figures as text, with these counts of the whole run. The only error is an allocation
    /// failure.
    pub fn text(&self, alloc: Global, counts: &Counts) -> Result<Vec<u8>, AllocError>
        ensures { (window : Window) (samples : List Sample) → IsOf self.now window samples
            → IfOk result (λ text. text.items ≡ figures_text window samples counts.now) }
    {
        let mut text = Vec::new(alloc);
        add_calls(&mut text, self.calls, counts)?;
        add_rows(&mut text, &self.measured)?;
        add_most(
            &mut text,
            &self.measured.most_saved,
            &self.measured.most_live,
        )?;
        add_empty(&mut text, &self.measured)?;
        add_meshes(&mut text, counts)?;
        add_classes(&mut text, &self.measured, &counts.used)?;
        Ok(text)
    }
}
