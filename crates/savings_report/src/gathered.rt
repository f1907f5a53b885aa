//! `Gathered`: the data for a table, a plot or comma-separated values, gathered from a sample after each call.
ghost use Rattle.std.specs.Prelude.{◌≡◌, ◌-◌, ◌<◌, ◌≤◌, ◌^◌, ◌↔◌, ◌++◌, ◌∷◌, [], List, IfOk, IsTrue};
ghost use Rattle.savings_report.specs.FigureSamples.{IsBounded};
ghost use Rattle.savings_report.specs.declared.table.samples.Sample.{Sample};
ghost use Rattle.savings_report.specs.Gathered.{IsOf, calls_in};
ghost use Rattle.savings_report.specs.Reports.{IsShownAs};
ghost use Rattle.savings_report.specs.declared.options.SavingsOptions.{SavingsOptions};

use crate::csv::csv_text;
use crate::options::{Form, SavingsOptions};
use crate::plot::{Caption, Curves};
use crate::table::{Counts, Figures, Sample};
use std::alloc::{AllocError, Global};

/// The data gathered from a sample after each call.
#[derive(Drop)]
pub(crate) enum Gathered {
    /// The figures for a table.
    Table(Figures),
    /// The curves for a plot.
    Plot(Curves),
    /// The same curves for comma-separated values.
    Csv(Curves),
}

impl Gathered {
    /// Returns the data before the first sample, in the form that the options ask for.
    pub(crate) fn new(alloc: Global, options: &SavingsOptions) -> Result<Gathered, AllocError>
        ensures { IfOk result (λ gathered. IsOf gathered options.now []) }
    {
        match options.form {
            Form::Table => Ok(Gathered::Table(Figures::new(options.window))),
            Form::Plot => Ok(Gathered::Plot(Curves::new(alloc, options.window)?)),
            Form::Csv => Ok(Gathered::Csv(Curves::new(alloc, options.window)?)),
        }
    }

    /// Whether 2^32 - 1 samples have been added. In that case `look` must not be called.
    pub(crate) fn is_full(&self) -> bool
        ensures { IsTrue result ↔ 2 ^ 32 - 1 ≤ calls_in self.now }
    {
        match self {
            Gathered::Table(figures) => figures.is_full(),
            Gathered::Plot(curves) | Gathered::Csv(curves) => curves.is_full(),
        }
    }

    /// Adds the sample of both heaps after the next call.
    pub(crate) fn look(&mut self, sample: &Sample)
        requires room { calls_in self.old < 2 ^ 32 - 1 }
        requires bounded { IsBounded sample.now }
        ensures { (options : SavingsOptions) (samples : List Sample) → IsOf self.old options samples
            → IsOf self.new options (samples ++ sample.now ∷ []) }
    {
        match self {
            Gathered::Table(figures) => figures.look(sample),
            Gathered::Plot(curves) => curves.look(sample),
            Gathered::Csv(curves) => curves.look(sample),
        }
    }

    /// Returns the text of the table, of the plot, or of the comma-separated values. Only a table shows `counts`, the
    /// counts of the whole run, and only a plot the caption.
    pub(crate) fn text(
        &self,
        alloc: Global,
        caption: &Caption,
        counts: &Counts,
    ) -> Result<Vec<u8>, AllocError>
        ensures { (options : SavingsOptions) (samples : List Sample) → IsOf self.now options samples
            → IfOk result (λ text. IsShownAs options.form options.window samples counts.now text.items) }
    {
        match self {
            Gathered::Table(figures) => figures.text(alloc, counts),
            Gathered::Plot(curves) => curves.picture(alloc, caption),
            Gathered::Csv(curves) => csv_text(alloc, curves),
        }
    }
}
