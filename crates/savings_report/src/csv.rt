//! The numbers of each interval, as comma-separated values.
ghost use Rattle.std.specs.Prelude.{◌≡◌, ◌++◌, List, IfOk, OnOk, decimal};
ghost use Rattle.savings_report.specs.Courses.{series_in};
ghost use Rattle.savings_report.specs.CsvTexts.{csv_text, header_line, interval_line, numbers_line, series_text};
ghost use Rattle.savings_report.specs.Intervals.{IsOf};
ghost use Rattle.savings_report.specs.declared.table.samples.Sample.{Sample};
ghost use Rattle.savings_report.specs.declared.table.samples.Window.{Window};

use crate::plot::{Course, Curves, Interval};
use itoa::Buffer;
use std::alloc::{AllocError, Global};

/// Returns a header line, and then a line for each interval: its last call, the numbers after this call, and the least
/// and the greatest number of pages of each heap. The only error of each function in this file is an allocation
/// failure.
pub(crate) fn csv_text(alloc: Global, curves: &Curves) -> Result<Vec<u8>, AllocError>
    ensures { (window : Window) (samples : List Sample) → IsOf curves.now window samples
        → IfOk result (λ text. text.items ≡ csv_text window samples) }
{
    series_text(alloc, &curves.course())
}

/// Returns the header line and the lines of these intervals.
fn series_text(alloc: Global, course: &Course) -> Result<Vec<u8>, AllocError>
    ensures { IfOk result (λ text. text.items ≡ series_text (series_in course.now)) }
{
    let mut text = Vec::new(alloc);
    add_header(&mut text)?;
    let mut call = course.before;
    for interval in course.intervals {
        call = course.end_after(call);
        add_interval(&mut text, call, interval)?;
    }
    Ok(text)
}

/// Adds the header line.
#[tactic(auto, unfolding(crate::specs::CsvTexts::header_line))]
fn add_header(text: &mut Vec<u8>) -> Result<(), AllocError>
    ensures { OnOk result (text.new.items ≡ text.old.items ++ header_line) }
{
    text.extend_from_slice(b"call,without,with,perfect,live,large,empty_without,empty_with,")?;
    text.extend_from_slice(b"without_least,without_most,with_least,with_most\n")
}

/// Adds the line of an interval, whose last call is `call`.
#[tactic(auto, unfolding(crate::specs::CsvTexts::interval_line))]
fn add_interval(text: &mut Vec<u8>, call: u32, interval: &Interval) -> Result<(), AllocError>
    ensures { OnOk result (text.new.items ≡ text.old.items ++ interval_line call interval.now) }
{
    let last = interval.last;
    let others = [
        u128::from(last.without),
        u128::from(last.with),
        u128::from(last.perfect),
        u128::from(last.live),
        last.large,
        u128::from(last.empty_without),
        u128::from(last.empty_with),
        u128::from(interval.without.least),
        u128::from(interval.without.greatest),
        u128::from(interval.with.least),
        u128::from(interval.with.greatest),
    ];
    add_numbers(text, call, &others)
}

/// Adds a line of numbers, separated by commas.
#[tactic(auto, unfolding(crate::specs::CsvTexts::numbers_line))]
fn add_numbers(text: &mut Vec<u8>, first: u32, others: &[u128]) -> Result<(), AllocError>
    ensures { OnOk result (text.new.items ≡ text.old.items ++ numbers_line first others.now) }
{
    add_number(text, u128::from(first))?;
    for number in others {
        text.extend_from_slice(b",")?;
        add_number(text, *number)?;
    }
    text.extend_from_slice(b"\n")
}

/// Adds a number in decimal digits.
fn add_number(text: &mut Vec<u8>, number: u128) -> Result<(), AllocError>
    ensures { OnOk result (text.new.items ≡ text.old.items ++ decimal number) }
{
    let mut digits = Buffer::new();
    text.extend_from_slice(digits.format(number).as_bytes())
}
