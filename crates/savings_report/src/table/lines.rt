//! The lines of the table.
ghost use Rattle.std.specs.Prelude.{◌≡◌, ℕ, ◌<◌, ◌^◌, ◌++◌, List, OnOk};
ghost use Rattle.mesh_class.specs.Class.{size_at};
ghost use Rattle.savings_report.specs.declared.table.samples.Sample.{Sample};
ghost use Rattle.savings_report.specs.Figures.{IsInBounds, IsMeasured, IsSmall};
ghost use Rattle.savings_report.specs.FigureTexts.{both_text, calls_line, class_line, class_lines, class_pages, empty_line, heading_line, meshes_line, most_line, most_live_text, most_saved_text, row_line, rows, saving_text, small_columns, used_line};

use crate::table::measured::Measured;
use crate::table::moments::{Moment, row_at};
use crate::table::pages::{Both, Pages, Row};
use crate::table::rounding::{divided, whole_pages};
use crate::table::samples::{CLASSES, Counts};
use crate::table::words::{
    add, add_column, add_counted, add_decimal, add_left, add_number_left, add_saved,
    add_saved_column, add_tenths,
};
use mesh_class::{Class, all_classes};
use std::alloc::AllocError;

/// The number of bytes in a tenth of a megabyte.
const TENTH_OF_MEGABYTE: u128 = 100000;

/// Adds the line with the number of calls and the counts of objects. The only error of each function in this file is an
/// allocation failure.
#[tactic(auto, unfolding(crate::specs::FigureTexts::calls_line))]
pub fn add_calls(text: &mut Vec<u8>, calls: u32, counts: &Counts) -> Result<(), AllocError>
    ensures { OnOk result (text.new.items ≡ text.old.items ++ calls_line calls counts.now) }
{
    add_counted(text, b"calls ", u128::from(calls))?;
    add_counted(text, b"  objects at most ", u128::from(counts.most_objects))?;
    add_counted(text, b"  above 2048: ", u128::from(counts.large))?;
    add(text, b", not meshed\n")
}

/// Adds the table's heading and its rows: peak, mean, most live and end.
#[tactic(auto, unfolding(crate::specs::FigureTexts::rows))]
pub fn add_rows(text: &mut Vec<u8>, measured: &Measured) -> Result<(), AllocError>
    requires { IsInBounds measured.now }
    ensures { (first : ℕ) (samples : List Sample) → IsMeasured measured.now first samples
        → OnOk result (text.new.items ≡ text.old.items ++ rows samples measured.now.most_live) }
{
    add_heading(text)?;
    add_row(text, b"peak", &measured.peaks())?;
    add_row(text, b"mean of calls", &measured.means())?;
    add_row(text, b"most live", &row_at(&measured.most_live))?;
    add_row(text, b"end", &measured.ends())
}

/// Adds the table's heading.
#[tactic(auto, unfolding(crate::specs::FigureTexts::heading_line))]
fn add_heading(text: &mut Vec<u8>) -> Result<(), AllocError>
    ensures { OnOk result (text.new.items ≡ text.old.items ++ heading_line) }
{
    add(
        text,
        b"pages              without     with  saved  perfect  live bytes  above 2048  of all\n",
    )
}

/// Adds a row: its name, the columns of small objects, their live bytes in whole pages, the pages of large objects, and
/// the share that meshing saves of the pages of all objects.
#[tactic(auto, unfolding(crate::specs::FigureTexts::row_line))]
fn add_row(text: &mut Vec<u8>, name: &[u8], row: &Row) -> Result<(), AllocError>
    requires { IsSmall row.now }
    ensures { OnOk result (text.new.items ≡ text.old.items ++ row_line name.now row.now) }
{
    add_left(text, 17, name)?;
    add_small_columns(text, &row.small)?;
    add_column(text, 12, row.live)?;
    add_column(text, 12, row.large)?;
    add_saved_column(text, 7, row.all.without, row.all.with)?;
    add(text, b"\n")
}

/// Adds the columns of small objects: the pages without and with meshing, the share saved, and the pages with perfect
/// packing.
#[tactic(auto, unfolding(crate::specs::FigureTexts::small_columns))]
fn add_small_columns(text: &mut Vec<u8>, pages: &Pages) -> Result<(), AllocError>
    requires without { pages.now.without < 2 ^ 118 }
    requires with { pages.now.with < 2 ^ 118 }
    ensures { OnOk result (text.new.items ≡ text.old.items ++ small_columns pages.now) }
{
    add_column(text, 9, pages.without)?;
    add_column(text, 9, pages.with)?;
    add_saved_column(text, 6, pages.without, pages.with)?;
    add_column(text, 9, pages.perfect)
}

/// Adds the line about the call after which meshing saves most, and about the call after which the most bytes are live.
#[tactic(auto, unfolding(crate::specs::FigureTexts::most_line))]
pub fn add_most(
    text: &mut Vec<u8>,
    saved: &Option<Moment>,
    live: &Option<Moment>,
) -> Result<(), AllocError>
    ensures { OnOk result (text.new.items ≡ text.old.items ++ most_line saved.now live.now) }
{
    add(text, b"most saved  ")?;
    add_most_saved(text, saved)?;
    add(text, b"  most live ")?;
    add_most_live(text, live)?;
    add(text, b"\n")
}

/// Adds what meshing saves at this moment. Adds a dash if meshing saves nothing then, or if there is no moment.
#[tactic(auto, unfolding(crate::specs::FigureTexts::most_saved_text))]
fn add_most_saved(text: &mut Vec<u8>, most: &Option<Moment>) -> Result<(), AllocError>
    ensures { OnOk result (text.new.items ≡ text.old.items ++ most_saved_text most.now) }
{
    match most {
        Some(best) if best.with < best.without => add_saving(text, best),
        _ => add(text, b"-"),
    }
}

/// Adds what meshing saves at this moment, at which call, and the live bytes in whole pages.
#[tactic(auto, unfolding(crate::specs::FigureTexts::saving_text))]
fn add_saving(text: &mut Vec<u8>, best: &Moment) -> Result<(), AllocError>
    requires { best.now.with < best.now.without }
    ensures { OnOk result (text.new.items ≡ text.old.items ++ saving_text best.now) }
{
    let without = u128::from(best.without);
    let with = u128::from(best.with);
    add_decimal(text, without - with)?;
    add_counted(text, b" of ", without)?;
    add(text, b" pages (")?;
    add_saved(text, without, with)?;
    add_counted(text, b") at call ", u128::from(best.call))?;
    add_counted(
        text,
        b", live bytes ",
        u128::from(whole_pages(best.live_bytes)),
    )
}

/// Adds the call of this moment, or a dash if there is no moment.
#[tactic(auto, unfolding(crate::specs::FigureTexts::most_live_text))]
fn add_most_live(text: &mut Vec<u8>, most: &Option<Moment>) -> Result<(), AllocError>
    ensures { OnOk result (text.new.items ≡ text.old.items ++ most_live_text most.now) }
{
    match most {
        Some(best) => add_counted(text, b"at call ", u128::from(best.call)),
        None => add(text, b" -"),
    }
}

/// Adds the line with the pages of empty spans in both heaps.
#[tactic(auto, unfolding(crate::specs::FigureTexts::empty_line))]
pub fn add_empty(text: &mut Vec<u8>, measured: &Measured) -> Result<(), AllocError>
    ensures { (first : ℕ) (samples : List Sample) → IsMeasured measured.now first samples
        → OnOk result (text.new.items ≡ text.old.items ++ empty_line samples) }
{
    add(text, b"empty spans  peak ")?;
    add_both(text, &measured.empty_peaks())?;
    add(text, b"  mean ")?;
    add_both(text, &measured.empty_means())?;
    add(text, b"  end ")?;
    add_both(text, &measured.empty_ends())?;
    add(text, b"\n")
}

/// Adds a number of pages without meshing and with it.
#[tactic(auto, unfolding(crate::specs::FigureTexts::both_text))]
fn add_both(text: &mut Vec<u8>, both: &Both) -> Result<(), AllocError>
    ensures { OnOk result (text.new.items ≡ text.old.items ++ both_text both.now) }
{
    add_decimal(text, both.without)?;
    add_counted(text, b" -> ", both.with)
}

/// Adds the line with the counts of meshes, refused meshes, copied bytes (in megabytes), rounds, tries and virtual
/// pages.
#[tactic(auto, unfolding(crate::specs::FigureTexts::meshes_line))]
pub fn add_meshes(text: &mut Vec<u8>, counts: &Counts) -> Result<(), AllocError>
    ensures { OnOk result (text.new.items ≡ text.old.items ++ meshes_line counts.now) }
{
    add_counted(text, b"meshes ", u128::from(counts.meshes))?;
    add_counted(text, b"  refused ", u128::from(counts.refused))?;
    add(text, b"  copied ")?;
    add_tenths(text, divided(u128::from(counts.copied), TENTH_OF_MEGABYTE))?;
    add_counted(text, b" MB  rounds ", u128::from(counts.rounds))?;
    add_counted(text, b"  tries ", counts.tries)?;
    add_counted(text, b"  virtual pages ", u128::from(counts.virtual_pages))?;
    add(text, b"\n")
}

/// Adds a line for each class that ever held an object.
pub fn add_classes(
    text: &mut Vec<u8>,
    measured: &Measured,
    used: &[bool; CLASSES],
) -> Result<(), AllocError>
    ensures { (first : ℕ) (samples : List Sample) → IsMeasured measured.now first samples
        → OnOk result (text.new.items ≡ text.old.items ++ class_lines used.now samples) }
{
    let classes = all_classes();
    for k in 0..CLASSES {
        add_if_used(text, measured, used, k, classes[k])?;
    }
    Ok(())
}

/// Adds the line of the class at place `k` of the class table. Adds nothing if this class never held an object.
fn add_if_used(
    text: &mut Vec<u8>,
    measured: &Measured,
    used: &[bool; CLASSES],
    k: usize,
    class: Class,
) -> Result<(), AllocError>
    requires place { k < 10 }
    requires class { class ≡ size_at k }
    ensures { (first : ℕ) (samples : List Sample) → IsMeasured measured.now first samples
        → OnOk result (text.new.items ≡ text.old.items ++ used_line used.now samples k) }
{
    if !used[k] {
        return Ok(());
    }
    add_class(
        text,
        class,
        &measured.class_means(k),
        &measured.class_ends(k),
    )
}

/// Adds the line of a class: the means of its numbers of pages, and its numbers of pages at the end.
#[tactic(auto, unfolding(crate::specs::FigureTexts::class_line))]
fn add_class(
    text: &mut Vec<u8>,
    class: Class,
    means: &Pages,
    ends: &Pages,
) -> Result<(), AllocError>
    ensures { OnOk result (text.new.items ≡ text.old.items ++ class_line class means.now ends.now) }
{
    add(text, b"class ")?;
    add_number_left(text, 6, u128::from(class.size()))?;
    add(text, b"mean ")?;
    add_class_pages(text, means)?;
    add(text, b"  end ")?;
    add_class_pages(text, ends)?;
    add(text, b"\n")
}

/// Adds the pages of a class: without meshing, with meshing, and with perfect packing.
#[tactic(auto, unfolding(crate::specs::FigureTexts::class_pages))]
fn add_class_pages(text: &mut Vec<u8>, pages: &Pages) -> Result<(), AllocError>
    ensures { OnOk result (text.new.items ≡ text.old.items ++ class_pages pages.now) }
{
    add_column(text, 5, pages.without)?;
    add(text, b" -> ")?;
    add_column(text, 5, pages.with)?;
    add(text, b"  perfect ")?;
    add_column(text, 5, pages.perfect)
}
