//! The answer lines of a mesher's calls, without line ends.
ghost use Rattle.std.specs.Prelude.{◌≡◌, ◌++◌, decimal, map, OnOk};
ghost use Rattle.std.specs.List.{flat_map};
ghost use Rattle.model_jobs.specs.Texts.{answer_text, field, found_text, kind_text, left_text, pair_text, report_text};
ghost use Rattle.mesh_page_heap.specs.PageHeap.{counts_told};
ghost use Rattle.mesh_search.specs.Pairs.{pairing};
ghost use Rattle.mesh_text.specs.Answers.{counted_text, step_told};

use mesh_running::kind_name;
use mesh_search::Found;
use mesh_steps::{Report, StepDone};
use model_words::Refusal;
use std::alloc::AllocError;
use text_words::{add_decimal, add_refusal};

/// Appends `words` and the number that a call returned. If the call was refused, appends only the refusal.
pub fn add_counted(
    text: &mut Vec<u8>,
    words: &[u8],
    count: Result<u32, Refusal>,
) -> Result<(), AllocError>
    ensures { OnOk result (text.new.items ≡ text.old.items ++ counted_text words.now count) }
{
    match count {
        Ok(count) => add_count(text, words, count),
        Err(refusal) => add_refusal(text, refusal),
    }
}

/// Appends words and a number.
fn add_count(text: &mut Vec<u8>, words: &[u8], count: u32) -> Result<(), AllocError>
    ensures { OnOk result (text.new.items ≡ text.old.items ++ (words.now ++ decimal count)) }
{
    text.extend_from_slice(words)?;
    add_decimal(text, u64::from(count))
}

/// Appends `KIND left N` for a step that was made. If the step was refused, appends the refusal.
pub fn add_step(text: &mut Vec<u8>, step: Result<StepDone, Refusal>) -> Result<(), AllocError>
    ensures { OnOk result (text.new.items ≡ text.old.items ++ answer_text (step_told step)) }
{
    match step {
        Ok(step) => add_step_done(text, step),
        Err(refusal) => add_refusal(text, refusal),
    }
}

/// Adds `KIND left N`.
fn add_step_done(text: &mut Vec<u8>, step: StepDone) -> Result<(), AllocError>
    ensures { OnOk result (text.new.items ≡ text.old.items ++ (kind_text step.kind ++ field (left_text step.left))) }
{
    text.extend_from_slice(kind_name(step.kind).as_bytes())?;
    add_count(text, b" left ", step.left)
}

/// Appends `found K probes Q`, and then each pair.
pub fn add_found(text: &mut Vec<u8>, found: &Found) -> Result<(), AllocError>
    ensures { OnOk result (text.new.items ≡ text.old.items ++ found_text found.now) }
{
    text.extend_from_slice(b"found ")?;
    add_decimal(text, found.pairs.len() as u64)?;
    text.extend_from_slice(b" probes ")?;
    add_decimal(text, found.probes)?;
    add_pairs(text, found.pairs.as_slice())
}

/// Adds pairs, a space before each.
fn add_pairs(text: &mut Vec<u8>, pairs: &[(u32, u32)]) -> Result<(), AllocError>
    ensures { OnOk result (text.new.items ≡ text.old.items ++ flat_map pair_text (map pairing pairs.now)) }
{
    for pair in pairs {
        add_pair(text, *pair)?;
    }
    Ok(())
}

/// Adds a space and `SRC:DST`.
fn add_pair(text: &mut Vec<u8>, pair: (u32, u32)) -> Result<(), AllocError>
    ensures { OnOk result (text.new.items ≡ text.old.items ++ pair_text (pairing pair)) }
{
    let (source, destination) = pair;
    add_count(text, b" ", source)?;
    add_count(text, b":", destination)
}

/// Adds `report objects A bytes B mapped C taken D saved E`.
pub fn add_report(text: &mut Vec<u8>, report: Report) -> Result<(), AllocError>
    ensures { OnOk result (text.new.items ≡ text.old.items ++ report_text (counts_told report)) }
{
    add_count(text, b"report objects ", report.objects)?;
    add_count(text, b" bytes ", report.bytes)?;
    add_count(text, b" mapped ", report.mapped)?;
    add_count(text, b" taken ", report.taken)?;
    add_count(text, b" saved ", report.saved)
}
