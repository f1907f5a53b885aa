//! The text of a plan's lines, without line ends.
ghost use Rattle.std.specs.Prelude.{◌≡◌, ◌++◌, OnOk};
ghost use Rattle.model_jobs.specs.Jobs.{PairClass};
ghost use Rattle.model_jobs.specs.Texts.{line_text, number_field};
ghost use Rattle.text_job.specs.Plan.{line_of};

use crate::plan::{PlanLine, Search};
use std::alloc::AllocError;
use text_words::{add_named, add_numbers};

/// Adds a line of a plan, as a job file spells it.
pub fn add_plan_line(text: &mut Vec<u8>, line: &PlanLine) -> Result<(), AllocError>
    ensures { OnOk result (text.new.items ≡ text.old.items ++ line_text (line_of line.now)) }
{
    match line {
        PlanLine::Run(worker) => add_named(text, b"run", &[u64::from(*worker)]),
        PlanLine::Pair(search) => add_search(text, &**search),
        PlanLine::Begin {
            source,
            destination,
        } => add_groups(text, b"begin", *source, *destination),
        PlanLine::Step => text.extend_from_slice(b"step"),
        PlanLine::Cancel => text.extend_from_slice(b"cancel"),
        PlanLine::StepClass(class) => add_named(text, b"step", &[u64::from(class.size())]),
        PlanLine::CancelClass(class) => add_named(text, b"cancel", &[u64::from(class.size())]),
        PlanLine::Whole {
            source,
            destination,
        } => add_groups(text, b"whole", *source, *destination),
        PlanLine::Sweep(group) => add_named(text, b"sweep", &[u64::from(*group)]),
        PlanLine::Report => text.extend_from_slice(b"report"),
    }
}

/// Appends the name of a mesh's plan line, its source and its destination.
fn add_groups(
    text: &mut Vec<u8>,
    name: &[u8],
    source: u32,
    destination: u32,
) -> Result<(), AllocError>
    ensures { OnOk result
        (text.new.items ≡ text.old.items ++ (name.now ++ number_field source ++ number_field destination)) }
{
    add_named(text, name, &[u64::from(source), u64::from(destination)])
}

/// Appends the line of a search: its class, its number of rounds, and its words.
fn add_search(text: &mut Vec<u8>, search: &Search) -> Result<(), AllocError>
    ensures { OnOk result
        (text.new.items ≡ text.old.items
        ++ line_text (PairClass search.now.class search.now.rounds search.now.words.items)) }
{
    let numbers = [u64::from(search.class.size()), u64::from(search.rounds)];
    add_named(text, b"pair", &numbers)?;
    add_numbers(text, search.words.as_slice())
}
