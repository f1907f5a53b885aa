//! The line of a judgement.
ghost use Rattle.std.specs.Prelude.{◌≡◌, ◌++◌, IfOk, OnOk};
ghost use Rattle.history_judge.specs.JudgementTexts.{call_text, judgement_text, undecided_text};

use crate::flaw_texts::{add_flaw, add_misuse};
use crate::judging::Judgement;
use history_in_order::verdict_line;
use history_object::JudgeFault;
use history_overlaps::CallVerdict;
use std::alloc::{AllocError, Global};
use text_words::add_decimal;

/// Returns the line of a judgement, with its line end. `most` is the limit on configurations that was passed to
/// `judge`.
pub fn judgement_line(
    alloc: Global,
    judgement: &Judgement,
    most: u32,
) -> Result<Vec<u8>, AllocError>
    ensures { IfOk result (λ text. text.items ≡ judgement_text most judgement.now) }
{
    match judgement {
        Judgement::InOrder(verdict) => verdict_line(alloc, verdict),
        Judgement::Overlapping(verdict) => {
            let mut text = Vec::new(alloc);
            add_verdict(&mut text, verdict, most)?;
            text.extend_from_slice(b"\n")?;
            Ok(text)
        }
    }
}

/// Appends the verdict on calls that overlap.
fn add_verdict(text: &mut Vec<u8>, verdict: &CallVerdict, most: u32) -> Result<(), AllocError>
    ensures { OnOk result (text.new.items ≡ text.old.items ++ call_text most verdict.now) }
{
    match verdict {
        CallVerdict::Linearizable(entries) => {
            text.extend_from_slice(b"linearizable ")?;
            add_decimal(text, u64::from(*entries))?;
            text.extend_from_slice(b" entries")
        }
        CallVerdict::Misused(line, misuse) => {
            text.extend_from_slice(b"line ")?;
            add_decimal(text, u64::from(*line))?;
            text.extend_from_slice(b": ")?;
            add_misuse(text, *misuse)
        }
        CallVerdict::Flawed(line, flaw) => {
            text.extend_from_slice(b"line ")?;
            add_decimal(text, u64::from(*line))?;
            text.extend_from_slice(b": ")?;
            add_flaw(text, flaw)
        }
        CallVerdict::Undecided(line, fault) => {
            text.extend_from_slice(b"undecided at line ")?;
            add_decimal(text, u64::from(*line))?;
            text.extend_from_slice(b": ")?;
            add_undecided(text, *fault, most)
        }
    }
}

/// Appends the reason why the judge stopped without a decision: too many pending accesses to one object, or more than
/// `most` configurations.
fn add_undecided(text: &mut Vec<u8>, fault: JudgeFault, most: u32) -> Result<(), AllocError>
    ensures { OnOk result (text.new.items ≡ text.old.items ++ undecided_text most fault) }
{
    match fault {
        JudgeFault::TooManyPending => text.extend_from_slice(
            b"more than 64 pending accesses to one object",
        ),
        JudgeFault::TooMany | JudgeFault::Memory => {
            text.extend_from_slice(b"more than ")?;
            add_decimal(text, u64::from(most))?;
            text.extend_from_slice(b" configurations")
        }
    }
}
