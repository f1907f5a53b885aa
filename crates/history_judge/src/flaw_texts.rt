//! The text of the reason why calls are no history, or why no order of effects explains them.
ghost use Rattle.std.specs.Prelude.{◌≡◌, ◌++◌, OnOk};
ghost use Rattle.std.specs.List.{flat_map};
ghost use Rattle.history_judge.specs.FlawTexts.{answer_text, flaw_text, later_text, least_text, load_text, loads_text, misuse_text, object_text, possible_text, unfair_text};

use history_bytes::RecordedBytes;
use history_overlaps::{Flaw, Loads, Misuse, NewObject, Possible, Unexplained};
use history_reading::RecordedReply;
use model_words::Refusal;
use std::alloc::AllocError;
use text_words::{add_bytes, add_decimal, add_recorded};

/// Appends the rule of use that a call breaks.
pub(crate) fn add_misuse(text: &mut Vec<u8>, misuse: Misuse) -> Result<(), AllocError>
    ensures { OnOk result (text.new.items ≡ text.old.items ++ misuse_text misuse) }
{
    match misuse {
        Misuse::CellAgain => text.extend_from_slice(b"no history: cell again"),
        Misuse::NotAfterNew => text.extend_from_slice(b"no history: not after its new"),
        Misuse::NotBeforeFree => text.extend_from_slice(b"no history: not before its free"),
    }
}

/// Appends the reason why no order of effects explains a history.
pub(crate) fn add_flaw(text: &mut Vec<u8>, flaw: &Flaw) -> Result<(), AllocError>
    ensures { OnOk result (text.new.items ≡ text.old.items ++ flaw_text flaw.now) }
{
    match flaw {
        Flaw::SerialAgain => text.extend_from_slice(b"serial again"),
        Flaw::NoByte(answer) => {
            add_unfair(text, answer)?;
            add_recorded(text, &RecordedReply::Refused(Refusal::Zero))
        }
        Flaw::StrangeRefusal(refusal) => {
            add_unfair(text, &RecordedReply::Refused(*refusal))?;
            text.extend_from_slice(b"object")
        }
        Flaw::Overlaps(serial, number) => {
            text.extend_from_slice(b"overlaps object ")?;
            add_decimal(text, u64::from(*serial))?;
            text.extend_from_slice(b", made at line ")?;
            add_decimal(text, u64::from(*number) + 2)
        }
        Flaw::NoOrder(unexplained) => add_unexplained(text, unexplained),
    }
}

/// Appends an answer that no order of effects explains, the object, and the answers that were possible.
fn add_unexplained(text: &mut Vec<u8>, unexplained: &Unexplained) -> Result<(), AllocError>
    ensures { OnOk result
        (text.new.items ≡ text.old.items
        ++ (answer_text unexplained.now.answer
        ++ (object_text unexplained.now.object ++ possible_text unexplained.now.possible))) }
{
    add_answer(text, &unexplained.answer)?;
    add_object(text, unexplained.object)?;
    add_possible(text, &unexplained.possible)
}

/// Appends the object of an access: its serial, its cell, and the line of its `new`.
fn add_object(text: &mut Vec<u8>, object: NewObject) -> Result<(), AllocError>
    ensures { OnOk result (text.new.items ≡ text.old.items ++ object_text object) }
{
    text.extend_from_slice(b" of object ")?;
    add_decimal(text, u64::from(object.serial))?;
    text.extend_from_slice(b" in cell ")?;
    add_decimal(text, u64::from(object.cell))?;
    text.extend_from_slice(b", made at line ")?;
    add_decimal(text, u64::from(object.number) + 2)
}

/// Appends the answers that were possible in place of one that no order of effects explains.
fn add_possible(text: &mut Vec<u8>, possible: &Possible) -> Result<(), AllocError>
    ensures { OnOk result (text.new.items ≡ text.old.items ++ possible_text possible.now) }
{
    match possible {
        Possible::Only(answer) => {
            text.extend_from_slice(b"; possible: ")?;
            add_recorded(text, answer)
        }
        Possible::Loads(loads) => {
            text.extend_from_slice(b"; possible if it took effect last: ")?;
            add_loads(text, loads)
        }
    }
}

/// Appends the text about an answer to a `new` that no order of effects explains, up to and including `possible: `.
fn add_unfair(text: &mut Vec<u8>, answer: &RecordedReply) -> Result<(), AllocError>
    ensures { OnOk result (text.new.items ≡ text.old.items ++ unfair_text answer.now) }
{
    add_answer(text, answer)?;
    text.extend_from_slice(b"; possible: ")
}

/// Appends an answer that no order of effects explains.
fn add_answer(text: &mut Vec<u8>, answer: &RecordedReply) -> Result<(), AllocError>
    ensures { OnOk result (text.new.items ≡ text.old.items ++ answer_text answer.now) }
{
    text.extend_from_slice(b"no order explains ")?;
    add_recorded(text, answer)
}

/// Appends the bytes that the load could return, one item for each possibility, and ` | ..` if there are more.
fn add_loads(text: &mut Vec<u8>, loads: &Loads) -> Result<(), AllocError>
    ensures { OnOk result (text.new.items ≡ text.old.items ++ loads_text loads.now) }
{
    add_least(text, loads.least.as_slice())?;
    if loads.are_more {
        return text.extend_from_slice(b" | ..");
    }
    Ok(())
}

/// Appends each item of `loads`, the bytes that a load could return. Items are separated by bars.
fn add_least(text: &mut Vec<u8>, loads: &[RecordedBytes]) -> Result<(), AllocError>
    ensures { OnOk result (text.new.items ≡ text.old.items ++ least_text loads.now) }
{
    let [first, later @ ..] = loads else {
        return Ok(());
    };
    add_load(text, first)?;
    add_later(text, later)
}

/// Appends each item of `later`, the bytes that a load could return, with a bar before each.
fn add_later(text: &mut Vec<u8>, later: &[RecordedBytes]) -> Result<(), AllocError>
    ensures { OnOk result (text.new.items ≡ text.old.items ++ flat_map later_text later.now) }
{
    for load in later {
        add_later_load(text, load)?;
    }
    Ok(())
}

/// Appends a bar, and the bytes that a load could return.
fn add_later_load(text: &mut Vec<u8>, load: &RecordedBytes) -> Result<(), AllocError>
    ensures { OnOk result (text.new.items ≡ text.old.items ++ later_text load.now) }
{
    text.extend_from_slice(b" | ")?;
    add_load(text, load)
}

/// Appends the bytes that a load could return.
fn add_load(text: &mut Vec<u8>, load: &RecordedBytes) -> Result<(), AllocError>
    ensures { OnOk result (text.new.items ≡ text.old.items ++ load_text load.now) }
{
    text.extend_from_slice(b"bytes ")?;
    add_bytes(text, load.as_slice())
}
