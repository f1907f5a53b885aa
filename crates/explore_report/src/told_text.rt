//! The text of the replies to all workers.
ghost use Rattle.std.specs.Prelude.{◌≡◌, ◌<◌, ◌++◌, ◌∷◌, Some, OnOk, length, slice_get};
ghost use Rattle.std.specs.List.{flat_map};
ghost use Rattle.explore_report.specs.ToldTexts.{next_text, replies_text, told_line, told_text};

use crate::outcome_text::add_numbered;
use explore_interleavings::Told;
use model_words::Reply;
use std::alloc::AllocError;
use text_words::add_reply;

/// Adds a line for each worker that has got a reply: ` worker W: ANSWER | ANSWER ..`.
pub fn add_told(text: &mut Vec<u8>, told: &[Told]) -> Result<(), AllocError>
    ensures { OnOk result (text.new.items ≡ text.old.items ++ told_text told.now) }
{
    for worker in 0..told.len() {
        add_line(text, worker as u64, told_at(told, worker))?;
    }
    Ok(())
}

/// Returns the replies to a worker.
fn told_at(told: &[Told], worker: usize) -> &[Reply]
    requires { worker < length told.now }
    ensures { slice_get told.now worker ≡ Some result.now }
{
    told[worker].replies()
}

/// Adds the line of a worker. Adds nothing if the worker has got no reply.
fn add_line(text: &mut Vec<u8>, worker: u64, replies: &[Reply]) -> Result<(), AllocError>
    ensures { OnOk result (text.new.items ≡ text.old.items ++ told_line worker replies.now) }
{
    match replies {
        [first, others @ ..] => {
            add_numbered(text, b"  worker", worker)?;
            text.extend_from_slice(b": ")?;
            add_replies(text, first, others)?;
            text.extend_from_slice(b"\n")
        }
        _ => Ok(()),
    }
}

/// Adds the text of the reply `first`, followed by the texts of the replies `others`.
fn add_replies(text: &mut Vec<u8>, first: &Reply, others: &[Reply]) -> Result<(), AllocError>
    ensures { OnOk result (text.new.items ≡ text.old.items ++ replies_text (first.now ∷ others.now)) }
{
    add_reply(text, first)?;
    add_others(text, others)
}

/// Adds the texts of replies, each after a separator.
fn add_others(text: &mut Vec<u8>, others: &[Reply]) -> Result<(), AllocError>
    ensures { OnOk result (text.new.items ≡ text.old.items ++ flat_map next_text others.now) }
{
    for reply in others {
        text.extend_from_slice(b" | ")?;
        add_reply(text, reply)?;
    }
    Ok(())
}
