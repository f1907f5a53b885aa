//! Calls in an order, as the text of a recorded history.
ghost use Rattle.std.specs.Prelude.{◌≡◌, ◌<◌, ◌++◌, IfOk, OnOk, length};
ghost use Rattle.std.specs.List.{All};
ghost use Rattle.history_reading.specs.CallWords.{IsReadCall};
ghost use Rattle.text_words.specs.RecordedWords.{plain_entry};
ghost use Rattle.text_fields.specs.Commands.{plain_command};
ghost use Rattle.history_overlaps.specs.OrderTexts.{entry_line, ordered_text};
ghost use Rattle.text_words.specs.CommandTexts.{NamesObject};
ghost use Rattle.history_overlaps.specs.Orders.{calls_in_order};

use history_reading::{RecordedEntry, TimedCall};
use std::alloc::{AllocError, Global};
use text_words::{add_decimal, add_object_command, add_recorded};

/// Returns the history of the calls in the order of these numbers. The text has the line `history 1`, and then the line
/// `W COMMAND -> ANSWER` of each call. Each line has its end.
pub fn written_in_order(
    alloc: Global,
    calls: &[TimedCall],
    order: &[u32],
) -> Result<Vec<u8>, AllocError>
    requires read { All IsReadCall calls.now }
    requires places { All (λ number. number < length calls.now) order.now }
    ensures { IfOk result (λ text. text.items ≡ ordered_text (calls_in_order calls.now order.now)) }
{
    let mut text = Vec::new(alloc);
    text.extend_from_slice(b"history 1\n")?;
    for number in order {
        let call = &calls[*number as usize];
        add_entry(&mut text, &call.entry)?;
    }
    Ok(text)
}

/// Adds the line of a call.
fn add_entry(text: &mut Vec<u8>, entry: &RecordedEntry) -> Result<(), AllocError>
    requires { NamesObject (plain_command entry.now.command) }
    ensures { OnOk result (text.new.items ≡ text.old.items ++ entry_line (plain_entry entry.now)) }
{
    add_decimal(text, u64::from(entry.worker))?;
    text.extend_from_slice(b" ")?;
    add_object_command(text, &entry.command)?;
    text.extend_from_slice(b" -> ")?;
    add_recorded(text, &entry.reply)?;
    text.extend_from_slice(b"\n")
}
