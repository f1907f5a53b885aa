//! Reads the lines of a recorded history: the first line, and the lines of entries.
ghost use Rattle.std.specs.Prelude.{◌≡◌, IfOk, IfErr, IfSome, IsNone, Ok, Err, Some, None};
ghost use Rattle.text_fields.specs.Commands.{IsRecordable, plain_command};
ghost use Rattle.text_fields.specs.Fields.{IsUnread};
ghost use Rattle.text_fields.specs.Lines.{texts};
ghost use Rattle.history_reading.specs.HistoryFiles.{arrow_split, asked_in, entry_in, entry_of, head_in};
ghost use Rattle.text_words.specs.ReplyWords.{answer_in};
ghost use Rattle.text_words.specs.RecordedWords.{IsNarrow, IsSized, plain_entry, plain_reply};

use history_bytes::MOST_BYTES;
use model_words::FaultKind;
use std::alloc::Global;
use text_fields::commands::{Dialect, SpeltCommand, command_of};
use text_fields::faults::LineFault;
use text_fields::lines::{MAX_RECORDED_BYTES, check_bytes, fields_of, header, is_word};
use text_fields::numbers::number32;
use text_words::{RecordedEntry, RecordedReply, reply_of};

/// The only version of a recorded history.
const VERSION: u32 = 1;

/// The greatest number that a worker can have.
pub(crate) const MAX_WORKER: u32 = 65_535;

/// Reads the first line of a history, `history 1`, without its line end.
///
/// The error is the first of these that applies:
///
/// - LONG_LINE, if the line has more than 16,384 bytes.
/// - BYTE, if a byte isn't from 20 to 7e (hexadecimal).
/// - WORD, if the line isn't the word `history`, a space and one field that isn't empty.
/// - NUMBER, if this field isn't `1`.
pub fn read_head(line: &[u8]) -> Result<(), FaultKind>
    ensures { result ≡ head_in line.now }
{
    check_bytes(line, MAX_RECORDED_BYTES)?;
    let fields = fields_of(line)?;
    let [word, fields @ ..] = fields.as_slice() else {
        return Err(FaultKind::Word);
    };
    header(*word, fields, b"history", VERSION, VERSION)?;
    Ok(())
}

/// Reads the line of an entry, `W COMMAND -> ANSWER`, without its line end.
///
/// The error is the first of these that applies:
///
/// - LONG_LINE, if the line has more than 16,384 bytes.
/// - BYTE, if a byte isn't from 20 to 7e (hexadecimal).
/// - WORD, if a field is empty, if there are more than 35 fields, or if no field is `->`.
///
/// Otherwise the error is that of the leftmost fault:
///
/// - WORD, if fewer than two fields are before `->`, or no field is after it.
/// - WORD, if a word is unknown, or has a wrong number of fields.
/// - NUMBER, if a number or an address is misspelt or out of its range.
/// - HEX, if bytes are misspelt or have a wrong length.
/// - WORD, if another field replaces `at` or the name of a refusal.
pub fn read_entry(alloc: Global, line: &[u8]) -> Result<RecordedEntry, LineFault>
    ensures ok { IfOk result (λ entry. entry_in line.now ≡ Ok (plain_entry entry)) }
    ensures err { IfErr result (IsUnread 4096 (entry_in line.now)) }
    ensures in_range { IfOk result (λ entry. IsRecordable (plain_command entry.command)) }
    ensures sized { IfOk result (λ entry. IsSized (plain_command entry.command)) }
    ensures narrow { IfOk result (λ entry. IsNarrow entry.reply) }
{
    check_bytes(line, MAX_RECORDED_BYTES)?;
    let fields = fields_of(line)?;
    let (before, behind) = arrow_split(fields.as_slice()).ok_or(FaultKind::Word)?;
    entry_of(alloc, before, behind)
}

/// Returns the fields before the first field `->`, and the fields after it. Returns `None` if no field is `->`.
pub fn arrow_split<'a, 'b>(fields: &'b [&'a [u8]]) -> Option<(&'b [&'a [u8]], &'b [&'a [u8]])>
    ensures some { IfSome result
        (λ parts. arrow_split (texts fields.now) ≡ Some (texts parts.0.now, texts parts.1.now)) }
    ensures none { IsNone result → arrow_split (texts fields.now) ≡ None }
{
    let place = fields.iter().position(|field| is_word(*field, b"->"))?;
    Some((&fields[..place], &fields[place + 1..]))
}

/// Returns the entry whose line has the fields `before` in front of `->` and the fields `behind` after it. The error is
/// that of the leftmost fault.
fn entry_of(alloc: Global, before: &[&[u8]], behind: &[&[u8]]) -> Result<RecordedEntry, LineFault>
    ensures ok { IfOk result (λ entry. entry_of (texts before.now) (texts behind.now) ≡ Ok (plain_entry entry)) }
    ensures err { IfErr result (IsUnread 4096 (entry_of (texts before.now) (texts behind.now))) }
    ensures in_range { IfOk result (λ entry. IsRecordable (plain_command entry.command)) }
    ensures sized { IfOk result (λ entry. IsSized (plain_command entry.command)) }
    ensures narrow { IfOk result (λ entry. IsNarrow entry.reply) }
{
    let (worker, command) = asked_of(alloc, before)?;
    let reply = answer_of(alloc, behind)?;
    Ok(RecordedEntry {
        worker,
        command,
        reply,
    })
}

/// Reads `W COMMAND`: a worker and its command.
fn asked_of(alloc: Global, fields: &[&[u8]]) -> Result<(u32, SpeltCommand), LineFault>
    ensures ok { IfOk result (λ asked. asked_in (texts fields.now) ≡ Ok (asked.0, plain_command asked.1)) }
    ensures err { IfErr result (IsUnread 4096 (asked_in (texts fields.now))) }
    ensures in_range { IfOk result (λ asked. IsRecordable (plain_command asked.1)) }
    ensures sized { IfOk result (λ asked. IsSized (plain_command asked.1)) }
{
    let [worker, word, fields @ ..] = fields else {
        return Err(LineFault::Kind(FaultKind::Word));
    };
    let worker = number32(*worker, 0, MAX_WORKER)?;
    let command = command_of(alloc, Dialect::History, *word, fields)?;
    Ok((worker, command))
}

/// Reads the answer of an entry.
fn answer_of(alloc: Global, fields: &[&[u8]]) -> Result<RecordedReply, LineFault>
    ensures ok { IfOk result (λ reply. answer_in 4096 (texts fields.now) ≡ Ok (plain_reply reply)) }
    ensures err { IfErr result (IsUnread 4096 (answer_in 4096 (texts fields.now))) }
    ensures narrow { IfOk result IsNarrow }
{
    let [word, fields @ ..] = fields else {
        return Err(LineFault::Kind(FaultKind::Word));
    };
    reply_of(alloc, MOST_BYTES, *word, fields)
}
