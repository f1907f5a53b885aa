//! Reads the lines of a history of overlapping calls: the first line, and the lines of calls.
ghost use Rattle.std.specs.Prelude.{◌≡◌, ◌⊎◌, ◌<◌, ◌++◌, ◌∷◌, [], Ok, Err, Some, None, true, false, length, IfOk, IfErr, IfSome, IsNone, OnOk, OnErr};
ghost use Rattle.std.specs.List.{list_any};
ghost use Rattle.model_jobs.specs.JobFiles.{is_empty};
ghost use Rattle.history_reading.specs.CallFiles.{call_head_in, call_in, call_of, effect_in, has_effect, is_pending, pending_call, unknown_reply};
ghost use Rattle.history_reading.specs.CallWords.{IsCallRead, IsReadCall, plain_call};
ghost use Rattle.text_fields.specs.Commands.{plain_command};
ghost use Rattle.text_fields.specs.Fields.{IsUnread};
ghost use Rattle.text_fields.specs.Lines.{line_fields, texts};
ghost use Rattle.history_reading.specs.HistoryFiles.{arrow_split};
ghost use Rattle.text_words.specs.RecordedWords.{IsNarrow, IsReplyRead, plain_reply};

use crate::TimedCall;
use crate::asked::{call_asked_of, is_pending_mark};
use crate::entries::arrow_split;
use history_bytes::{MOST_BYTES, RecordedBytes};
use model_words::{FaultKind, Refusal};
use std::alloc::Global;
use text_fields::commands::SpeltCommand;
use text_fields::faults::LineFault;
use text_fields::lines::{MAX_RECORDED_BYTES, check_bytes, fields_of, fields_up_to, header};
use text_words::{RecordedEntry, RecordedReply, reply_of};

/// The version of a history of overlapping calls.
const VERSION: u32 = 2;

/// The greatest number of fields of a call's line.
const MAX_CALL_FIELDS: usize = 37;

/// Reads the first line of a history of overlapping calls, `history 2`, without its line end.
///
/// The error is the first of these that applies:
///
/// - LONG_LINE, if the line has more than 16,384 bytes.
/// - BYTE, if a byte isn't from 20 to 7e (hexadecimal).
/// - WORD, if the line isn't the word `history`, a space and one field that isn't empty.
/// - NUMBER, if this field isn't `2`.
pub fn read_call_head(line: &[u8]) -> Result<(), FaultKind>
    ensures { result ≡ call_head_in line.now }
{
    check_bytes(line, MAX_RECORDED_BYTES)?;
    let fields = fields_of(line)?;
    let [word, fields @ ..] = fields.as_slice() else {
        return Err(FaultKind::Word);
    };
    header(*word, fields, b"history", VERSION, VERSION)?;
    Ok(())
}

/// Reads the line of a call, without its line end: `W BEGIN END COMMAND -> ANSWER`, or `W BEGIN - COMMAND` if the call
/// was pending when the recording stopped.
///
/// The error is the first of these that applies:
///
/// - LONG_LINE, if the line has more than 16,384 bytes.
/// - BYTE, if a byte isn't from 20 to 7e (hexadecimal).
/// - WORD, if a field is empty, if there are more than 37 fields, or if no field is `->` and the third
///   field isn't `-`.
///
/// Otherwise the error is that of the leftmost fault, as in `history 1`. Two faults are added. The error is NUMBER if
/// END is below BEGIN. It is WORD if the command doesn't name one object by its cell, or if the command can't have the
/// answer. Only a `new` may be refused. A pending call has no `->` and no answer, which count as fields of its command.
pub fn read_call(alloc: Global, line: &[u8]) -> Result<TimedCall, LineFault>
    ensures ok { IfOk result (λ call. call_in line.now ≡ Ok (plain_call call)) }
    ensures err { IfErr result (IsUnread 4096 (call_in line.now)) }
    ensures read { IfOk result IsReadCall }
{
    check_bytes(line, MAX_RECORDED_BYTES)?;
    let fields = fields_up_to::<MAX_CALL_FIELDS>(line)?;
    if is_pending(fields.as_slice()) {
        return pending_call_of(alloc, fields.as_slice());
    }
    let (before, behind) = arrow_split(fields.as_slice()).ok_or(FaultKind::Word)?;
    call_of(alloc, before, behind)
}

/// Whether these are the fields of a call that was pending when the recording stopped: the third is `-`.
fn is_pending(fields: &[&[u8]]) -> bool
    ensures { result ≡ is_pending (texts fields.now) }
{
    match fields {
        [_, _, end, ..] => is_pending_mark(*end),
        _ => false,
    }
}

/// Reads a call that was pending when the recording stopped. The error is that of the leftmost fault.
fn pending_call_of(alloc: Global, fields: &[&[u8]]) -> Result<TimedCall, LineFault>
    ensures { IsCallRead (pending_call (texts fields.now)) result }
{
    let asked = call_asked_of(alloc, fields)?;
    let reply = unknown_reply(alloc, &asked.command);
    Ok(TimedCall {
        begin: asked.begin,
        end: asked.end,
        entry: RecordedEntry {
            worker: asked.worker,
            command: asked.command,
            reply,
        },
    })
}

/// A stand-in for the unknown answer of a pending call.
fn unknown_reply(alloc: Global, command: &SpeltCommand) -> RecordedReply
    ensures reply { plain_reply result ≡ unknown_reply (plain_command command.now) }
    ensures narrow { IsNarrow result }
{
    match command {
        SpeltCommand::New(..) => RecordedReply::Refused(Refusal::NoPages),
        SpeltCommand::Get(..) => RecordedReply::Bytes(RecordedBytes::new(alloc)),
        SpeltCommand::Addr(_) => RecordedReply::At(0),
        _ => RecordedReply::Done,
    }
}

/// Reads the call whose line has the fields `before` in front of `->` and the fields `behind` after it. The error is
/// that of the leftmost fault.
fn call_of(alloc: Global, before: &[&[u8]], behind: &[&[u8]]) -> Result<TimedCall, LineFault>
    ensures { IsCallRead (call_of (texts before.now) (texts behind.now)) result }
{
    let asked = call_asked_of(alloc, before)?;
    let reply = effect_of(alloc, &asked.command, behind)?;
    Ok(TimedCall {
        begin: asked.begin,
        end: asked.end,
        entry: RecordedEntry {
            worker: asked.worker,
            command: asked.command,
            reply,
        },
    })
}

/// Reads the answer to a command. The error is WORD if the answer is missing, or if the command can't have this answer.
/// For a misspelt answer, it is the error of `reply_of`.
fn effect_of(
    alloc: Global,
    command: &SpeltCommand,
    fields: &[&[u8]],
) -> Result<RecordedReply, LineFault>
    ensures read { IsReplyRead 4096 (effect_in (plain_command command.now) (texts fields.now)) result }
    ensures effect { IfOk result (λ reply. has_effect (plain_command command.now) (plain_reply reply) ≡ true) }
{
    let [word, fields @ ..] = fields else {
        return Err(LineFault::Kind(FaultKind::Word));
    };
    let reply = reply_of(alloc, MOST_BYTES, *word, fields)?;
    if !has_effect(command, &reply) {
        return Err(LineFault::Kind(FaultKind::Word));
    }
    Ok(reply)
}

/// Whether the command can have this answer. If it can, the answer shows the command's effect.
fn has_effect(command: &SpeltCommand, reply: &RecordedReply) -> bool
    ensures { result ≡ has_effect (plain_command command.now) (plain_reply reply.now) }
{
    match command {
        SpeltCommand::New(..) => matches!(
            reply,
            RecordedReply::Object(..) | RecordedReply::Refused(_)
        ),
        SpeltCommand::Put(..) | SpeltCommand::Free(_) => matches!(reply, RecordedReply::Done),
        SpeltCommand::Get(..) => matches!(reply, RecordedReply::Bytes(_)),
        SpeltCommand::Addr(_) => matches!(reply, RecordedReply::At(_)),
        _ => false,
    }
}
