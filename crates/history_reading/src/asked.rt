//! Reads `W BEGIN END COMMAND`: a worker's command, and the times at which its call began and ended.
ghost use Rattle.std.specs.Prelude.{◌≡◌, IfErr, IfOk, Err, Ok};
ghost use Rattle.history_reading.specs.CallFiles.{call_asked_in, end_in, is_object_word, is_pending_mark, object_command_in};
ghost use Rattle.history_reading.specs.CallWords.{IsAskedRead, IsReadEnd};
ghost use Rattle.text_fields.specs.Commands.{IsReadAs};
ghost use Rattle.text_fields.specs.Lines.{texts};
ghost use Rattle.text_fields.specs.declared.commands.Dialect.{Dialect};

use crate::NEVER;
use model_words::FaultKind;
use std::alloc::Global;
use text_fields::commands::{Dialect, SpeltCommand, command_of};
use text_fields::faults::LineFault;
use text_fields::lines::is_word;
use text_fields::numbers::{number, number32};

/// The greatest number that a worker can have.
const MAX_WORKER: u32 = 65_535;

/// A worker's command, and the times at which its call began and ended.
#[derive(Drop)]
pub(crate) struct AskedCall {
    pub worker: u32,
    pub begin: u64,
    pub end: u128,
    pub command: SpeltCommand,
}

/// Reads the fields of a call's line before `->`, or all fields of a pending call's line.
///
/// The error is WORD if the worker, the start, the end or the word of the command is missing. Otherwise it is that of
/// the leftmost fault.
pub(crate) fn call_asked_of(alloc: Global, fields: &[&[u8]]) -> Result<AskedCall, LineFault>
    ensures { IsAskedRead (call_asked_in (texts fields.now)) result }
{
    let [worker, begin, end, word, fields @ ..] = fields else {
        return Err(LineFault::Kind(FaultKind::Word));
    };
    let worker = number32(*worker, 0, MAX_WORKER)?;
    let begin = number(*begin, 0, u64::MAX)?;
    let end = end_of(*end, begin)?;
    let command = object_command_of(alloc, *word, fields)?;
    Ok(AskedCall {
        worker,
        begin,
        end,
        command,
    })
}

/// Reads the end of a call that began at `begin`. It is `NEVER` if the field is `-`. The error is NUMBER if the field
/// is neither `-` nor a number that is at least `begin`.
fn end_of(field: &[u8], begin: u64) -> Result<u128, FaultKind>
    ensures ok { IfOk result (IsReadEnd begin field.now) }
    ensures err { IfErr result (λ kind. end_in begin field.now ≡ Err kind) }
{
    if is_pending_mark(field) {
        return Ok(NEVER);
    }
    let end = number(field, begin, u64::MAX)?;
    Ok(u128::from(end))
}

/// Whether the field, in the place of an end, marks a call that was pending when the recording stopped.
pub(crate) fn is_pending_mark(field: &[u8]) -> bool
    ensures { result ≡ is_pending_mark field.now }
{
    is_word(field, b"-")
}

/// Reads the command with this word and these fields. The error is WORD if the command doesn't name one object by its
/// cell. Otherwise it is that of the leftmost fault.
fn object_command_of(
    alloc: Global,
    word: &[u8],
    fields: &[&[u8]],
) -> Result<SpeltCommand, LineFault>
    ensures { IsReadAs Dialect.History (object_command_in word.now (texts fields.now)) result }
{
    if !is_object_word(word) {
        return Err(LineFault::Kind(FaultKind::Word));
    }
    command_of(alloc, Dialect::History, word, fields)
}

/// Whether this is the word of a command that names one object by its cell.
fn is_object_word(word: &[u8]) -> bool
    ensures { result ≡ is_object_word word.now }
{
    is_word(word, b"new")
        || is_word(word, b"put")
        || is_word(word, b"get")
        || is_word(word, b"free")
        || is_word(word, b"addr")
}
