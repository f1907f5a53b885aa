//! Reads the answers of a recorded history. The fields of an answer are read from left to right.
ghost use Rattle.std.specs.Prelude.{◌≤◌, ℕ};
ghost use Rattle.text_fields.specs.Lines.{texts};
ghost use Rattle.text_words.specs.ReplyWords.{at_in, done_in, loaded_in, object_in, peeked_in, refused_in, reply_in};
ghost use Rattle.text_words.specs.RecordedWords.{IsReplyRead};

use crate::RecordedReply;
use crate::refusals::refusal_named;
use model_words::FaultKind;
use std::alloc::Global;
use text_fields::commands::wide;
use text_fields::faults::LineFault;
use text_fields::hex::{byte, bytes, wide_address};
use text_fields::lines::{is_word, no_field, one_field, three_fields, two_fields};

/// Returns the answer with this word and these fields. The fault is WORD if no answer has this word, or if the answer
/// has another number of fields. Otherwise the fault is that of the leftmost faulty field. A load has at most `most`
/// bytes. An allocation can fail only if `most` is above 32.
pub fn reply_of(
    alloc: Global,
    most: usize,
    word: &[u8],
    fields: &[&[u8]],
) -> Result<RecordedReply, LineFault>
    requires { most ≤ 4096 }
    ensures { IsReplyRead most (reply_in most word.now (texts fields.now)) result }
{
    if is_word(word, b"object") {
        object_of(fields)
    } else if is_word(word, b"done") {
        done_of(fields)
    } else if is_word(word, b"bytes") {
        loaded_of(alloc, most, fields)
    } else if is_word(word, b"at") {
        at_of(fields)
    } else if is_word(word, b"byte") {
        peeked_of(fields)
    } else if is_word(word, b"refused") {
        refused_of(fields)
    } else {
        Err(LineFault::Kind(FaultKind::Word))
    }
}

/// Reads the fields of `object SERIAL at ADDR`. The error is WORD if the field between serial and address isn't `at`.
fn object_of(fields: &[&[u8]]) -> Result<RecordedReply, LineFault>
    ensures { (most : ℕ) → IsReplyRead most (object_in (texts fields.now)) result }
{
    let (serial, at, address) = three_fields(fields)?;
    let serial = wide(serial)?;
    if !is_word(at, b"at") {
        return Err(LineFault::Kind(FaultKind::Word));
    }
    Ok(RecordedReply::Object(serial, wide_address(address)?))
}

/// Reads the fields of `done`: none.
fn done_of(fields: &[&[u8]]) -> Result<RecordedReply, LineFault>
    ensures { (most : ℕ) → IsReplyRead most (done_in (texts fields.now)) result }
{
    no_field(fields)?;
    Ok(RecordedReply::Done)
}

/// Reads the field of `bytes HEX`.
fn loaded_of(alloc: Global, most: usize, fields: &[&[u8]]) -> Result<RecordedReply, LineFault>
    requires { most ≤ 4096 }
    ensures { IsReplyRead most (loaded_in most (texts fields.now)) result }
{
    let loaded = one_field(fields)?;
    Ok(RecordedReply::Bytes(bytes(alloc, loaded, most)?))
}

/// Reads the field of `at ADDR`.
fn at_of(fields: &[&[u8]]) -> Result<RecordedReply, LineFault>
    ensures { (most : ℕ) → IsReplyRead most (at_in (texts fields.now)) result }
{
    Ok(RecordedReply::At(wide_address(one_field(fields)?)?))
}

/// Reads the field of `byte HH`.
fn peeked_of(fields: &[&[u8]]) -> Result<RecordedReply, LineFault>
    ensures { (most : ℕ) → IsReplyRead most (peeked_in (texts fields.now)) result }
{
    Ok(RecordedReply::Byte(byte(one_field(fields)?)?))
}

/// Reads the fields of `refused NUMBER NAME`.
fn refused_of(fields: &[&[u8]]) -> Result<RecordedReply, LineFault>
    ensures { (most : ℕ) → IsReplyRead most (refused_in (texts fields.now)) result }
{
    let (number, name) = two_fields(fields)?;
    Ok(RecordedReply::Refused(refusal_named(number, name)?))
}
