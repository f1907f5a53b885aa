//! Reads the most frequent kinds of entries in one pass over the text. The functions return `None` for any other line,
//! which is then read field by field.
ghost use Rattle.std.specs.Prelude.{◌≡◌, ◌∷◌, ◌++◌, ◌≤◌, codes, decimal, IfSome};
ghost use Rattle.history_reading.specs.QuickEntries.{IsQuickEntry};

use crate::entries::MAX_WORKER;
use crate::{RecordedEntry, RecordedReply};
use text_fields::commands::{MAX_RECORDED_LENGTH, SpeltCommand};
use text_fields::quick::{behind_all, number, wide_address, word};

/// Returns the entry in the first line of the text, and the bytes after the line's end.
///
/// The entry must be a `new` that made an object, a `free` that was done or an `alias` that was done. Returns `None`
/// for any other entry, and if the line has a fault or no end. The caller then splits the line into fields.
pub fn quick_entry(text: &[u8]) -> Option<(RecordedEntry, &[u8])>
    ensures { IfSome result (λ read. IsQuickEntry text.now read.0 read.1.now) }
{
    let (worker, rest) = number(text, 0, MAX_WORKER, b' ')?;
    if let Some(fields) = behind_all(rest, b"new ") {
        return new_of(worker, fields);
    }
    if let Some(fields) = behind_all(rest, b"free ") {
        return free_of(worker, fields);
    }
    alias_of(worker, behind_all(rest, b"alias ")?)
}

/// Returns the 32-bit number at the start of the text, and the bytes after the number and the byte `end`. Returns
/// `None` if the text doesn't start with such a number and `end`.
#[inline]
fn wide(text: &[u8], end: u8) -> Option<(u32, &[u8])>
    ensures { IfSome result (λ read. text.now ≡ decimal read.0 ++ end ∷ read.1.now) }
{
    number(text, 0, u32::MAX, end)
}

/// Returns the length, up to 2^47, at the start of the text, and the bytes after the length and the byte `end`. Returns
/// `None` if the text doesn't start with such a length and `end`.
#[inline]
fn size(text: &[u8], end: u8) -> Option<(u64, &[u8])>
    ensures spelt { IfSome result (λ read. text.now ≡ decimal read.0 ++ end ∷ read.1.now) }
    ensures most { IfSome result (λ read. read.0 ≤ 140737488355328) }
{
    let (value, rest) = word(text, end)?;
    if value > MAX_RECORDED_LENGTH {
        return None;
    }
    Some((value, rest))
}

/// Returns the bytes after `-> done` and a line end. Returns `None` if the text doesn't start with both.
#[inline]
fn behind_done(text: &[u8]) -> Option<&[u8]>
    ensures { IfSome result (λ rest. text.now ≡ codes "-> done" ++ 10 ∷ rest.now) }
{
    behind_all(text, b"-> done\n")
}

/// Reads `CELL LEN WORD -> object SERIAL at ADDR` of a `new`. Returns `None` for any other text.
fn new_of(worker: u32, fields: &[u8]) -> Option<(RecordedEntry, &[u8])>
    requires { worker ≤ 65535 }
    ensures { IfSome result
        (λ read. IsQuickEntry (decimal worker ++ 32 ∷ (codes "new " ++ fields.now)) read.0 read.1.now) }
{
    let (cell, rest) = wide(fields, b' ')?;
    let (len, rest) = size(rest, b' ')?;
    let (word, rest) = word(rest, b' ')?;
    let (serial, rest) = wide(behind_all(rest, b"-> object ")?, b' ')?;
    let (address, rest) = wide_address(behind_all(rest, b"at ")?, b'\n')?;
    let entry = RecordedEntry {
        worker,
        command: SpeltCommand::New(cell, len, word),
        reply: RecordedReply::Object(serial, address),
    };
    Some((entry, rest))
}

/// Reads `CELL -> done` of a `free`. Returns `None` for any other text.
fn free_of(worker: u32, fields: &[u8]) -> Option<(RecordedEntry, &[u8])>
    requires { worker ≤ 65535 }
    ensures { IfSome result
        (λ read. IsQuickEntry (decimal worker ++ 32 ∷ (codes "free " ++ fields.now)) read.0 read.1.now) }
{
    let (of, rest) = wide(fields, b' ')?;
    let rest = behind_done(rest)?;
    let entry = RecordedEntry {
        worker,
        command: SpeltCommand::Free(of),
        reply: RecordedReply::Done,
    };
    Some((entry, rest))
}

/// Reads `TO FROM -> done` of an `alias`. Returns `None` for any other text.
fn alias_of(worker: u32, fields: &[u8]) -> Option<(RecordedEntry, &[u8])>
    requires { worker ≤ 65535 }
    ensures { IfSome result
        (λ read. IsQuickEntry (decimal worker ++ 32 ∷ (codes "alias " ++ fields.now)) read.0 read.1.now) }
{
    let (to, rest) = wide(fields, b' ')?;
    let (from, rest) = wide(rest, b' ')?;
    let rest = behind_done(rest)?;
    let entry = RecordedEntry {
        worker,
        command: SpeltCommand::Alias(to, from),
        reply: RecordedReply::Done,
    };
    Some((entry, rest))
}
