//! The frequent forms of lines in job files, each read in one pass over the text.
//!
//! Each function also returns the bytes after the line end. A function returns `None` if the line isn't of its kind, or
//! is unusual in any way. The line is then read field by field.
ghost use Rattle.std.specs.Prelude.{◌≡◌, ◌∷◌, ◌++◌, ◌≤◌, ℕ, codes, decimal, IfSome, IsSome};
ghost use Rattle.model_words.specs.Classes.{row_of};
ghost use Rattle.model_words.specs.declared.versions.Version.{Version};
ghost use Rattle.model_words.specs.declared.versions.Version.TheVariants.{Two as FileTwo};
ghost use Rattle.text_job.specs.Quick.{IsQuickCommand, IsQuickLine};

use crate::PlanLine;
use crate::plan_lines::is_class;
use mesh_class::{Class, class_of};
use model_words::{Command, Version};
use text_fields::quick::{address, behind, byte, bytes, cell, number, word};

/// The greatest length of a `new`, and the greatest offset of a `put` or a `get`.
const MAX_LENGTH: u32 = 65_535;

/// Reads the first line of the text as a command, and returns the command and the text after the line end.
///
/// Returns `None` if the line has no line end, has a fault, or has an unusual form. The caller then splits the line
/// into fields.
pub fn quick_command(text: &[u8]) -> Option<(Command, &[u8])>
    ensures { IfSome result (λ read. IsQuickCommand text.now read.0 read.1.now) }
{
    match text {
        [b'n', b'e', b'w', b' ', fields @ ..] => new_of(fields),
        [b'p', b'u', b't', b' ', fields @ ..] => put_of(fields),
        [b'g', b'e', b't', b' ', fields @ ..] => get_of(fields),
        _ => cells_command(text),
    }
}

/// Does the same as `quick_command`, for a command that has only cells as fields, and for a command on an address.
#[inline]
fn cells_command(text: &[u8]) -> Option<(Command, &[u8])>
    ensures { IfSome result (λ read. IsQuickCommand text.now read.0 read.1.now) }
{
    match text {
        [b'f', b'r', b'e', b'e', b' ', fields @ ..] => free_of(fields),
        [b'a', b'l', b'i', b'a', b's', b' ', fields @ ..] => alias_of(fields),
        [b'a', b'd', b'd', b'r', b' ', fields @ ..] => addr_of(fields),
        _ => address_command(text),
    }
}

/// Does the same as `quick_command`, for a command whose first field is an address.
#[inline]
fn address_command(text: &[u8]) -> Option<(Command, &[u8])>
    ensures { IfSome result (λ read. IsQuickCommand text.now read.0 read.1.now) }
{
    match text {
        [b'p', b'e', b'e', b'k', b' ', fields @ ..] => peek_of(fields),
        [b'p', b'o', b'k', b'e', b' ', fields @ ..] => poke_of(fields),
        _ => None,
    }
}

/// Reads `CELL SIZE ` with both spaces: a root cell, and a length or an offset. Returns the cell, the size and the
/// remaining bytes.
#[inline]
fn cell_and_size(fields: &[u8]) -> Option<(u8, u32, &[u8])>
    ensures spelt { IfSome result (λ read. fields.now ≡ decimal read.0 ++ 32 ∷ decimal read.1 ++ 32 ∷ read.2.now) }
    ensures most { IfSome result (λ read. read.1 ≤ 65535) }
{
    let (cell, rest) = cell(fields, b' ')?;
    let (size, rest) = number(rest, 0, MAX_LENGTH, b' ')?;
    Some((cell, size, rest))
}

/// Reads `CELL LEN WORD` of a `new`.
fn new_of(fields: &[u8]) -> Option<(Command, &[u8])>
    ensures { IfSome result (λ read. IsQuickCommand (codes "new" ++ 32 ∷ fields.now) read.0 read.1.now) }
{
    let (to, len, rest) = cell_and_size(fields)?;
    let (word, rest) = word(rest, b'\n')?;
    Some((Command::New(to, len, word), rest))
}

/// Reads `CELL OFF HEX` of a `put`.
fn put_of(fields: &[u8]) -> Option<(Command, &[u8])>
    ensures { IfSome result (λ read. IsQuickCommand (codes "put" ++ 32 ∷ fields.now) read.0 read.1.now) }
{
    let (of, off, rest) = cell_and_size(fields)?;
    let (stored, rest) = bytes(rest, b'\n')?;
    Some((Command::Put(of, off, stored), rest))
}

/// Reads `CELL OFF LEN` of a `get`.
fn get_of(fields: &[u8]) -> Option<(Command, &[u8])>
    ensures { IfSome result (λ read. IsQuickCommand (codes "get" ++ 32 ∷ fields.now) read.0 read.1.now) }
{
    let (of, off, rest) = cell_and_size(fields)?;
    let (len, rest) = number(rest, 1, 32, b'\n')?;
    Some((Command::Get(of, off, len), rest))
}

/// Reads `CELL` of a `free`.
fn free_of(fields: &[u8]) -> Option<(Command, &[u8])>
    ensures { IfSome result (λ read. IsQuickCommand (codes "free" ++ 32 ∷ fields.now) read.0 read.1.now) }
{
    let (of, rest) = cell(fields, b'\n')?;
    Some((Command::Free(of), rest))
}

/// Reads `CELL FROM` of an `alias`.
fn alias_of(fields: &[u8]) -> Option<(Command, &[u8])>
    ensures { IfSome result (λ read. IsQuickCommand (codes "alias" ++ 32 ∷ fields.now) read.0 read.1.now) }
{
    let (to, rest) = cell(fields, b' ')?;
    let (from, rest) = cell(rest, b'\n')?;
    Some((Command::Alias(to, from), rest))
}

/// Reads `CELL` of an `addr`.
fn addr_of(fields: &[u8]) -> Option<(Command, &[u8])>
    ensures { IfSome result (λ read. IsQuickCommand (codes "addr" ++ 32 ∷ fields.now) read.0 read.1.now) }
{
    let (at, rest) = cell(fields, b'\n')?;
    Some((Command::Addr(at), rest))
}

/// Reads `ADDR` of a `peek`.
fn peek_of(fields: &[u8]) -> Option<(Command, &[u8])>
    ensures { IfSome result (λ read. IsQuickCommand (codes "peek" ++ 32 ∷ fields.now) read.0 read.1.now) }
{
    let (at, rest) = address(fields, b'\n')?;
    Some((Command::Peek(at), rest))
}

/// Reads `ADDR BYTE` of a `poke`.
fn poke_of(fields: &[u8]) -> Option<(Command, &[u8])>
    ensures { IfSome result (λ read. IsQuickCommand (codes "poke" ++ 32 ∷ fields.now) read.0 read.1.now) }
{
    let (at, rest) = address(fields, b' ')?;
    let (stored, rest) = byte(rest, b'\n')?;
    Some((Command::Poke(at, stored), rest))
}

/// Reads the first line of the text as a line of a plan, in a job of `workers` workers. Returns the line and the text
/// after the line end. Returns `None` if the line has no line end, has a fault, or has an unusual form.
pub fn quick_line(text: &[u8], version: Version, workers: u32) -> Option<(PlanLine, &[u8])>
    requires { 1 ≤ workers }
    ensures { IfSome result (λ read. IsQuickLine version workers text.now read.0 read.1.now) }
{
    match text {
        [b'r', b'u', b'n', b' ', fields @ ..] => run_of(fields, workers),
        [b's', b't', b'e', b'p', fields @ ..] => step_of(fields, version),
        _ => None,
    }
}

/// Reads `WORKER` of a `run`.
#[inline]
fn run_of(fields: &[u8], workers: u32) -> Option<(PlanLine, &[u8])>
    requires { 1 ≤ workers }
    ensures { IfSome result
        (λ read. (version : Version) → IsQuickLine version workers (codes "run" ++ 32 ∷ fields.now) read.0 read.1.now) }
{
    let (worker, rest) = number(fields, 0, workers - 1, b'\n')?;
    Some((PlanLine::Run(worker), rest))
}

/// Reads the rest of a line after `step`: nothing in version 1, and the size of a class in version 2.
fn step_of(fields: &[u8], version: Version) -> Option<(PlanLine, &[u8])>
    ensures { IfSome result
        (λ read. (workers : ℕ) → IsQuickLine version workers (codes "step" ++ fields.now) read.0 read.1.now) }
{
    match version {
        Version::One => {
            let rest = behind(fields, b'\n')?;
            Some((PlanLine::Step, rest))
        }
        Version::Two => class_step_of(behind(fields, b' ')?),
    }
}

/// Reads `CLASS` of a `step`.
#[inline]
fn class_step_of(fields: &[u8]) -> Option<(PlanLine, &[u8])>
    ensures { IfSome result
        (λ read. (workers : ℕ) → IsQuickLine FileTwo workers (codes "step" ++ 32 ∷ fields.now) read.0 read.1.now) }
{
    let Some((class, rest)) = class(fields) else {
        return None;
    };
    Some((PlanLine::StepClass(class), rest))
}

/// Reads the size of a class and the line end after it. Returns the class and the remaining bytes.
fn class(text: &[u8]) -> Option<(Class, &[u8])>
    ensures spelt { IfSome result (λ read. text.now ≡ decimal read.0 ++ 10 ∷ read.1.now) }
    ensures row { IfSome result (λ read. IsSome (row_of read.0)) }
{
    let (size, rest) = number(text, 16, 2048, b'\n')?;
    let class = class_sized(size)?;
    Some((class, rest))
}

/// Returns the class with this size. Returns `None` if no class has this size.
#[inline]
fn class_sized(size: u32) -> Option<Class>
    ensures size { IfSome result (λ class. class ≡ size) }
    ensures row { IfSome result (λ class. IsSome (row_of class)) }
{
    if is_class(u64::from(size)) {
        class_of(size).ok()
    } else {
        None
    }
}
