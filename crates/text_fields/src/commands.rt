//! The commands of lines, in job files and in recorded histories: the fields of each command, from left to right.
ghost use Rattle.std.specs.Prelude.{◌≡◌, ◌≤◌, IfOk};
ghost use Rattle.model_jobs.specs.JobFiles.{addr_in, alias_in, copy_in, count_in, free_in, get_in, new_in, peek_in, poke_in, put_in, ruled_command_in};
ghost use Rattle.text_fields.specs.Commands.{IsReadAs, most_bytes, most_cell, most_place, most_size, rules_of, wide_in};
ghost use Rattle.text_fields.specs.Lines.{texts};

use crate::faults::LineFault;
use crate::hex::{address, byte, bytes, wide_address};
use crate::lines::{five_fields, is_word, one_field, three_fields, two_fields};
use crate::numbers::{number, number32};
use history_bytes::{MOST_BYTES, RecordedBytes};
use model_words::{FaultKind, MAX_BYTES, Version};
use std::alloc::Global;

/// The greatest cell of a job.
const MAX_CELL: u32 = 255;

/// The greatest length of a `new` in a job file, and the greatest offset of any other command there.
const MAX_LENGTH: u64 = 65_535;

/// The greatest length and offset in a recorded history: 2^47.
pub const MAX_RECORDED_LENGTH: u64 = 140_737_488_355_328;

/// The kind of text that contains a command's line. The kind determines the ranges of the line's numbers.
#[derive(Clone, Copy)]
pub enum Dialect {
    /// A job file of this version: cells up to 255, lengths and offsets up to 65,535, and addresses up to 0xfffffff.
    /// `copy` is allowed only in version 2.
    Job(Version),
    /// A recorded history: cells of 32 bits, lengths and offsets up to 2^47, addresses of 48 bits. A command stores,
    /// loads or copies up to 4,096 bytes, where those of a job have up to 32.
    History,
}

/// The command of a line, with numbers wide enough for each kind of text.
///
/// A length or an offset is at most 2^47. An offset counts bytes from the object's start. `Put`, `Get` and `Copy`
/// store, load or copy at least one byte, and at most 32 in a job or 4,096 in a history. An address has at most 48
/// bits.
#[derive(Drop)]
pub enum SpeltCommand {
    /// `New(cell, len, word)`: make an object of `len` zero bytes, and store its reference in `cell`.
    New(u32, u64, u64),
    /// `Put(cell, off, bytes)`: store the bytes at offset `off` of the object that `cell` names.
    Put(u32, u64, RecordedBytes),
    /// `Get(cell, off, len)`: load `len` bytes from offset `off` of the object that `cell` names.
    Get(u32, u64, u32),
    /// `Free(cell)`: free the object that `cell` names. The cell keeps its reference, which is stale afterwards.
    Free(u32),
    /// `Alias(to, from)`: store in `to` the reference that `from` holds.
    Alias(u32, u32),
    /// `Addr(cell)`: return the address of the object that `cell` names.
    Addr(u32),
    /// `Peek(addr)`: load the byte at address `addr`.
    Peek(u64),
    /// `Poke(addr, byte)`: store `byte` at address `addr`.
    Poke(u64, u8),
    /// `Copy(to, to_off, from, from_off, len)`: copy `len` bytes from offset `from_off` of the object that `from` names
    /// to offset `to_off` of the object that `to` names. The two ranges may overlap: all bytes are read before any is
    /// written.
    Copy(u32, u64, u32, u64, u32),
}

/// Returns the command of a line with this word and these fields.
///
/// The error is WORD if this kind of text has no command with this word, or if the number of fields is wrong. Otherwise
/// the leftmost field with a fault determines the error. It is NUMBER if a number or an address is misspelt or out of
/// its range, and HEX if bytes are misspelt or have a wrong length. An allocation can fail only for a `put` of a
/// history.
pub fn command_of(
    alloc: Global,
    dialect: Dialect,
    word: &[u8],
    fields: &[&[u8]],
) -> Result<SpeltCommand, LineFault>
    ensures { IsReadAs dialect (ruled_command_in (rules_of dialect) word.now (texts fields.now)) result }
{
    if is_word(word, b"new") {
        dialect.new_of(fields)
    } else if is_word(word, b"put") {
        dialect.put_of(alloc, fields)
    } else if is_word(word, b"get") {
        dialect.get_of(fields)
    } else if is_word(word, b"free") {
        dialect.free_of(fields)
    } else if is_word(word, b"alias") {
        dialect.alias_of(fields)
    } else if is_word(word, b"addr") {
        dialect.addr_of(fields)
    } else if is_word(word, b"peek") {
        dialect.peek_of(fields)
    } else if is_word(word, b"poke") {
        dialect.poke_of(fields)
    } else if is_word(word, b"copy") && dialect.has_copy() {
        dialect.copy_of(fields)
    } else {
        Err(LineFault::Kind(FaultKind::Word))
    }
}

/// Reads a cell or a serial of a recorded history: a decimal number of at most 32 bits. The error is NUMBER if the
/// field isn't such a number.
pub fn wide(field: &[u8]) -> Result<u32, FaultKind>
    ensures { result ≡ wide_in field.now }
{
    number32(field, 0, u32::MAX)
}

impl Dialect {
    /// Whether this kind of text has the command `copy`.
    fn has_copy(self) -> bool
        ensures { result ≡ (rules_of self).has_copy }
    {
        match self {
            Dialect::Job(Version::One) => false,
            Dialect::Job(Version::Two) | Dialect::History => true,
        }
    }

    /// The greatest number of bytes that a command of this kind of text stores, loads or copies.
    fn most_bytes(self) -> usize
        ensures { result ≡ most_bytes self }
    {
        match self {
            Dialect::Job(_) => MAX_BYTES,
            Dialect::History => MOST_BYTES,
        }
    }

    /// Reads the number of bytes that a command loads or copies. The error is NUMBER if the field isn't a number of
    /// bytes that this kind of text allows.
    fn count(self, field: &[u8]) -> Result<u32, FaultKind>
        ensures value { result ≡ count_in (rules_of self).most field.now }
        ensures some { IfOk result (λ count. 1 ≤ count) }
        ensures most { IfOk result (λ count. count ≤ most_bytes self) }
    {
        number32(field, 1, self.most_bytes() as u32)
    }

    /// Reads a root cell. The error is NUMBER if the field isn't a cell that this kind of text allows.
    fn cell(self, field: &[u8]) -> Result<u32, FaultKind>
        ensures value { result ≡ (rules_of self).cell field.now }
        ensures most { IfOk result (λ cell. cell ≤ most_cell self) }
    {
        match self {
            Dialect::Job(_) => number32(field, 0, MAX_CELL),
            Dialect::History => wide(field),
        }
    }

    /// Reads a length or an offset. The error is NUMBER if the field isn't a length or an offset that this kind of text
    /// allows.
    fn size(self, field: &[u8]) -> Result<u64, FaultKind>
        ensures value { result ≡ (rules_of self).size field.now }
        ensures most { IfOk result (λ size. size ≤ most_size self) }
    {
        match self {
            Dialect::Job(_) => number(field, 0, MAX_LENGTH),
            Dialect::History => number(field, 0, MAX_RECORDED_LENGTH),
        }
    }

    /// Reads an address. The error is NUMBER if the field isn't an address that this kind of text allows.
    fn place(self, field: &[u8]) -> Result<u64, FaultKind>
        ensures value { result ≡ (rules_of self).place field.now }
        ensures most { IfOk result (λ place. place ≤ most_place self) }
    {
        match self {
            Dialect::Job(_) => address(field),
            Dialect::History => wide_address(field),
        }
    }

    /// `new CELL LEN WORD`
    fn new_of(self, fields: &[&[u8]]) -> Result<SpeltCommand, LineFault>
        ensures { IsReadAs self (new_in (rules_of self) (texts fields.now)) result }
    {
        let (to, len, word) = three_fields(fields)?;
        Ok(SpeltCommand::New(self.cell(to)?, self.size(len)?, number(word, 0, u64::MAX)?))
    }

    /// `put CELL OFF HEX`
    fn put_of(self, alloc: Global, fields: &[&[u8]]) -> Result<SpeltCommand, LineFault>
        ensures { IsReadAs self (put_in (rules_of self) (texts fields.now)) result }
    {
        let (of, off, stored) = three_fields(fields)?;
        let (of, off) = (self.cell(of)?, self.size(off)?);
        Ok(SpeltCommand::Put(of, off, bytes(alloc, stored, self.most_bytes())?))
    }

    /// `get CELL OFF LEN`
    fn get_of(self, fields: &[&[u8]]) -> Result<SpeltCommand, LineFault>
        ensures { IsReadAs self (get_in (rules_of self) (texts fields.now)) result }
    {
        let (of, off, len) = three_fields(fields)?;
        Ok(SpeltCommand::Get(self.cell(of)?, self.size(off)?, self.count(len)?))
    }

    /// `free CELL`
    fn free_of(self, fields: &[&[u8]]) -> Result<SpeltCommand, LineFault>
        ensures { IsReadAs self (free_in (rules_of self) (texts fields.now)) result }
    {
        Ok(SpeltCommand::Free(self.cell(one_field(fields)?)?))
    }

    /// `alias CELL FROM`
    fn alias_of(self, fields: &[&[u8]]) -> Result<SpeltCommand, LineFault>
        ensures { IsReadAs self (alias_in (rules_of self) (texts fields.now)) result }
    {
        let (to, from) = two_fields(fields)?;
        Ok(SpeltCommand::Alias(self.cell(to)?, self.cell(from)?))
    }

    /// `addr CELL`
    fn addr_of(self, fields: &[&[u8]]) -> Result<SpeltCommand, LineFault>
        ensures { IsReadAs self (addr_in (rules_of self) (texts fields.now)) result }
    {
        Ok(SpeltCommand::Addr(self.cell(one_field(fields)?)?))
    }

    /// `peek ADDR`
    fn peek_of(self, fields: &[&[u8]]) -> Result<SpeltCommand, LineFault>
        ensures { IsReadAs self (peek_in (rules_of self) (texts fields.now)) result }
    {
        Ok(SpeltCommand::Peek(self.place(one_field(fields)?)?))
    }

    /// `poke ADDR BYTE`
    fn poke_of(self, fields: &[&[u8]]) -> Result<SpeltCommand, LineFault>
        ensures { IsReadAs self (poke_in (rules_of self) (texts fields.now)) result }
    {
        let (at, stored) = two_fields(fields)?;
        Ok(SpeltCommand::Poke(self.place(at)?, byte(stored)?))
    }

    /// `copy TO OFF FROM OFF LEN`
    fn copy_of(self, fields: &[&[u8]]) -> Result<SpeltCommand, LineFault>
        ensures { IsReadAs self (copy_in (rules_of self) (texts fields.now)) result }
    {
        let (to, to_off, from, from_off, len) = five_fields(fields)?;
        Ok(SpeltCommand::Copy(
            self.cell(to)?,
            self.size(to_off)?,
            self.cell(from)?,
            self.size(from_off)?,
            self.count(len)?,
        ))
    }
}
