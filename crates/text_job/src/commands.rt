//! The command lines of a job.
ghost use Rattle.std.specs.Prelude.{◌≡◌, ◌≤◌, IfOk, length};
ghost use Rattle.model_words.specs.Commands.{IsInRange};
ghost use Rattle.model_jobs.specs.JobFiles.{command_in};
ghost use Rattle.text_fields.specs.Commands.{AccessesUpTo, IsWithin, plain_command};
ghost use Rattle.text_fields.specs.Lines.{texts};

use arrayvec::ArrayVec;
use model_words::{Command, FaultKind, MAX_BYTES, Version};
use std::alloc::Global;
use text_fields::commands;
use text_fields::commands::{Dialect, SpeltCommand};
use text_fields::faults::LineFault;

/// Returns the command of a line with this word and these fields.
///
/// The error is WORD if the version has no command with this word, or if the number of fields is wrong. Otherwise the
/// leftmost field with a fault determines the error. The error is NUMBER if a number or an address is misspelt or out
/// of its range, and HEX if the bytes of a `put` or a `poke` are misspelt or have a wrong length. It allocates nothing.
pub fn command_of(
    alloc: Global,
    version: Version,
    word: &[u8],
    fields: &[&[u8]],
) -> Result<Command, FaultKind>
    ensures value { result ≡ command_in version word.now (texts fields.now) }
    ensures in_range { IfOk result IsInRange }
{
    match commands::command_of(alloc, Dialect::Job(version), word, fields) {
        Ok(spelt) => Ok(narrowed(spelt)),
        Err(LineFault::Kind(kind)) => Err(kind),
        Err(LineFault::Memory) => unreachable!(),
    }
}

/// Returns the command of a job's line, with cells of 8 bits, and with lengths, offsets and addresses of 32 bits.
fn narrowed(spelt: SpeltCommand) -> Command
    requires within { IsWithin 255 65535 268435455 spelt }
    requires few { AccessesUpTo 32 (plain_command spelt) }
    ensures { result ≡ plain_command spelt }
{
    match spelt {
        SpeltCommand::New(cell, len, word) => Command::New(cell as u8, len as u32, word),
        SpeltCommand::Put(cell, off, bytes) => {
            Command::Put(cell as u8, off as u32, few_bytes(bytes.as_slice()))
        }
        SpeltCommand::Get(cell, off, len) => Command::Get(cell as u8, off as u32, len),
        SpeltCommand::Free(cell) => Command::Free(cell as u8),
        SpeltCommand::Alias(to, from) => Command::Alias(to as u8, from as u8),
        SpeltCommand::Addr(cell) => Command::Addr(cell as u8),
        SpeltCommand::Peek(address) => Command::Peek(address as u32),
        SpeltCommand::Poke(address, byte) => Command::Poke(address as u32, byte),
        SpeltCommand::Copy(to, to_off, from, from_off, len) => {
            Command::Copy(to as u8, to_off as u32, from as u8, from_off as u32, len)
        }
    }
}

/// Returns at most 32 bytes as the bytes of a job's command.
fn few_bytes(bytes: &[u8]) -> ArrayVec<u8, MAX_BYTES>
    requires { length bytes.now ≤ 32 }
    ensures { result.items ≡ bytes.now }
{
    let mut few = ArrayVec::new();
    few.try_extend_from_slice(bytes).unwrap();
    few
}
