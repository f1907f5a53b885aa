//! Commands without their bytes.
ghost use Rattle.std.specs.Prelude.{◌≡◌, ◌++◌, length};
ghost use Rattle.mesh_packed.specs.Packed.{IsCommandWithin, bytes_of_command, command_in};
ghost use Rattle.mesh_packed.specs.Runs.{HasRoom, IsKeptOn};

use crate::run::{Run, bytes_of, keep};
use model_words::Command;

/// A command without its bytes, in 16 bytes. Each variant is the packed `Command` variant of the same name. The fields
/// of a variant are in memory in the order in which they are declared, so the two cells of `Copy` are adjacent. `Put`
/// has the run of the stored bytes.
#[derive(Drop)]
pub enum PackedCommand {
    /// `New(cell, len, word)`.
    New(u8, u32, u64),
    /// `Put(cell, off, run)`: the command stores the bytes of the run.
    Put(u8, u32, Run),
    /// `Get(cell, off, len)`.
    Get(u8, u32, u32),
    /// `Free(cell)`.
    Free(u8),
    /// `Alias(to, from)`.
    Alias(u8, u8),
    /// `Addr(cell)`.
    Addr(u8),
    /// `Peek(addr)`.
    Peek(u32),
    /// `Poke(addr, byte)`.
    Poke(u32, u8),
    /// `Copy(to, from, to_off, from_off, len)`.
    Copy(u8, u8, u32, u32, u32),
}

/// Packs a command. Appends the bytes that the command stores, at most 32, to the kept bytes, which must have room for
/// them.
pub fn pack_command(kept: &mut Vec<u8>, command: &Command) -> PackedCommand
    requires { HasRoom kept.old }
    ensures command { command_in kept.new.items result ≡ command.now }
    ensures within { IsCommandWithin (length kept.new.items) result }
    ensures kept { IsKeptOn kept.old kept.new }
    ensures grows { kept.new.items ≡ kept.old.items ++ bytes_of_command command.now }
{
    match command {
        Command::New(cell, len, word) => PackedCommand::New(*cell, *len, *word),
        Command::Put(cell, off, bytes) => PackedCommand::Put(*cell, *off, keep(kept, bytes)),
        Command::Get(cell, off, len) => PackedCommand::Get(*cell, *off, *len),
        Command::Free(cell) => PackedCommand::Free(*cell),
        Command::Alias(to, from) => PackedCommand::Alias(*to, *from),
        Command::Addr(cell) => PackedCommand::Addr(*cell),
        Command::Peek(addr) => PackedCommand::Peek(*addr),
        Command::Poke(addr, byte) => PackedCommand::Poke(*addr, *byte),
        Command::Copy(to, to_off, from, from_off, len) => {
            PackedCommand::Copy(*to, *from, *to_off, *from_off, *len)
        }
    }
}

/// Returns the command that was packed. The call allocates nothing.
pub fn unpack_command(kept: &[u8], command: &PackedCommand) -> Command
    requires { IsCommandWithin (length kept.now) command.now }
    ensures { result ≡ command_in kept.now command.now }
{
    match command {
        PackedCommand::New(cell, len, word) => Command::New(*cell, *len, *word),
        PackedCommand::Put(cell, off, run) => Command::Put(*cell, *off, bytes_of(kept, *run)),
        PackedCommand::Get(cell, off, len) => Command::Get(*cell, *off, *len),
        PackedCommand::Free(cell) => Command::Free(*cell),
        PackedCommand::Alias(to, from) => Command::Alias(*to, *from),
        PackedCommand::Addr(cell) => Command::Addr(*cell),
        PackedCommand::Peek(addr) => Command::Peek(*addr),
        PackedCommand::Poke(addr, byte) => Command::Poke(*addr, *byte),
        PackedCommand::Copy(to, from, to_off, from_off, len) => {
            Command::Copy(*to, *to_off, *from, *from_off, *len)
        }
    }
}
