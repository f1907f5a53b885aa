//! The text of mutators' commands.
ghost use Rattle.std.specs.Prelude.{◌≡◌, ◌++◌, ◌∷◌, [], codes, OnOk};
ghost use Rattle.std.specs.List.{flat_map};
ghost use Rattle.model_jobs.specs.Texts.{address_text, bytes_text, command_text, field, number_field};
ghost use Rattle.text_fields.specs.Commands.{plain_command};
ghost use Rattle.text_words.specs.CommandTexts.{NamesObject};

use crate::answers::{add_address, add_bytes, add_decimal};
use model_words::Command;
use std::alloc::AllocError;
use text_fields::commands::SpeltCommand;

/// Appends a command, as a job file has it.
pub fn add_command(text: &mut Vec<u8>, command: &Command) -> Result<(), AllocError>
    ensures { OnOk result (text.new.items ≡ text.old.items ++ command_text command.now) }
{
    match command {
        Command::New(cell, len, word) => {
            let numbers = [u64::from(*cell), u64::from(*len), *word];
            add_named(text, b"new", &numbers)
        }
        Command::Put(cell, off, bytes) => {
            add_put(text, u32::from(*cell), u64::from(*off), bytes.as_slice())
        }
        Command::Get(cell, off, len) => {
            let numbers = [u64::from(*cell), u64::from(*off), u64::from(*len)];
            add_named(text, b"get", &numbers)
        }
        Command::Free(cell) => add_named(text, b"free", &[u64::from(*cell)]),
        Command::Alias(to, from) => {
            add_named(text, b"alias", &[u64::from(*to), u64::from(*from)])
        }
        Command::Addr(cell) => add_named(text, b"addr", &[u64::from(*cell)]),
        Command::Peek(address) => add_placed(text, b"peek ", *address),
        Command::Poke(address, byte) => add_poke(text, *address, *byte),
        Command::Copy(to, to_off, from, from_off, len) => {
            let numbers = [
                u64::from(*to),
                u64::from(*to_off),
                u64::from(*from),
                u64::from(*from_off),
                u64::from(*len),
            ];
            add_named(text, b"copy", &numbers)
        }
    }
}

/// Appends a `new`, `put`, `get`, `free` or `addr` of a recorded history.
pub fn add_object_command(text: &mut Vec<u8>, command: &SpeltCommand) -> Result<(), AllocError>
    requires { NamesObject (plain_command command.now) }
    ensures { OnOk result (text.new.items ≡ text.old.items ++ command_text (plain_command command.now)) }
{
    match command {
        SpeltCommand::New(cell, len, word) => {
            add_named(text, b"new", &[u64::from(*cell), *len, *word])
        }
        SpeltCommand::Put(cell, off, bytes) => add_put(text, *cell, *off, bytes.as_slice()),
        SpeltCommand::Get(cell, off, len) => {
            add_named(text, b"get", &[u64::from(*cell), *off, u64::from(*len)])
        }
        SpeltCommand::Free(cell) => add_named(text, b"free", &[u64::from(*cell)]),
        SpeltCommand::Addr(cell) => add_named(text, b"addr", &[u64::from(*cell)]),
        _ => unreachable!(),
    }
}

/// Appends a `put`.
fn add_put(text: &mut Vec<u8>, cell: u32, off: u64, bytes: &[u8]) -> Result<(), AllocError>
    ensures { OnOk result
        (text.new.items ≡ text.old.items ++ codes "put" ++ number_field cell ++ number_field off
        ++ field (bytes_text bytes.now)) }
{
    add_named(text, b"put", &[u64::from(cell), off])?;
    add_run(text, bytes)
}

/// Appends a `poke`.
fn add_poke(text: &mut Vec<u8>, address: u32, byte: u8) -> Result<(), AllocError>
    ensures { OnOk result
        (text.new.items ≡ text.old.items ++ codes "poke " ++ address_text address ++ field (bytes_text (byte ∷ []))) }
{
    add_placed(text, b"poke ", address)?;
    add_run(text, &[byte])
}

/// Appends the name of a command, and then each number with a space before it.
pub fn add_named(text: &mut Vec<u8>, name: &[u8], numbers: &[u64]) -> Result<(), AllocError>
    ensures { OnOk result (text.new.items ≡ text.old.items ++ name.now ++ flat_map number_field numbers.now) }
{
    text.extend_from_slice(name)?;
    add_numbers(text, numbers)
}

/// Appends the name of a command and an address. The name passed in ends in a space.
fn add_placed(text: &mut Vec<u8>, name: &[u8], address: u32) -> Result<(), AllocError>
    ensures { OnOk result (text.new.items ≡ text.old.items ++ name.now ++ address_text address) }
{
    text.extend_from_slice(name)?;
    add_address(text, u64::from(address))
}

/// Appends a space and bytes, two hexadecimal digits each.
fn add_run(text: &mut Vec<u8>, bytes: &[u8]) -> Result<(), AllocError>
    ensures { OnOk result (text.new.items ≡ text.old.items ++ field (bytes_text bytes.now)) }
{
    text.push(b' ')?;
    add_bytes(text, bytes)
}

/// Appends numbers in decimal digits, a space before each.
pub fn add_numbers(text: &mut Vec<u8>, numbers: &[u64]) -> Result<(), AllocError>
    ensures { OnOk result (text.new.items ≡ text.old.items ++ flat_map number_field numbers.now) }
{
    for number in numbers {
        add_number(text, *number)?;
    }
    Ok(())
}

/// Appends a space and a number in decimal digits.
fn add_number(text: &mut Vec<u8>, number: u64) -> Result<(), AllocError>
    ensures { OnOk result (text.new.items ≡ text.old.items ++ number_field number) }
{
    text.push(b' ')?;
    add_decimal(text, number)
}
