//! `Script`, the commands of one worker.
ghost use Rattle.std.specs.Prelude.{◌≡◌, ◌<◌, ◌^◌, [], ◌∷◌, ◌++◌, length, slice_get, ◌↔◌, IsTrue, IfErr, IfOk, Ok, OnOk, OnErr, IfSome};
ghost use Rattle.model_words.specs.Commands.{IsInRange};
ghost use Rattle.model_jobs.specs.JobFiles.{command_in};
ghost use Rattle.text_fields.specs.Lines.{texts};
ghost use Rattle.text_job.specs.Draft.{with_line};
ghost use Rattle.text_job.specs.Reading.{IsFaultOfStep};

use crate::{Commands, LineError, command_of};
use mesh_packed::{MAX_BYTES, PackedCommand, pack_command, unpack_command};
use model_words::{Command, Version};
use std::alloc::{AllocError, Global};
use std::marker::Model;
use std::mem;

/// The greatest number of stored bytes with which a script still accepts a command.
const MAX_KEPT: usize = 0xffff_ffff;

/// The commands of one worker, in the order in which the worker attempts them.
///
/// Each command that stores, loads or copies has 1 to 32 bytes to store, load or copy. So each command may be passed to
/// the heap. A command takes 16 bytes. The bytes that commands store are kept in a separate list.
pub struct Script {
    commands: Vec<PackedCommand>,
    /// The bytes that the commands store, in the order of the commands.
    bytes: Vec<u8>,
}

impl Model for Script {
    ghost use Rattle.std.specs.Prelude.{List, map};
    ghost use Rattle.model_words.specs.declared.commands.Command.{Command};
    ghost use Rattle.mesh_packed.specs.Packed.{command_in};
    ghost use Rattle.text_job.specs.Scripts.{IsScript};

    ghost Value = { List Command };

    ghost view = { λ s. map (command_in s.bytes.items) s.commands.items };

    ghost invariant = { λ s. IsScript s.bytes.items s.commands.items };
}

#[rattlefmt::skip]
impl Drop for Script {
    fn drop(self) { let Script { commands: _, bytes: _ } = self; }
}

impl Script {
    /// Returns a script without commands. It allocates nothing.
    pub fn new(alloc: Global) -> Self
        ensures { result ≡ [] }
    {
        Script {
            commands: Vec::new(alloc),
            bytes: Vec::new(alloc),
        }
    }

    /// Appends a command. Returns an error if an allocation fails, or if the script's commands already store 4 GiB or
    /// more. The script is then unchanged.
    pub fn push(&mut self, command: &Command) -> Result<(), AllocError>
        requires { IsInRange command.now }
        ensures ok { OnOk result (self.new ≡ self.old ++ command.now ∷ []) }
        ensures err { OnErr result (self.new ≡ self.old) }
    {
        if self.bytes.len() > MAX_KEPT {
            return Err(AllocError);
        }
        self.commands.reserve(1)?;
        self.bytes.reserve(MAX_BYTES)?;
        let packed = pack_command(&mut self.bytes, command);
        self.commands.push_reserved(packed);
        Ok(())
    }

    /// Returns the number of commands.
    pub fn len(&self) -> usize
        ensures { result ≡ length self.now }
    {
        self.commands.len()
    }

    /// Whether the script has no command.
    pub fn is_empty(&self) -> bool
        ensures { IsTrue result ↔ (self.now ≡ []) }
    {
        self.commands.is_empty()
    }

    /// Returns the command at index `place`. Returns `None` if the script has no such index. It allocates nothing.
    pub fn get(&self, place: usize) -> Option<Command>
        ensures value { result ≡ slice_get self.now place }
        ensures within { IfSome result (λ _. place < length self.now) }
        ensures countable { length self.now < 2 ^ 64 }
        ensures in_range { IfSome result IsInRange }
    {
        let packed = self.commands.get(place)?;
        Some(unpack_command(self.bytes.as_slice(), packed))
    }

    /// Returns all commands unpacked, in their order.
    pub fn commands(&self, alloc: Global) -> Result<Commands, AllocError>
        ensures { IfOk result (λ commands. commands ≡ self.now) }
    {
        let mut commands = Commands::new(alloc);
        for packed in &self.commands {
            commands.push(unpack_command(self.bytes.as_slice(), packed))?;
        }
        Ok(commands)
    }
}

/// Appends the command of a line with this word and these fields. The error is a fault of the line, or `Memory`.
pub(crate) fn push_line(
    alloc: Global,
    script: &mut Script,
    version: Version,
    word: &[u8],
    fields: &[&[u8]],
) -> Result<(), LineError>
    ensures ok { OnOk result (with_line script.old version word.now (texts fields.now) ≡ Ok script.new) }
    ensures err { IfErr result (IsFaultOfStep (command_in version word.now (texts fields.now))) }
{
    let command = command_of(alloc, version, word, fields)?;
    script.push(&command)?;
    Ok(())
}

/// Appends the script to the finished scripts, and replaces it by an empty script. The error is `Memory` if an
/// allocation fails.
pub(crate) fn close_script(
    alloc: Global,
    script: &mut Script,
    finished: &mut Vec<Script>,
) -> Result<(), LineError>
    ensures ok { OnOk result (finished.new.items ≡ finished.old.items ++ script.old ∷ []) }
    ensures begun { script.new ≡ [] }
    ensures err { IfErr result (λ fault. fault ≡ LineError.Memory) }
{
    let script = mem::replace(script, Script::new(alloc));
    finished.push(script).map_err(|_| LineError::Memory)?;
    Ok(())
}
