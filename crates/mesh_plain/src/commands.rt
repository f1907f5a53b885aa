//! Runs commands on the reference memory, and returns its replies.
ghost use Rattle.std.specs.Prelude.{◌≡◌, ℕ, ◌^◌, ◌+◌, ◌-◌, ◌≤◌, ◌<◌, true, Result, Ok, Err, IfErr, IfOk, IsErr, OnOk, OnErr};
ghost use Rattle.model_words.specs.Commands.{IsInRange};
ghost use Rattle.model_memory.specs.Memory.{Memory, next_serial};
ghost use Rattle.model_memory.specs.Reads.{is_read, left_by, read_reply, reply_in};
ghost use Rattle.model_memory.specs.Plain.{Follows, plain};
ghost use Rattle.model_words.specs.declared.commands.Command.{Command};
ghost use Rattle.model_words.specs.declared.commands.Reply.{Reply};
ghost use Rattle.model_words.specs.declared.refusals.Refusal.{Refusal};
ghost use Rattle.mesh_plain.specs.Refusals.{IsChange, IsRefusedAs, IsRefusedFor, IsRefusedOrMemory, MayTakeMemory};

use crate::faults::PlainFault;
use crate::plain::Plain;
use model_words::{Command, Refusal, Reply};
use std::alloc::AllocError;

/// The greatest number of bytes of an object.
const MAX_OBJECT_BYTES: u32 = 2048;

impl Plain {
    /// Returns the answer to a read. The answer may be a refusal. The call allocates nothing.
    pub fn look(&self, command: &Command) -> Reply
        requires range { IsInRange command.now }
        requires read { is_read command.now ≡ true }
        ensures { result ≡ read_reply self.now command.now }
    {
        match command {
            Command::Get(cell, off, len) => match self.get(*cell, *off, *len) {
                Ok(bytes) => Reply::Bytes(bytes),
                Err(fault) => refused(fault),
            },
            Command::Addr(cell) => match self.addr(*cell) {
                Ok(address) => Reply::At(address),
                Err(fault) => refused(fault),
            },
            Command::Peek(address) => match self.peek(*address) {
                Ok(byte) => Reply::Byte(byte),
                Err(fault) => refused(fault),
            },
            _ => Reply::Done,
        }
    }

    /// Performs a command and returns its reply. A new object is put at `address`. The error is an allocation failure.
    /// Only a `New` or an `Alias` can fail, and nothing changes then.
    pub fn answer(&mut self, command: &Command, address: u32) -> Result<Reply, AllocError>
        requires range { IsInRange command.now }
        requires few { next_serial self.old < 2 ^ 32 - 1 }
        ensures follows { IfOk result (λ reply. Follows (plain self.old address command.now) self.old reply self.new) }
        ensures unchanged { OnErr result (self.new ≡ self.old) }
        ensures serials { next_serial self.new ≤ next_serial self.old + 1 }
    {
        let reply = self.answer_at(command, address)?;
        Ok(reply)
    }

    /// Performs a command and returns its reply. The error is an allocation failure.
    fn answer_at(&mut self, command: &Command, address: u32) -> Result<Reply, AllocError>
        requires range { IsInRange command.now }
        requires few { next_serial self.old < 2 ^ 32 - 1 }
        ensures follows { IfOk result (λ reply. Follows (plain self.old address command.now) self.old reply self.new) }
        ensures unchanged { OnErr result (self.new ≡ self.old) }
    {
        match command {
            Command::New(cell, len, _) => self.answer_new(*cell, *len, address),
            Command::Get(_, _, _) | Command::Addr(_) | Command::Peek(_) => Ok(self.look(command)),
            _ => done(self.change(command)),
        }
    }

    /// Makes an object at an address, and returns the reply. The reply is a refusal if `len` is 0 or above 2,048. The
    /// error is an allocation failure.
    fn answer_new(&mut self, cell: u8, len: u32, address: u32) -> Result<Reply, AllocError>
        requires few { next_serial self.old < 2 ^ 32 - 1 }
        ensures follows { IfOk result
            (λ reply. (word : ℕ) → Follows
            (plain self.old address (Command.New cell len word)) self.old reply self.new) }
        ensures unchanged { OnErr result (self.new ≡ self.old) }
    {
        if len == 0 {
            return Ok(Reply::Refused(Refusal::Zero));
        }
        if len > MAX_OBJECT_BYTES {
            return Ok(Reply::Refused(Refusal::TooLarge));
        }
        match self.make(cell, len, address) {
            Ok(serial) => Ok(Reply::Object(serial, address)),
            Err(_) => Err(AllocError),
        }
    }

    /// Makes the change that an answered command made. The object of a `New` gets the address in the reply.
    ///
    /// A `New` whose reply names no object changes nothing. Any other command that this memory refuses changes nothing
    /// either. The only error is an allocation failure, which is possible only for an `Alias`, or for a `New` that made
    /// an object. After the error nothing has changed.
    pub fn apply(&mut self, command: &Command, reply: &Reply) -> Result<(), AllocError>
        requires few { next_serial self.old < 2 ^ 32 - 1 }
        ensures done { OnOk result (self.new ≡ left_by self.old command.now reply.now) }
        ensures unchanged { OnErr result (self.new ≡ self.old) }
        ensures memory { OnErr result (MayTakeMemory command.now reply.now) }
        ensures serials { next_serial self.new ≤ next_serial self.old + 1 }
    {
        match command {
            Command::New(cell, len, _) => match reply {
                Reply::Object(_, address) => match self.make(*cell, *len, *address) {
                    Ok(_) => Ok(()),
                    Err(_) => Err(AllocError),
                },
                _ => Ok(()),
            },
            Command::Get(_, _, _) | Command::Addr(_) | Command::Peek(_) => Ok(()),
            _ => only_memory(self.change(command)),
        }
    }

    /// Performs a command that changes the memory and makes no object. Only an `Alias` can fail with `Memory`.
    fn change(&mut self, command: &Command) -> Result<(), PlainFault>
        requires { IsChange command.now }
        ensures done { OnOk result (plain self.old 0 command.now ≡ Ok (Reply.Done, self.new)) }
        ensures fault { IfErr result (λ fault. IsRefusedFor command.now fault (plain self.old 0 command.now)) }
        ensures unchanged { OnErr result (self.new ≡ self.old) }
    {
        match command {
            Command::Put(cell, off, bytes) => self.put(*cell, *off, bytes.as_slice()),
            Command::Free(cell) => self.free(*cell),
            Command::Alias(to, from) => self.alias(*to, *from),
            Command::Poke(address, byte) => self.poke(*address, *byte),
            Command::Copy(to, to_off, from, from_off, len) => {
                self.copy(*to, *to_off, *from, *from_off, *len)
            }
            _ => Ok(()),
        }
    }
}

/// Returns the reply to a command that changes the memory: done or a refusal. Returns an error if `answer` is `Memory`.
fn done(answer: Result<(), PlainFault>) -> Result<Reply, AllocError>
    ensures done { OnOk answer (result ≡ Ok Reply.Done) }
    ensures refused { IfErr answer
        (λ fault. IfOk result (λ reply. (step : Result (Reply × Memory) Refusal) → IsRefusedOrMemory fault step
        → reply ≡ reply_in step × IsErr step)) }
{
    match answer {
        Ok(()) => Ok(Reply::Done),
        Err(PlainFault::Memory) => Err(AllocError),
        Err(fault) => Ok(refused(fault)),
    }
}

/// Returns the reply with the refusal that has the fault's name. `Memory` has no such refusal: the reply is then
/// NO_PAGES.
fn refused(fault: PlainFault) -> Reply
    ensures { (step : Result (Reply × Memory) Refusal) → IsRefusedAs fault step → result ≡ reply_in step }
{
    Reply::Refused(match fault {
        PlainFault::Empty => Refusal::Empty,
        PlainFault::Freed => Refusal::Freed,
        PlainFault::Outside => Refusal::Outside,
        PlainFault::Stray => Refusal::Stray,
        PlainFault::Memory => Refusal::NoPages,
    })
}

/// Returns an error if and only if `answer` is `Memory`. A refusal is not an error here.
fn only_memory(answer: Result<(), PlainFault>) -> Result<(), AllocError>
    ensures only { OnErr result (answer ≡ Err PlainFault.Memory) }
    ensures told { IfErr answer (λ fault. fault ≡ PlainFault.Memory → IsErr result) }
{
    match answer {
        Err(PlainFault::Memory) => Err(AllocError),
        _ => Ok(()),
    }
}
