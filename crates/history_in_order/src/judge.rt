//! Judging entries one by one.
ghost use Rattle.std.specs.Prelude.{◌≡◌, ◌≢◌, ◌^◌, ◌+◌, ◌-◌, ◌≤◌, ◌<◌, ◌↔◌, ◌∷◌, ◌++◌, ℕ, List, [], Err, false, true, IfErr, IfOk, IfSome, IsNone, IsTrue, length};
ghost use Rattle.model_memory.specs.Memory.{Memory};
ghost use Rattle.model_memory.specs.Plain.{Entry, Follows, plain};
ghost use Rattle.model_words.specs.declared.commands.Command.{Command};
ghost use Rattle.model_words.specs.declared.commands.Reply.{Reply};
ghost use Rattle.model_history.specs.Recorded.{IsOwnRefusal, Recorded, any_allocator};
ghost use Rattle.text_fields.specs.Commands.{IsRecordable, plain_command};
ghost use Rattle.text_words.specs.RecordedWords.{IsNarrow, IsSized, plain_entry, plain_reply};
ghost use Rattle.history_in_order.specs.Differences.{bytes_of};
ghost use Rattle.history_in_order.specs.Judged.{IsAnswered, IsTaken, IsTold, IsWrong, is_new};
ghost use Rattle.history_in_order.specs.Lines.{AreLined, MakesAtMost, MakesNone, HasLine};
ghost use Rattle.history_in_order.specs.Reasons.{IsByte, LoadsFrom, Tells, is_load, no_object};
ghost use Rattle.history_in_order.specs.Stands.{Stands};

use crate::differences::{bytes_of, copied, difference, first_difference, is_same};
use crate::faults::CommandError;
use crate::memory::Tracked;
use crate::reasons::{Difference, DifferentByte, Reason};
use crate::stored::Stored;
use history_reading::{RecordedEntry, RecordedReply, SpeltCommand};
use model_words::Refusal;
use std::alloc::AllocError;

impl Tracked {
    /// Returns `None` if the reference memory accepts the entry on a line, and performs the entry. Otherwise returns
    /// the reason why the reference memory rejects the entry.
    ///
    /// After a rejected entry or an error, the memory may differ from the memory after the earlier entries.
    pub fn judge(&mut self, line: u32, entry: &RecordedEntry) -> Result<Option<Reason>, AllocError>
        requires range { IsRecordable (plain_command entry.now.command) }
        requires sized { IsSized (plain_command entry.now.command) }
        requires narrow { IsNarrow entry.now.reply }
        requires few { self.old.made < 2 ^ 32 - 1 }
        ensures taken { IfOk result
            (λ reason. IsNone reason
            → IsTaken self.old self.new (plain_command entry.now.command) (plain_reply entry.now.reply)) }
        ensures wrong { IfOk result
            (λ reason. IfSome reason
            (λ _. IsWrong self.old (plain_command entry.now.command) (plain_reply entry.now.reply))) }
        ensures told { IfOk result
            (λ reason. IfSome reason (Tells self.old (plain_command entry.now.command) (plain_reply entry.now.reply))) }
        ensures made { self.new.made ≤ self.old.made + 1 }
        ensures lined { IfOk result
            (λ reason. IsNone reason → (entries : List Entry) → length entries + 2 ≡ line → AreLined entries self.old
            → AreLined (entries ++ plain_entry entry.now ∷ []) self.new) }
        ensures maker { IfOk result
            (λ reason. IfSome reason
            (λ why. (entries : List Entry) → AreLined entries self.old → HasLine entries why)) }
    {
        match &entry.command {
            SpeltCommand::New(cell, len, _) => { self.judge_new(line, *cell, *len, &entry.reply) }
            command => self.judge_answer(line, command, &entry.reply),
        }
    }

    /// Accepts a command other than `new` with its answer and returns `None`, or returns the reason why the answer is
    /// wrong.
    fn judge_answer(
        &mut self,
        line: u32,
        command: &SpeltCommand,
        reply: &RecordedReply,
    ) -> Result<Option<Reason>, AllocError>
        requires range { IsRecordable (plain_command command.now) }
        requires other { is_new (plain_command command.now) ≡ false }
        ensures taken { IfOk result
            (λ reason. IsNone reason → IsTaken self.old self.new (plain_command command.now) (plain_reply reply.now)) }
        ensures wrong { IfOk result
            (λ reason. IfSome reason (λ _. IsWrong self.old (plain_command command.now) (plain_reply reply.now))) }
        ensures told { IfOk result
            (λ reason. IfSome reason (Tells self.old (plain_command command.now) (plain_reply reply.now))) }
        ensures made { self.new.made ≡ self.old.made }
        ensures lined { IfOk result (λ reason. IsNone reason → MakesNone self.old self.new) }
        ensures maker { IfOk result (λ reason. IfSome reason (λ why. (entries : List Entry) → HasLine entries why)) }
    {
        if self.is_loaded(command, reply) {
            return Ok(None);
        }
        let wanted = self.answer(line, command)?;
        if is_same(reply, &wanted) {
            return Ok(None);
        }
        let byte = self.different_byte(command, reply, &wanted);
        Ok(Some(difference(copied(reply)?, wanted, byte)))
    }

    /// Whether the command is a `get` that returns this answer. Nothing is allocated, so that the bytes of an answer
    /// that is right aren't copied.
    fn is_loaded(&self, command: &SpeltCommand, reply: &RecordedReply) -> bool
        ensures { IsTrue result → IsAnswered self.now self.now (plain_command command.now) (plain_reply reply.now) }
    {
        match (command, reply) {
            (SpeltCommand::Get(cell, off, len), RecordedReply::Bytes(bytes)) => {
                self.has_bytes(*cell, *off, *len, bytes)
            }
            _ => false,
        }
    }

    /// Runs a command other than `new`, and returns the answer of the reference memory.
    fn answer(&mut self, line: u32, command: &SpeltCommand) -> Result<RecordedReply, AllocError>
        requires range { IsRecordable (plain_command command.now) }
        requires other { is_new (plain_command command.now) ≡ false }
        ensures answered { IfOk result
            (λ reply. IsAnswered self.old self.new (plain_command command.now) (plain_reply reply)) }
        ensures made { self.new.made ≡ self.old.made }
        ensures lined { IfOk result (λ _. MakesNone self.old self.new) }
        ensures loads { is_load (plain_command command.now) ≡ true → self.new ≡ self.old }
        ensures changes { IfOk result
            (λ reply. is_load (plain_command command.now) ≡ false → bytes_of (plain_reply reply) ≡ []) }
    {
        match command {
            SpeltCommand::New(_, _, _) => Ok(RecordedReply::Done),
            SpeltCommand::Put(cell, off, bytes) => { done(self.put(line, *cell, *off, bytes)) }
            SpeltCommand::Get(cell, off, len) => match self.get(*cell, *off, *len) {
                Ok(bytes) => Ok(RecordedReply::Bytes(bytes)),
                Err(error) => refused(error),
            },
            SpeltCommand::Free(cell) => done(self.free(*cell)),
            SpeltCommand::Alias(to, from) => done(self.alias(*to, *from)),
            SpeltCommand::Addr(cell) => Ok(
                self.addr(*cell)
                    .map_or_else(RecordedReply::Refused, RecordedReply::At),
            ),
            SpeltCommand::Peek(address) => Ok(
                self.peek(*address)
                    .map_or_else(RecordedReply::Refused, RecordedReply::Byte),
            ),
            SpeltCommand::Poke(address, byte) => done(self.poke(line, *address, *byte)),
            SpeltCommand::Copy(to, to_off, from, from_off, len) => done(self.copy(
                line, *to, *to_off, *from, *from_off, *len,
            )),
        }
    }

    /// The first byte in which the answer to a load differs from the expected one, among the bytes that both answers
    /// have. `None` if there is no such byte.
    fn different_byte(
        &self,
        command: &SpeltCommand,
        answered: &RecordedReply,
        wanted: &RecordedReply,
    ) -> Option<DifferentByte>
        ensures byte { is_load (plain_command command.now) ≡ true → (r : Recorded) (m : Memory) → Stands self.now r
            → Follows (plain r.memory 0 (plain_command command.now)) r.memory (plain_reply wanted.now) m
            → IsByte r (plain_command command.now) (plain_reply answered.now) (plain_reply wanted.now) result }
        ensures none { bytes_of (plain_reply wanted.now) ≡ [] → IsNone result }
    {
        let place = first_difference(bytes_of(answered), bytes_of(wanted))?;
        let (object, start) = self.loaded_from(command)?;
        let offset = start.saturating_add(place as u64);
        Some(DifferentByte {
            offset,
            stored_at: object.bytes.stored_at(offset),
        })
    }

    /// The object from which a `get` or a `peek` loads bytes, and the offset of the first byte. `None` for other
    /// commands, and if the load is refused.
    fn loaded_from(&self, command: &SpeltCommand) -> Option<(&Stored, u64)>
        ensures from { IfSome result
            (λ found. (r : Recorded) → Stands self.now r → LoadsFrom r (plain_command command.now) found.1) }
        ensures none { IsNone result → is_load (plain_command command.now) ≡ true
            → (r : Recorded) (m : Memory) (wanted : Reply) → Stands self.now r
            → Follows (plain r.memory 0 (plain_command command.now)) r.memory wanted m → bytes_of wanted ≡ [] }
    {
        match command {
            SpeltCommand::Get(cell, off, _) => {
                let (_, object) = self.named(*cell).ok()?;
                Some((object, *off))
            }
            SpeltCommand::Peek(address) => {
                let (_, object) = self.holding(*address).ok()?;
                Some((object, object.offset_of(*address)))
            }
            _ => None,
        }
    }

    /// Accepts a `new` with its answer and returns `None`, or returns the reason why the answer is wrong.
    fn judge_new(
        &mut self,
        line: u32,
        cell: u32,
        len: u64,
        reply: &RecordedReply,
    ) -> Result<Option<Reason>, AllocError>
        requires long { len ≤ any_allocator.longest }
        requires narrow { IsNarrow reply.now }
        requires few { self.old.made < 2 ^ 32 - 1 }
        ensures taken { IfOk result
            (λ reason. IsNone reason → (word : ℕ)
            → IsTaken self.old self.new (Command.New cell len word) (plain_reply reply.now)) }
        ensures wrong { IfOk result
            (λ reason. IfSome reason
            (λ _. (word : ℕ) → IsWrong self.old (Command.New cell len word) (plain_reply reply.now))) }
        ensures told { IfOk result
            (λ reason. IfSome reason
            (λ why. (word : ℕ) → Tells self.old (Command.New cell len word) (plain_reply reply.now) why)) }
        ensures made { self.new.made ≤ self.old.made + 1 }
        ensures lined { IfOk result
            (λ reason. IsNone reason → MakesAtMost self.old self.new line (plain_reply reply.now)) }
        ensures maker { IfOk result
            (λ reason. IfSome reason
            (λ why. (entries : List Entry) → AreLined entries self.old → HasLine entries why)) }
    {
        match reply {
            RecordedReply::Object(serial, address) => {
                self.judge_made(line, cell, len, *serial, *address)
            }
            RecordedReply::Refused(refusal) if is_own_refusal(len, *refusal) => Ok(None),
            _ => Ok(Some(no_object(len, copied(reply)?))),
        }
    }

    /// Makes an object with the serial and the address of the answer and returns `None`, or returns the reason why the
    /// answer is wrong.
    fn judge_made(
        &mut self,
        line: u32,
        cell: u32,
        len: u64,
        serial: u32,
        address: u64,
    ) -> Result<Option<Reason>, AllocError>
        requires long { len ≤ any_allocator.longest }
        requires narrow { address < 2 ^ 48 }
        requires few { self.old.made < 2 ^ 32 - 1 }
        ensures taken { IfOk result
            (λ reason. IsNone reason → (word : ℕ)
            → IsTaken self.old self.new (Command.New cell len word) (Reply.Object serial address)) }
        ensures wrong { IfOk result
            (λ reason. IfSome reason
            (λ _. (word : ℕ) → IsWrong self.old (Command.New cell len word) (Reply.Object serial address))) }
        ensures told { IfOk result
            (λ reason. IfSome reason
            (λ why. (word : ℕ) → Tells self.old (Command.New cell len word) (Reply.Object serial address) why)) }
        ensures made { self.new.made ≤ self.old.made + 1 }
        ensures lined { IfOk result
            (λ reason. IsNone reason → MakesAtMost self.old self.new line (Reply.Object serial address)) }
        ensures maker { IfOk result
            (λ reason. IfSome reason
            (λ why. (entries : List Entry) → AreLined entries self.old → HasLine entries why)) }
    {
        if len == 0 {
            return Ok(Some(no_object(len, RecordedReply::Object(serial, address))));
        }
        if self.serials.contains(serial) {
            return Ok(Some(Reason::SerialAgain));
        }
        if let Some(overlap) = self.overlapped(address, len) {
            return Ok(Some(Reason::Overlaps(overlap)));
        }
        self.make(line, cell, len, serial, address)?;
        Ok(None)
    }
}

/// Returns the reason to reject a `new` of `len` bytes whose answer is wrong: the answer isn't an object, or it is an
/// object although `len` is 0.
fn no_object(len: u64, answered: RecordedReply) -> Reason
    ensures { result ≡ no_object len answered }
{
    if len == 0 {
        Reason::Differs(Difference {
            answered,
            wanted: RecordedReply::Refused(Refusal::Zero),
            byte: None,
        })
    } else {
        Reason::NoObject(answered)
    }
}

/// Whether an allocator may refuse a `new` of this length with this refusal.
fn is_own_refusal(len: u64, refusal: Refusal) -> bool
    requires { len ≤ any_allocator.longest }
    ensures { IsTrue result ↔ IsOwnRefusal any_allocator len refusal }
{
    match refusal {
        Refusal::Zero => len == 0,
        Refusal::TooLarge | Refusal::NoPages | Refusal::NoAddresses => len >= 1,
        _ => false,
    }
}

/// Returns the answer to a command that changes the memory: done or a refusal.
fn done(outcome: Result<(), CommandError>) -> Result<RecordedReply, AllocError>
    ensures { IsTold outcome result }
{
    match outcome {
        Ok(()) => Ok(RecordedReply::Done),
        Err(error) => refused(error),
    }
}

/// Returns the answer to a command that failed: its refusal.
fn refused(error: CommandError) -> Result<RecordedReply, AllocError>
    ensures { IsTold (Err error) result }
{
    match error {
        CommandError::Refused(refusal) => Ok(RecordedReply::Refused(refusal)),
        CommandError::Memory => Err(AllocError),
    }
}
