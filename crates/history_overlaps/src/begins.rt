//! Handles the starts of calls.
ghost use Rattle.std.specs.Prelude.{◌≡◌, ◌+◌, ℕ, true, false, IfErr, IfOk, OnOk, None};
ghost use Rattle.std.specs.Ordering.{nat_cmp};
ghost use Rattle.std.specs.BTreeMap.{IsOrdered, get};
ghost use Rattle.model_memory.specs.Plain.{Entry};
ghost use Rattle.model_words.specs.declared.commands.Command.{Command};
ghost use Rattle.model_intervals.specs.Objects.{is_access};
ghost use Rattle.model_intervals.specs.OverlappingCalls.{HasEffect, cell_of};
ghost use Rattle.text_fields.specs.Commands.{plain_command};
ghost use Rattle.text_words.specs.RecordedWords.{plain_entry, plain_reply};
ghost use Rattle.history_number_set.specs.Ranges.{Has};
ghost use Rattle.history_overlaps.specs.Accesses.{access_of};
ghost use Rattle.history_overlaps.specs.Begins.{IsFirstAccess, IsNewPending, IsStray, first_access};
ghost use Rattle.history_overlaps.specs.Standing.{HasBegunIn, HasBegunSo, IsMisusedSo, lives_of};
ghost use Rattle.history_overlaps.specs.Stops.{CannotBeginIn, IsStoppedSo, IsWithinLimits};
ghost use Rattle.history_overlaps.specs.Timelines.{FewOpen};

use crate::life::Life;
use crate::misuses::{Misuse, Misused, NotBegun};
use crate::objects::NewObject;
use crate::pending::Pending;
use crate::timeline::{NUMBERS, Timeline, add};
use history_object::{Access, JudgeFault};
use history_reading::{RecordedEntry, RecordedReply, SpeltCommand};
use std::alloc::{AllocError, Global};
use std::collections::BTreeMap;

impl Timeline {
    /// Applies the start of a call to the live objects. Returns what must be done at the end of the call. The errors
    /// are those of `begin`.
    pub(crate) fn begun(&mut self, number: u32, entry: &RecordedEntry) -> Result<Pending, NotBegun>
        requires effect { HasEffect (plain_command entry.now.command) (plain_reply entry.now.reply) }
        requires few { FewOpen (lives_of self.old) number }
        ensures waiting { self.new.waiting ≡ self.old.waiting }
        ensures begun { IfOk result (HasBegunSo self.old self.new number (plain_entry entry.now)) }
        ensures misused { IfErr result (IsMisusedSo self.old number (plain_entry entry.now)) }
        ensures stopped { IfErr result (IsStoppedSo self.old number (plain_entry entry.now)) }
        ensures few { OnOk result (FewOpen (lives_of self.new) (number + 1)) }
    {
        match &entry.command {
            SpeltCommand::New(cell, len, _) => self.new_begun(number, *cell, *len, &entry.reply),
            SpeltCommand::Free(cell) => self.free_begun(number, *cell),
            SpeltCommand::Put(cell, _, _) => self.access_begun(number, *cell, entry),
            SpeltCommand::Get(cell, _, _) => self.access_begun(number, *cell, entry),
            SpeltCommand::Addr(cell) => self.access_begun(number, *cell, entry),
            _ => unreachable!(),
        }
    }

    /// Handles the start of a `new`. Returns what must be done at its end. The error is `CellAgain` if an earlier `new`
    /// has the same cell, and `Memory` if an allocation fails.
    fn new_begun(
        &mut self,
        number: u32,
        cell: u32,
        len: u64,
        reply: &RecordedReply,
    ) -> Result<Pending, NotBegun>
        requires { (word : ℕ) → HasEffect (Command.New cell len word) (plain_reply reply.now) }
        ensures waiting { self.new.waiting ≡ self.old.waiting }
        ensures begun { IfOk result
            (λ pending. (word : ℕ) (entry : Entry) → entry.command ≡ Command.New cell len word
            → entry.reply ≡ plain_reply reply.now → HasBegunSo self.old self.new number entry pending) }
        ensures misused { IfErr result
            (λ not_begun. (word : ℕ) (entry : Entry) → entry.command ≡ Command.New cell len word
            → IsMisusedSo self.old number entry not_begun) }
        ensures within { IfErr result IsWithinLimits }
        ensures lives { self.new.lives ≡ self.old.lives }
    {
        if self.cells.contains(cell) {
            return Err(broken(number, Misuse::CellAgain));
        }
        self.cells.add(cell)?;
        Ok(new_pending(number, cell, len, reply))
    }

    /// Handles the start of a `free`: the object of the cell is no longer live. Returns what must be done at the end of
    /// the `free`. The error is that of `stray` if the cell has no live object. It is `NotBeforeFree` of an access to
    /// the object if such an access is pending, and `Memory` if an allocation fails.
    fn free_begun(&mut self, number: u32, cell: u32) -> Result<Pending, NotBegun>
        ensures waiting { self.new.waiting ≡ self.old.waiting }
        ensures begun { IfOk result
            (λ pending. (entry : Entry) → entry.command ≡ Command.Free cell
            → HasBegunSo self.old self.new number entry pending) }
        ensures misused { IfErr result
            (λ not_begun. (entry : Entry) → entry.command ≡ Command.Free cell
            → IsMisusedSo self.old number entry not_begun) }
        ensures within { IfErr result IsWithinLimits }
        ensures few { OnOk result
            ((count : ℕ) → FewOpen (lives_of self.old) count → FewOpen (lives_of self.new) count) }
    {
        let Some(life) = self.lives.remove(&cell) else {
            return Err(self.stray(number, cell));
        };
        if let Some(access) = first_access(&self.waiting, cell) {
            return Err(broken(access, Misuse::NotBeforeFree));
        }
        self.starts.remove(&u128::from(life.object.address));
        add(&mut self.freed, cell)?;
        Ok(Pending::Free)
    }

    /// Handles the start of an access to the object of a cell. Returns what must be done at the end of the access. The
    /// error is that of `stray` if the cell has no live object. The other errors are those of `Life::begin`.
    fn access_begun(
        &mut self,
        number: u32,
        cell: u32,
        entry: &RecordedEntry,
    ) -> Result<Pending, NotBegun>
        requires access { is_access (plain_command entry.now.command) ≡ true }
        requires effect { HasEffect (plain_command entry.now.command) (plain_reply entry.now.reply) }
        requires few { FewOpen (lives_of self.old) number }
        ensures waiting { self.new.waiting ≡ self.old.waiting }
        ensures begun { IfOk result
            (λ pending. is_access (plain_command entry.now.command) ≡ true
            → cell_of (plain_command entry.now.command) ≡ cell
            → HasBegunSo self.old self.new number (plain_entry entry.now) pending) }
        ensures misused { IfErr result
            (λ not_begun. is_access (plain_command entry.now.command) ≡ true
            → cell_of (plain_command entry.now.command) ≡ cell
            → IsMisusedSo self.old number (plain_entry entry.now) not_begun) }
        ensures stopped { IfErr result
            (λ not_begun. is_access (plain_command entry.now.command) ≡ true
            → cell_of (plain_command entry.now.command) ≡ cell
            → IsStoppedSo self.old number (plain_entry entry.now) not_begun) }
        ensures few { OnOk result (FewOpen (lives_of self.new) (number + 1)) }
    {
        if !begin_in(&mut self.lives, self.alloc, number, cell, entry)? {
            return Err(self.stray(number, cell));
        }
        Ok(Pending::Access(cell))
    }

    /// Returns the rule that a call on the object of a cell breaks if the cell has no live object: `NotBeforeFree` if
    /// the object was freed, and `NotAfterNew` otherwise.
    fn stray(&self, number: u32, cell: u32) -> NotBegun
        ensures { IsStray (Has self.now.freed) number cell result }
    {
        if self.freed.contains(cell) {
            return broken(number, Misuse::NotBeforeFree);
        }
        broken(number, Misuse::NotAfterNew)
    }
}

/// The error of a call with this number that breaks a rule of use.
fn broken(number: u32, misuse: Misuse) -> NotBegun
    ensures { result ≡ NotBegun.Misused (record { number = number; misuse = misuse }) }
{
    NotBegun::Misused(Misused { number, misuse })
}

/// Returns the number of a pending access to the object of a cell: of the one that ends first. Returns `None` if no
/// such access is pending.
fn first_access(waiting: &BTreeMap<u128, Pending>, cell: u32) -> Option<u32>
    ensures { IsFirstAccess (get nat_cmp waiting.now) cell result }
{
    first_access_of(waiting, cell)
}

/// As `first_access`: the first in the map's order.
fn first_access_of(waiting: &BTreeMap<u128, Pending>, cell: u32) -> Option<u32>
    ensures first { result ≡ first_access waiting.now.entries cell }
    ensures ordered { IsOrdered nat_cmp waiting.now }
{
    for (key, pending) in waiting.iter() {
        if let Pending::Access(accessed) = pending
            && *accessed == cell
        {
            return Some((*key % NUMBERS) as u32);
        }
    }
    None
}

/// Handles the start of an access to the live object of a cell. Returns whether the cell has a live object. The errors
/// are those of `Life::begin`.
fn begin_in(
    lives: &mut BTreeMap<u32, Life>,
    alloc: Global,
    number: u32,
    cell: u32,
    entry: &RecordedEntry,
) -> Result<bool, JudgeFault>
    requires access { is_access (plain_command entry.now.command) ≡ true }
    requires effect { HasEffect (plain_command entry.now.command) (plain_reply entry.now.reply) }
    requires few { FewOpen (get nat_cmp lives.old) number }
    ensures begun { IfOk result
        (λ there. there ≡ true
        → HasBegunIn (get nat_cmp lives.old) (get nat_cmp lives.new) cell number (plain_entry entry.now)) }
    ensures none { IfOk result
        (λ there. there ≡ false → (get nat_cmp lives.old cell ≡ None) × (lives.new ≡ lives.old)) }
    ensures stopped { IfErr result (CannotBeginIn (get nat_cmp lives.old) cell) }
{
    let Some(life) = lives.get_mut(&cell) else {
        return Ok(false);
    };
    let access = access_of(life.object.address, entry)?;
    life.begin(alloc, number, access)?;
    Ok(true)
}

/// Returns the access that an entry records, to the object at this address.
pub fn access_of(address: u64, entry: &RecordedEntry) -> Result<Access, AllocError>
    requires access { is_access (plain_command entry.now.command) ≡ true }
    requires effect { HasEffect (plain_command entry.now.command) (plain_reply entry.now.reply) }
    ensures { IfOk result
        (λ access. access ≡ access_of address (plain_command entry.now.command) (plain_reply entry.now.reply)) }
{
    match (&entry.command, &entry.reply) {
        (SpeltCommand::Put(_, off, bytes), RecordedReply::Done) => Ok(Access::Store(
            *off,
            bytes.clone()?,
        )),
        (SpeltCommand::Get(_, off, len), RecordedReply::Bytes(answered)) => {
            Ok(Access::Load(*off, *len, answered.clone()?))
        }
        (SpeltCommand::Addr(_), RecordedReply::At(answered)) => {
            if *answered == address {
                return Ok(Access::Nothing);
            }
            Ok(Access::Elsewhere(*answered))
        }
        _ => unreachable!(),
    }
}

/// Returns what must be done at the end of a `new`.
fn new_pending(number: u32, cell: u32, len: u64, reply: &RecordedReply) -> Pending
    requires { (word : ℕ) → HasEffect (Command.New cell len word) (plain_reply reply.now) }
    ensures { IsNewPending number cell len (plain_reply reply.now) result }
{
    match reply {
        RecordedReply::Object(serial, address) => Pending::Made(NewObject {
            number,
            cell,
            len,
            serial: *serial,
            address: *address,
        }),
        RecordedReply::Refused(refusal) => Pending::Refused(len, *refusal),
        _ => unreachable!(),
    }
}
