//! `Mutator`: the calls of a mutator on a shared book, with a gate at its reads.
ghost use Rattle.std.specs.Prelude.{◌≡◌, ◌↔◌, ◌<◌, ◌≤◌, length, min, suc, None, IsTrue, true};
ghost use Rattle.model_words.specs.Commands.{IsInRange};
ghost use Rattle.model_memory.specs.Reads.{is_read};
ghost use Rattle.mesh_mutator.specs.declared.attempts.Attempt.{Attempt};
ghost use Rattle.mesh_lock.specs.Seat.{IsNew, IsStore, IsTaken};
ghost use Rattle.mesh_lock.specs.CallBudgets.{IsSpent, IsUsedUp};

use crate::call_budget::CallBudget;
use crate::guarded::{act, look};
use crate::shared::Shared;
use crate::{Seat, is_read};
use mesh_mutator::{Attempt, Command};
use mesh_search::{Actor, Gate, Point};
use std::sync::Wait;

/// A mutator of a shared book. Its reads arrive at a gate.
#[derive(Drop)]
pub struct Mutator<'a, R, G> {
    rt: &'a R,
    gate: &'a G,
    shared: &'a Shared,
}

impl<'a, R: Wait, G: Gate> Mutator<'a, R, G> {
    /// Returns a mutator of this book, whose reads arrive at this gate.
    pub fn of(rt: &'a R, gate: &'a G, shared: &'a Shared) -> Mutator<'a, R, G> {
        Mutator { rt, gate, shared }
    }

    /// Makes one attempt at a command, as `Shared::call` does. A read arrives at the gate under the shared lock, before
    /// it is answered.
    pub fn attempt(&self, seat: &mut Seat, command: &Command) -> Attempt
        requires { IsInRange command.now }
        ensures taken { IsTaken seat.old seat.new command.now result }
        ensures full { seat.old.room ≤ length seat.old.calls → result ≡ Attempt.HistoryFull }
        ensures read { is_read command.now ≡ true
            → (result ≡ Attempt.HistoryFull) ↔ (seat.old.room ≤ length seat.old.calls) }
    {
        if seat.is_full() {
            return Attempt::HistoryFull;
        }
        if is_read(command) {
            let book = self.shared.book.read(self.rt);
            let call = call_number(seat.calls().len());
            self.gate
                .arrive(Actor::Worker(seat.number()), Point::Reading(call));
            return Attempt::Done(look(&book, seat, command));
        }
        act(&mut self.shared.book.write(self.rt), seat, command)
    }

    /// Makes attempts until one isn't Blocked, and returns that attempt.
    pub fn retry(&self, seat: &mut Seat, command: &Command) -> Attempt
        requires { IsInRange command.now }
        ensures taken { IsTaken seat.old seat.new command.now result }
        ensures full { seat.old.room ≤ length seat.old.calls → result ≡ Attempt.HistoryFull }
        ensures read { is_read command.now ≡ true
            → (result ≡ Attempt.HistoryFull) ↔ (seat.old.room ≤ length seat.old.calls) }
        ensures not_blocked { result ≡ Attempt.Blocked → ⊥ }
    {
        for _ in self.rt.forever() {
            let attempt = self.attempt(seat, command);
            if !is_blocked(&attempt) {
                return attempt;
            }
        }
        unreachable!()
    }

    /// Makes attempts until one isn't Blocked or the tries are used up, and returns the last attempt. At least one try
    /// must be left before the call. Each attempt is counted in `tries`, and each but the last was Blocked. If the
    /// result is Blocked, the last one was too.
    pub fn retry_up_to(&self, seat: &mut Seat, command: &Command, tries: &mut CallBudget) -> Attempt
        requires range { IsInRange command.now }
        requires some { IsUsedUp tries.old → ⊥ }
        ensures taken { IsTaken seat.old seat.new command.now result }
        ensures full { seat.old.room ≤ length seat.old.calls → result ≡ Attempt.HistoryFull }
        ensures read { is_read command.now ≡ true
            → (result ≡ Attempt.HistoryFull) ↔ (seat.old.room ≤ length seat.old.calls) }
        ensures spent { result ≡ Attempt.Blocked → IsUsedUp tries.new }
        ensures most { tries.new.most ≡ tries.old.most }
        ensures counted { min 4294967295 (suc tries.old.made) ≤ tries.new.made }
        ensures not_blocked { tries.old.most ≡ None → result ≡ Attempt.Blocked → ⊥ }
    {
        for _ in self.rt.forever() {
            let attempt = self.attempt_counted(seat, command, tries);
            if !is_blocked(&attempt) {
                return attempt;
            }
            if tries.is_used_up() {
                return attempt;
            }
        }
        unreachable!()
    }

    /// Counts one try, and makes one attempt. At least one try must be left.
    fn attempt_counted(&self, seat: &mut Seat, command: &Command, tries: &mut CallBudget) -> Attempt
        requires range { IsInRange command.now }
        requires some { IsUsedUp tries.old → ⊥ }
        ensures taken { IsTaken seat.old seat.new command.now result }
        ensures full { seat.old.room ≤ length seat.old.calls → result ≡ Attempt.HistoryFull }
        ensures read { is_read command.now ≡ true
            → (result ≡ Attempt.HistoryFull) ↔ (seat.old.room ≤ length seat.old.calls) }
        ensures counted { IsSpent tries.old tries.new }
    {
        tries.spend();
        self.attempt(seat, command)
    }
}

/// Converts the number of a call, counted from 0, to the number that a gate receives. A number above `u32::MAX` becomes
/// `u32::MAX`.
pub fn call_number(call: usize) -> u32
    ensures heard { call ≤ 4294967295 → result ≡ call }
    ensures last { 4294967295 < call → result ≡ 4294967295 }
{
    u32::try_from(call).unwrap_or(u32::MAX)
}

/// Whether an attempt was blocked.
fn is_blocked(attempt: &Attempt) -> bool
    ensures { IsTrue result ↔ (attempt.now ≡ Attempt.Blocked) }
{
    matches!(attempt, Attempt::Blocked)
}
