//! Handles the ends of calls.
ghost use Rattle.std.specs.Prelude.{◌≡◌, ◌+◌, ◌≤◌, ◌↔◌, ℕ, IfErr, IfOk, IfSome, IsNone, IsTrue};
ghost use Rattle.std.specs.Ordering.{nat_cmp};
ghost use Rattle.std.specs.BTreeMap.{get};
ghost use Rattle.model_history.specs.Recorded.{IsOwnRefusal, any_allocator};
ghost use Rattle.history_overlaps.specs.Ends.{AreDisjoint, HasEndedIn, IsGone, IsNearest, IsOverlapped, IsToldIn, Misses};
ghost use Rattle.history_overlaps.specs.Flaws.{IsRefusalFlaw};
ghost use Rattle.history_overlaps.specs.LifeSteps.{is_explained};
ghost use Rattle.history_overlaps.specs.Standing.{HasEndedSo, IsEnding, IsFlawed, lives_of, starts_of};
ghost use Rattle.history_overlaps.specs.Stops.{CannotEndIn, IsStoppedEnd};
ghost use Rattle.history_overlaps.specs.Timelines.{FewOpen};
ghost use Rattle.history_overlaps.specs.declared.pending.Pending.{Pending};

use crate::flaws::Flaw;
use crate::life::{AccessEnd, Life};
use crate::objects::NewObject;
use crate::pending::Pending;
use crate::timeline::{Timeline, set};
use history_object::JudgeFault;
use history_reading::RecordedReply;
use model_words::Refusal;
use std::alloc::{AllocError, Global};
use std::collections::BTreeMap;
use text_fields::commands::MAX_RECORDED_LENGTH;

impl Timeline {
    /// Handles the end of the call with this number. Returns the flaw that is found, or `None` if no flaw is found. The
    /// errors are those of `Life::end`.
    pub(crate) fn ended(
        &mut self,
        number: u32,
        pending: Pending,
        most: usize,
    ) -> Result<Option<Flaw>, JudgeFault>
        requires { IsEnding self.old number pending }
        ensures waiting { self.new.waiting ≡ self.old.waiting }
        ensures ended { IfOk result (λ flaw. IsNone flaw → HasEndedSo self.old self.new number pending) }
        ensures flawed { IfOk result (λ flaw. IfSome flaw (IsFlawed self.old number pending)) }
        ensures stopped { IfErr result (IsStoppedEnd self.old number pending most) }
        ensures few { IfOk result
            (λ flaw. IsNone flaw → (count : ℕ) → FewOpen (lives_of self.old) count
            → FewOpen (lives_of self.new) count) }
    {
        match pending {
            Pending::Made(object) => {
                let flaw = self.made(object)?;
                Ok(flaw)
            }
            Pending::Refused(len, refusal) => Ok(self.refused(len, refusal)),
            Pending::Free => Ok(None),
            Pending::Access(cell) => self.access_ended(number, cell, most),
        }
    }

    /// Handles the end of a `new` that made an object. Returns the flaw that is found, if any.
    fn made(&mut self, object: NewObject) -> Result<Option<Flaw>, AllocError>
        ensures waiting { self.new.waiting ≡ self.old.waiting }
        ensures ended { IfOk result
            (λ flaw. IsNone flaw → (number : ℕ) → HasEndedSo self.old self.new number (Pending.Made object)) }
        ensures flawed { IfOk result
            (λ flaw. IfSome flaw (λ flaw. (number : ℕ) → IsFlawed self.old number (Pending.Made object) flaw)) }
        ensures few { IfOk result
            (λ flaw. IsNone flaw → (count : ℕ) → FewOpen (lives_of self.old) count
            → FewOpen (lives_of self.new) count) }
    {
        if !is_fair_length(object.len) {
            return Ok(Some(Flaw::NoByte(RecordedReply::Object(object.serial, object.address))));
        }
        if self.serials.contains(object.serial) {
            return Ok(Some(Flaw::SerialAgain));
        }
        if let Some(other) = self.overlapped(object) {
            return Ok(Some(Flaw::Overlaps(other.serial, other.number)));
        }
        self.serials.add(object.serial)?;
        set(&mut self.starts, u128::from(object.address), object.cell)?;
        set(
            &mut self.lives,
            object.cell,
            Life {
                object,
                judge: None,
            },
        )?;
        Ok(None)
    }

    /// Handles the end of a `new` that was refused. Returns the flaw that is found, if any.
    fn refused(&self, len: u64, refusal: Refusal) -> Option<Flaw>
        ensures ended { IsNone result
            → (number : ℕ) → HasEndedSo self.now self.now number (Pending.Refused len refusal) }
        ensures flawed { IfSome result
            (λ flaw. (number : ℕ) → IsFlawed self.now number (Pending.Refused len refusal) flaw) }
    {
        if is_own_refusal(len, refusal) {
            return None;
        }
        Some(unfair_refusal(len, refusal))
    }

    /// Handles the end of an access. Returns the flaw that is found, if any. The errors are those of `Life::end`.
    fn access_ended(
        &mut self,
        number: u32,
        cell: u32,
        most: usize,
    ) -> Result<Option<Flaw>, JudgeFault>
        requires { IsEnding self.old number (Pending.Access cell) }
        ensures waiting { self.new.waiting ≡ self.old.waiting }
        ensures ended { IfOk result (λ flaw. IsNone flaw → HasEndedSo self.old self.new number (Pending.Access cell)) }
        ensures flawed { IfOk result (λ flaw. IfSome flaw (IsFlawed self.old number (Pending.Access cell))) }
        ensures stopped { IfErr result (IsStoppedEnd self.old number (Pending.Access cell) most) }
        ensures few { IfOk result
            (λ flaw. IsNone flaw → (count : ℕ) → FewOpen (lives_of self.old) count
            → FewOpen (lives_of self.new) count) }
    {
        match end_in(&mut self.lives, self.alloc, number, cell, most)? {
            Some(AccessEnd::Explained) => Ok(None),
            Some(AccessEnd::Unexplained(answer)) => Ok(Some(Flaw::NoOrder(answer))),
            None => unreachable!(),
        }
    }

    /// Returns the live object that shares an address with a new object, or `None` if no live object does. If several
    /// do, the result is the one with the greatest address.
    fn overlapped(&self, object: NewObject) -> Option<NewObject>
        requires { 1 ≤ object.len }
        ensures none { IsNone result → AreDisjoint (lives_of self.now) (starts_of self.now)
            → Misses (lives_of self.now) object }
        ensures some { IfSome result (IsOverlapped (lives_of self.now) object) }
    {
        let last = u128::from(object.address) + u128::from(object.len) - 1;
        let cell = nearest(&self.starts, last)?;
        let life = self.lives.get(&cell)?;
        let other = life.object;
        if u128::from(other.address) > last {
            return None;
        }
        if end_of(other) <= u128::from(object.address) {
            return None;
        }
        Some(other)
    }
}

/// Handles the end of an access to the live object of a cell. Returns how the access ended, or `None` if no such access
/// is pending. The errors are those of `Life::end`.
fn end_in(
    lives: &mut BTreeMap<u32, Life>,
    alloc: Global,
    number: u32,
    cell: u32,
    most: usize,
) -> Result<Option<AccessEnd>, JudgeFault>
    ensures ended { IfOk result
        (λ ended. IfSome ended
        (λ end. HasEndedIn (get nat_cmp lives.old) (get nat_cmp lives.new) cell number (is_explained end))) }
    ensures told { IfOk result (λ ended. IfSome ended (IsToldIn (get nat_cmp lives.old) cell number)) }
    ensures none { IfOk result (λ ended. IsNone ended → IsGone (get nat_cmp lives.old) cell number) }
    ensures stopped { IfErr result (CannotEndIn (get nat_cmp lives.old) cell number most) }
{
    match lives.get_mut(&cell) {
        Some(life) => life.end(alloc, number, most),
        None => Ok(None),
    }
}

/// Returns the cell of the last live object that starts at or below `address`, or `None` if no live object does.
fn nearest(starts: &BTreeMap<u128, u32>, address: u128) -> Option<u32>
    ensures { IsNearest (get nat_cmp starts.now) address result }
{
    let (_, cell) = starts.range(..=address).next_back()?;
    Some(*cell)
}

/// The address after the last byte of an object.
fn end_of(object: NewObject) -> u128
    ensures { result ≡ object.address + object.len }
{
    u128::from(object.address) + u128::from(object.len)
}

/// Whether an object may have this length: 1 to 2^47 bytes.
fn is_fair_length(len: u64) -> bool
    ensures { IsTrue result ↔ ((1 ≤ len) × (len ≤ any_allocator.longest)) }
{
    len > 0 && len <= MAX_RECORDED_LENGTH
}

/// Returns the flaw of a `new` of this length that was refused for a reason that no allocator may have.
fn unfair_refusal(len: u64, refusal: Refusal) -> Flaw
    ensures { IsRefusalFlaw refusal result }
{
    if len == 0 {
        return Flaw::NoByte(RecordedReply::Refused(refusal));
    }
    Flaw::StrangeRefusal(refusal)
}

/// Whether an allocator may refuse a `new` of this length for this reason.
fn is_own_refusal(len: u64, refusal: Refusal) -> bool
    ensures { IsTrue result ↔ IsOwnRefusal any_allocator len refusal }
{
    match refusal {
        Refusal::Zero => len == 0,
        Refusal::TooLarge => len > 0,
        Refusal::NoPages | Refusal::NoAddresses => is_fair_length(len),
        _ => false,
    }
}
