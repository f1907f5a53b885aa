//! `Timeline`, which handles the starts and ends of calls in the order of time.
ghost use Rattle.std.specs.Prelude.{◌≡◌, ◌⊎◌, ◌↔◌, ◌+◌, ◌*◌, ◌++◌, ◌∷◌, ◌<◌, ◌≤◌, ◌^◌, [], ℕ, List, IfErr, IfOk, IfSome, IsNone, OnOk, Some, length};
ghost use Rattle.std.specs.Ordering.{nat_cmp};
ghost use Rattle.std.specs.BTreeMap.{Updates, get};
ghost use Rattle.model_intervals.specs.Intervals.{Call};
ghost use Rattle.model_intervals.specs.OverlappingCalls.{HasEffect};
ghost use Rattle.text_fields.specs.Commands.{plain_command};
ghost use Rattle.text_words.specs.RecordedWords.{plain_entry, plain_reply};
ghost use Rattle.history_number_set.specs.Ranges.{Has};
ghost use Rattle.history_overlaps.specs.Ends.{AreEnded, IsFirstBefore, IsRuledOut, NoneBefore, Past};
ghost use Rattle.history_overlaps.specs.Queues.{MayBegin};
ghost use Rattle.history_overlaps.specs.Standing.{IsMisusedSo, Stands, lives_of, waits_of};
ghost use Rattle.history_overlaps.specs.Stops.{IsStoppedBefore, IsStoppedSo};
ghost use Rattle.history_overlaps.specs.Timelines.{FewOpen};

use crate::life::Life;
use crate::misuses::NotBegun;
use crate::pending::Pending;
use crate::stops::{Found, Stop};
use history_number_set::NumberSet;
use history_reading::RecordedEntry;
use std::alloc::{AllocError, Global};
use std::collections::BTreeMap;

/// One more than the greatest number of a call. The key of a waiting call is the call's end times `NUMBERS`, plus the
/// call's number.
pub(crate) const NUMBERS: u128 = 4_294_967_296;

/// The calls that have begun and not ended, and the live objects.
#[derive(Drop)]
pub struct Timeline {
    /// The calls that wait for their ends, sorted by end and then by number.
    pub(crate) waiting: BTreeMap<u128, Pending>,
    /// The live objects by their cells.
    pub(crate) lives: BTreeMap<u32, Life>,
    /// The cells of the live objects by their addresses.
    pub(crate) starts: BTreeMap<u128, u32>,
    /// The cell of each `new` that has begun.
    pub(crate) cells: NumberSet,
    /// The serials of all objects that were made.
    pub(crate) serials: NumberSet,
    /// The cells of the objects whose `free` has begun.
    pub(crate) freed: NumberSet,
    pub(crate) alloc: Global,
}

impl Timeline {
    /// Creates a timeline without calls, and allocates nothing.
    pub fn new(alloc: Global) -> Timeline
        ensures stands { Stands [] result }
        ensures few { FewOpen (lives_of result) 0 }
    {
        Timeline {
            waiting: BTreeMap::new(alloc),
            lives: BTreeMap::new(alloc),
            starts: BTreeMap::new(alloc),
            cells: NumberSet::new(alloc),
            serials: NumberSet::new(alloc),
            freed: NumberSet::new(alloc),
            alloc,
        }
    }

    /// Handles the start of the next call. `number` is the number of calls that began before this call. `end` and
    /// `entry` are the end and the entry of this call. The end is 2^64 if the call was pending when the recording
    /// stopped.
    ///
    /// The error is `Misused` if this call breaks a rule of use, or if this is a `free` and an access to the object is
    /// pending, which then breaks a rule. It is `TooManyPending` if 64 accesses to the call's object are already
    /// pending, and `Memory` if an allocation fails. After an error, the timeline must not be used.
    pub fn begin(&mut self, number: u32, end: u128, entry: &RecordedEntry) -> Result<(), NotBegun>
        requires in_time { end ≤ 2 ^ 64 }
        requires effect { HasEffect (plain_command entry.now.command) (plain_reply entry.now.reply) }
        requires few { FewOpen (lives_of self.old) number }
        ensures stands { OnOk result ((calls : List Call) (begin : ℕ) → length calls ≡ number → Stands calls self.old
            → MayBegin calls (waits_of self.old) (record { begin = begin; end = end; entry = plain_entry entry.now })
            → Stands (calls ++ record { begin = begin; end = end; entry = plain_entry entry.now } ∷ []) self.new) }
        ensures misused { IfErr result (IsMisusedSo self.old number (plain_entry entry.now)) }
        ensures stopped { IfErr result (IsStoppedSo self.old number (plain_entry entry.now)) }
        ensures past { OnOk result
            ((calls : List Call) (call : Call) (moment : ℕ) → length calls ≡ number → call.end ≡ end
            → Past calls (waits_of self.old) moment
            → Past (calls ++ call ∷ []) (waits_of self.new) moment) }
        ensures few { OnOk result (FewOpen (lives_of self.new) (number + 1)) }
    {
        let pending = self.begun(number, entry)?;
        let key = end * NUMBERS + u128::from(number);
        set(&mut self.waiting, key, pending)?;
        Ok(())
    }

    /// Handles the ends before `moment`, in the order of time. Returns the first flaw that is found, or `None` if no
    /// flaw is found.
    ///
    /// The error is `TooMany` if more than `most` configurations of an object are met at the end of a call, and
    /// `Memory` if an allocation fails. After a flaw or an error, the timeline must not be used.
    pub fn end_before(&mut self, moment: u128, most: usize) -> Result<Option<Found>, Stop>
        requires moment { moment ≤ 2 ^ 64 }
        requires stands { (calls : List Call) × Stands calls self.old }
        ensures ended { IfOk result
            (λ found. IsNone found → AreEnded self.old self.new moment × NoneBefore (waits_of self.new) moment) }
        ensures flawed { IfOk result (λ found. IfSome found (IsRuledOut self.old moment)) }
        ensures stopped { IfErr result (IsStoppedBefore self.old moment most) }
    {
        while let Some((number, pending)) = first_before(&mut self.waiting, moment) {
            match self.ended(number, pending, most) {
                Ok(None) => {}
                Ok(Some(flaw)) => return Ok(Some(Found { number, flaw })),
                Err(fault) => return Err(Stop { number, fault }),
            }
        }
        Ok(None)
    }
}

/// Removes the waiting call with the first end, if this end is before `moment`. Returns the call's number, and what
/// must be done at its end. Returns `None`, and changes nothing, if no waiting call ends before `moment`.
fn first_before(waiting: &mut BTreeMap<u128, Pending>, moment: u128) -> Option<(u32, Pending)>
    requires { moment ≤ 2 ^ 64 }
    ensures some { IfSome result
        (λ found. IsFirstBefore (get nat_cmp waiting.old) (get nat_cmp waiting.new) moment found.0 found.1) }
    ensures fewer { IfSome result (λ _. length waiting.new.entries < length waiting.old.entries) }
    ensures none { IsNone result → (waiting.new ≡ waiting.old) × NoneBefore (get nat_cmp waiting.old) moment }
{
    let (key, _) = waiting.first_key_value()?;
    if *key >= moment * NUMBERS {
        return None;
    }
    let (key, pending) = waiting.pop_first()?;
    Some(((key % NUMBERS) as u32, pending))
}

/// Inserts a value under a key.
pub(crate) fn set<K: Ord + Drop, T: Drop>(
    map: &mut BTreeMap<K, T>,
    key: K,
    value: T,
) -> Result<(), AllocError>
    ensures { OnOk result (Updates K.cmp map.old map.new key (Some value)) }
{
    map.insert(key, value)?;
    Ok(())
}

/// Adds a number to a set unless the set has it.
pub(crate) fn add(set: &mut NumberSet, number: u32) -> Result<(), AllocError>
    ensures { OnOk result ((n : ℕ) → Has set.new n ↔ ((n ≡ number) ⊎ Has set.old n)) }
{
    if set.contains(number) {
        return Ok(());
    }
    set.add(number)
}
