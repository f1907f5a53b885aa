//! `TwoHeaps`: the heap that doesn't mesh and the heap that does.
ghost use Rattle.std.specs.Prelude.{◌≡◌, ℕ, ◌+◌, ◌<◌, ◌-◌, ◌^◌, ◌≤◌, IfOk, OnOk, is_ok, is_some, true, false, if◌then◌else◌, sum_by, IsTrue, Some};
ghost use Rattle.model_heap.specs.Table.{object_count, place_new};
ghost use Rattle.savings_replay.specs.Placement.{IsFreed, IsMade, table_of};
ghost use Rattle.savings_replay.specs.Records.{KeepsRecords};
ghost use Rattle.mesh_spans.specs.Index.{record_at};
ghost use Rattle.savings_replay.specs.Followed.{after_free, empty_heaps, small_live};
ghost use Rattle.savings_replay.specs.HeapChanges.{AreKept, has_room, HaveNoSerial, HaveSerial, IsAt, IsFreedFrom, IsMadeIn, heaps_of};
ghost use Rattle.savings_replay.specs.Meshing.{IsAfterPairs, after_round};
ghost use Rattle.savings_replay.specs.Mesher.{Fits, round_tries};

use crate::counts::MeshCounts;
use crate::meshing::Mesher;
use crate::objects::Places;
use crate::placement::Placement;
use crate::words::seeded;
use mesh_spans::{Slot, Span};
use model_words::NewFault;
use std::alloc::{AllocError, Global};

/// Two heaps: one that doesn't mesh, and one that does.
#[derive(Drop)]
pub(crate) struct TwoHeaps {
    pub without: Placement,
    pub mesher: Mesher,
}

/// Whether a slot of a span has an object.
fn has_object(placement: &Placement, place: (Span, Slot)) -> bool
    ensures { result ≡ is_some (record_at placement.now.index place.0 place.1) }
{
    let (span, slot) = place;
    placement.record(span, slot).is_some()
}

/// Frees the object in a slot of a span if `is_there`, which must be whether the slot has an object.
fn free_at(placement: &mut Placement, place: (Span, Slot), is_there: bool)
    requires { is_there ≡ is_some (record_at placement.old.index place.0 place.1) }
    ensures { (serial len : ℕ) → record_at placement.old.index place.0 place.1 ≡ Some (serial, len)
        → IsFreed placement.old placement.new place.0 place.1 }
{
    let (span, slot) = place;
    if is_there {
        placement.free(span, slot);
    }
}

/// Makes an object in a heap, in the slot that the heap chooses.
fn place(placement: &mut Placement, len: u32, word: u64) -> Result<(Span, Slot), AllocError>
    requires room { is_ok (place_new (table_of placement.old) len word placement.old.next_serial) ≡ true }
    requires serial { placement.old.next_serial < 2 ^ 32 - 1 }
    ensures { IfOk result (λ r. IsMade placement.old placement.new len word r.0 r.1) }
{
    match placement.new(len, word) {
        Ok(place) => Ok(place),
        Err(NewFault::Memory) => Err(AllocError),
        Err(NewFault::Refused(_)) => unreachable!(),
    }
}

impl TwoHeaps {
    /// Returns both heaps without objects. A mesh gives a group at most `members` members.
    pub(crate) fn open(
        alloc: Global,
        shuffle_seed: u64,
        members: u32,
    ) -> Result<TwoHeaps, AllocError>
        ensures heaps { IfOk result (λ heaps. heaps_of heaps ≡ empty_heaps shuffle_seed members) }
        ensures without_serial { IfOk result (λ heaps. heaps.without.next_serial ≡ 0) }
        ensures with_serial { IfOk result (λ heaps. heaps.mesher.placement.next_serial ≡ 0) }
    {
        Ok(TwoHeaps {
            without: Placement::open(alloc)?,
            mesher: Mesher {
                placement: Placement::open(alloc)?,
                counts: MeshCounts::none(),
                words: seeded(shuffle_seed),
                members,
            },
        })
    }

    /// Whether one of the heaps has used up all serial numbers.
    pub(crate) fn is_full(&self) -> bool
        ensures full { result ≡ true → HaveNoSerial self.now }
        ensures left { result ≡ false → HaveSerial self.now }
    {
        self.without.is_full() || self.mesher.placement.is_full()
    }

    /// Whether both heaps have room for an object of this length.
    pub(crate) fn has_room(&self, len: u32) -> bool
        requires some { 1 ≤ len }
        requires small { len ≤ 2048 }
        ensures { (word serial : ℕ) → has_room self.now len word serial ≡ result }
    {
        self.without.has_room(len) && self.mesher.placement.has_room(len)
    }

    /// Makes an object of this length in both heaps, with the same word.
    pub(crate) fn new(&mut self, len: u32, word: u64) -> Result<Places, AllocError>
        requires serials { HaveSerial self.old }
        requires without { is_ok (place_new (table_of self.old.without) len word self.old.without.next_serial) ≡ true }
        requires with { is_ok (place_new
            (table_of self.old.mesher.placement) len word self.old.mesher.placement.next_serial) ≡ true }
        ensures made { IfOk result (λ places. IsMadeIn self.old self.new len word places) }
        ensures counts { self.new.mesher.counts ≡ self.old.mesher.counts }
    {
        let without = place(&mut self.without, len, word)?;
        let with = place(&mut self.mesher.placement, len, word)?;
        Ok(Places { without, with })
    }

    /// Frees an object in both heaps, and returns the number of objects that are left in each. Both heaps are read
    /// before one is changed, because the reads of memory then overlap.
    pub(crate) fn free(&mut self, places: Places) -> u32
        ensures freed { (serial len : ℕ) → IsAt self.old places serial len → IsFreedFrom self.old self.new serial }
        ensures counts { self.new.mesher.counts ≡ self.old.mesher.counts }
        ensures left { result ≡ small_live (heaps_of self.new) }
    {
        let in_without = has_object(&self.without, places.without);
        let in_with = has_object(&self.mesher.placement, places.with);
        free_at(&mut self.without, places.without, in_without);
        free_at(&mut self.mesher.placement, places.with, in_with);
        self.without.totals().objects
    }

    /// Makes a round. It removes the empty groups of both heaps, and then searches and meshes each class of the heap
    /// that meshes.
    fn round(&mut self, alloc: Global, probe: u32) -> Result<(), AllocError>
        requires { Fits self.old.mesher.counts 327680 round_tries }
        ensures value { OnOk result (heaps_of self.new ≡ after_round probe (heaps_of self.old)) }
        ensures counts { IsAfterPairs self.old.mesher.counts self.new.mesher.counts 327680 round_tries }
        ensures kept { AreKept self.old self.new }
    {
        self.without.sweep_empty();
        self.mesher.placement.sweep_empty();
        self.mesher.mesh_classes(alloc, probe)
    }

    /// Makes a round if `is_due`.
    pub(crate) fn round_if_due(
        &mut self,
        alloc: Global,
        is_due: bool,
        probe: u32,
    ) -> Result<(), AllocError>
        requires { IsTrue is_due → Fits self.old.mesher.counts 327680 round_tries }
        ensures value { OnOk result (heaps_of self.new ≡ after_free probe (heaps_of self.old) is_due) }
        ensures kept { AreKept self.old self.new }
        ensures counts { IsAfterPairs self.old.mesher.counts self.new.mesher.counts (if is_due then 327680 else 0)
            (if is_due then round_tries else 0) }
    {
        if is_due {
            self.round(alloc, probe)?;
        }
        Ok(())
    }
}
