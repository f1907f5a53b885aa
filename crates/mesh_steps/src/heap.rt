//! `Heap`: the calls that make, read, write, copy and free objects. A mesher's calls are in `meshes`, and the views
//! that its search reads are in `views`.
ghost use Rattle.std.specs.Prelude.{◌≡◌, ℕ, ◌+◌, ◌-◌, ◌^◌, ◌<◌, ◌≤◌, true, false, Ok, Err, Some, [], ◌∷◌, length, List, Option, IfOk, IfErr, IfSome, IfNone, IsSomeAnd, is_ok};
ghost use Rattle.model_heap.specs.Mesh.{is_blocked};
ghost use Rattle.model_heap.specs.Places.{Record, IsIn, record_with};
ghost use Rattle.model_memory.specs.Plain.{holding};
ghost use Rattle.model_heap.specs.Table.{empty_table, report_of};
ghost use Rattle.mesh_steps.specs.Always.{HasHeldPagesTaken, HasObjectsApart, HasPlacesApart, HasReadOnlyOfMeshes, LiesAsMeshesHaveIt};
ghost use Rattle.mesh_page_heap.specs.PageHeap.{counts_told};
ghost use Rattle.mesh_steps.specs.Heap.{IsFree, IsHeap, IsHeld, IsHeldBack, IsLiveFor, IsMade, IsNotMade, IsObjectAt, IsReferred, IsRefused, IsStore, IsStored, arena_of, byte_at_address, bytes_at, copied_at, freed_at, live_records, memory_of, plain_of, referred, stored_at, stored_at_address, stored_in, table_of};

mod meshes;
mod shown;
mod views;

use crate::{NewFault, Ref, Report, Stored};
use arrayvec::ArrayVec;
use mesh_class::class_of;
use mesh_page_heap::{Occupied, PageHeap};
use model_words::{MAX_BYTES, Refusal};
use std::alloc::{AllocError, Global};
use std::marker::Model;

/// A heap of objects in slots of spans, over modelled physical pages and a page map.
pub struct Heap {
    pages: PageHeap,
    // The serial of the next object.
    next_serial: u32,
}

impl Model for Heap {
    ghost use Rattle.mesh_steps.specs.Heap.{Heap as State, heap_code, IsHeap};

    ghost Value = { State };

    ghost coded = { heap_code };

    ghost view = { λ h. record { pages = h.pages; next_serial = h.next_serial } };

    ghost invariant = { λ h. IsHeap (record { pages = h.pages; next_serial = h.next_serial }) };
}

#[rattlefmt::skip]
impl Drop for Heap {
    fn drop(self) { let Heap { pages: _, next_serial: _ } = self; }
}

impl Heap {
    /// Returns a heap without objects over `pages` physical pages, 1 to 4,096. The call allocates the arena, the page
    /// map and the index's table. Returns an error if an allocation fails.
    pub fn open(alloc: Global, pages: u32) -> Result<Heap, AllocError>
        requires some { 1 ≤ pages }
        requires most { pages ≤ 4096 }
        ensures table { IfOk result (λ heap. table_of heap ≡ empty_table pages) }
        ensures memory { IfOk result
            (λ heap. (roots : List (Option ℕ)) → memory_of heap roots ≡ record { objects = []; roots = roots }) }
        ensures serial { IfOk result (λ heap. heap.next_serial ≡ 0) }
        ensures pages { IfOk result (λ heap. length (arena_of heap) ≡ pages) }
    {
        let pages = PageHeap::open(alloc, pages)?;
        Ok(Heap {
            pages,
            next_serial: 0,
        })
    }

    /// Whether all serial numbers are used up. `new` must not be called then.
    pub fn is_full(&self) -> bool
        ensures full { result ≡ true → 2 ^ 32 - 1 ≤ self.now.next_serial }
        ensures left { result ≡ false → self.now.next_serial < 2 ^ 32 - 1 }
    {
        self.next_serial == u32::MAX
    }

    /// Makes an object of `len` zero bytes, and returns a reference to it. `word` picks one of the free slots of the
    /// object's group. `is_full` must be false before the call.
    ///
    /// The error is the first that applies, in this order: ZERO, TOO_LARGE, NO_PAGES, NO_ADDRESSES. If none applies,
    /// but an allocation for a new span fails, the error is `Memory`. After an error, nothing has changed.
    pub fn new(&mut self, len: u32, word: u64) -> Result<Ref, NewFault>
        requires { self.old.next_serial < 2 ^ 32 - 1 }
        ensures made { IfOk result (IsMade self.old self.new len word) }
        ensures fault { IfErr result (IsNotMade self.old self.new len word) }
    {
        let class = class_of(len)?;
        let (span, slot) = self.pages.place(class, word)?;
        let serial = self.next_serial;
        let addr = self.pages.put(span, slot, serial, len);
        self.next_serial += 1;
        Ok(Ref { serial, addr })
    }

    /// Returns `len` bytes, 1 to 32, from offset `off` of an object. The call allocates nothing.
    ///
    /// The error is FREED if the object isn't live, and otherwise OUTSIDE if `off + len` exceeds the object's length.
    pub fn read(&self, object: Ref, off: u32, len: u32) -> Result<ArrayVec<u8, MAX_BYTES>, Refusal>
        requires some { 1 ≤ len }
        requires few { len ≤ 32 }
        ensures bytes { IfOk result (λ bytes. bytes_at (plain_of self.now) object off len ≡ Ok bytes.items) }
        ensures refused { IfErr result (λ refusal. bytes_at (plain_of self.now) object off len ≡ Err refusal) }
    {
        let Some(live) = self.live(object) else {
            return Err(Refusal::Freed);
        };
        if !live.has_range(off, len) {
            return Err(Refusal::Outside);
        }
        Ok(self.fetch(object, off, len))
    }

    /// Stores 1 to 32 bytes in an object, from offset `off` on. The call allocates nothing.
    ///
    /// The store is refused with FREED if the object isn't live, and otherwise with OUTSIDE if the range ends past the
    /// object. If neither applies, a store that would write to a read-only page is blocked. A refused or blocked call
    /// stores no byte.
    pub fn write(&mut self, object: Ref, off: u32, bytes: &[u8]) -> Stored
        requires some { 1 ≤ length bytes.now }
        requires few { length bytes.now ≤ 32 }
        ensures done { result ≡ Stored.Done
            → IsStored self.old self.new (stored_at (plain_of self.old) object off bytes.now)
            (is_blocked (table_of self.old) (object.addr + off) (length bytes.now)) }
        ensures blocked { result ≡ Stored.Blocked
            → IsHeldBack self.old self.new (stored_at (plain_of self.old) object off bytes.now)
            (is_blocked (table_of self.old) (object.addr + off) (length bytes.now)) }
        ensures refused { (refusal : Refusal) → result ≡ Stored.Refused refusal
            → IsRefused self.old self.new (stored_at (plain_of self.old) object off bytes.now) refusal }
    {
        let Some(live) = self.live(object) else {
            return Stored::Refused(Refusal::Freed);
        };
        if !live.has_range(off, bytes.len() as u32) {
            return Stored::Refused(Refusal::Outside);
        }
        self.save(object.serial, object.addr, off, bytes)
    }

    /// Copies 1 to 32 bytes from offset `from_off` of one object to offset `to_off` of another object, or of the same
    /// object. The call allocates nothing.
    ///
    /// If the two ranges overlap, the written bytes are those that the range to read contained before the copy. The
    /// copy is refused with FREED if either object isn't live, and otherwise with OUTSIDE if either range ends past its
    /// object. If neither applies, a copy that would write to a read-only page is blocked. A read-only page in the
    /// range to read doesn't block the copy. A refused or blocked call stores no byte.
    pub fn copy(&mut self, to: Ref, to_off: u32, from: Ref, from_off: u32, len: u32) -> Stored
        requires some { 1 ≤ len }
        requires few { len ≤ 32 }
        ensures done { result ≡ Stored.Done
            → IsStored self.old self.new (copied_at (plain_of self.old) to to_off from from_off len)
            (is_blocked (table_of self.old) (to.addr + to_off) len) }
        ensures blocked { result ≡ Stored.Blocked
            → IsHeldBack self.old self.new (copied_at (plain_of self.old) to to_off from from_off len)
            (is_blocked (table_of self.old) (to.addr + to_off) len) }
        ensures refused { (refusal : Refusal) → result ≡ Stored.Refused refusal
            → IsRefused self.old self.new (copied_at (plain_of self.old) to to_off from from_off len) refusal }
    {
        let Some(target) = self.live(to) else {
            return Stored::Refused(Refusal::Freed);
        };
        let Some(source) = self.live(from) else {
            return Stored::Refused(Refusal::Freed);
        };
        if !target.has_range(to_off, len) || !source.has_range(from_off, len) {
            return Stored::Refused(Refusal::Outside);
        }
        let bytes = self.fetch(from, from_off, len);
        self.save(to.serial, to.addr, to_off, bytes.as_slice())
    }

    /// Returns the byte at an address. The call allocates nothing. The error is STRAY if no live object's range
    /// contains the address.
    pub fn peek(&self, addr: u32) -> Result<u8, Refusal>
        ensures byte { IfOk result (λ byte. byte_at_address (plain_of self.now) addr ≡ Ok byte) }
        ensures refused { IfErr result (λ refusal. byte_at_address (plain_of self.now) addr ≡ Err refusal) }
    {
        let Some(_held) = self.holder(addr) else {
            return Err(Refusal::Stray);
        };
        let mut byte = [0];
        self.pages.load(addr, &mut byte);
        Ok(byte[0])
    }

    /// Stores a byte at an address. The call allocates nothing.
    ///
    /// The store is refused with STRAY if no live object's range contains the address. Otherwise, the store is blocked
    /// if the page of the address is read-only. A refused or blocked call stores no byte.
    pub fn poke(&mut self, addr: u32, byte: u8) -> Stored
        ensures done { result ≡ Stored.Done
            → IsStored self.old self.new (stored_at_address (plain_of self.old) addr byte)
            (is_blocked (table_of self.old) addr 1) }
        ensures blocked { result ≡ Stored.Blocked
            → IsHeldBack self.old self.new (stored_at_address (plain_of self.old) addr byte)
            (is_blocked (table_of self.old) addr 1) }
        ensures refused { (refusal : Refusal) → result ≡ Stored.Refused refusal
            → IsRefused self.old self.new (stored_at_address (plain_of self.old) addr byte) refusal }
    {
        let Some(held) = self.holder(addr) else {
            return Stored::Refused(Refusal::Stray);
        };
        self.save(held.serial, addr - held.offset, held.offset, &[byte])
    }

    /// Frees an object by emptying the record of its slot. Arena and page map don't change. The error is FREED if the
    /// object isn't live. After an error, nothing has changed.
    pub fn free(&mut self, object: Ref) -> Result<(), Refusal>
        ensures freed { IfOk result (λ _. IsFree self.old self.new object) }
        ensures refused { IfErr result
            (λ refusal. (freed_at (plain_of self.old) object ≡ Err refusal) × (self.new ≡ self.old)) }
    {
        let live = self.live(object).ok_or(Refusal::Freed)?;
        self.pages.take_out(live.span, live.slot);
        Ok(())
    }

    /// Whether a reference names a live object.
    pub fn is_live(&self, object: Ref) -> bool
        ensures { result ≡ is_ok (referred (plain_of self.now) object) }
    {
        self.live(object).is_some()
    }

    /// Returns the heap's counts: live objects and their bytes, mapped and taken pages, and the number of pages that
    /// meshing saves. The call allocates nothing, and its time doesn't depend on the number of groups.
    pub fn report(&self) -> Report
        ensures { counts_told result ≡ report_of (length (arena_of self.now)) (table_of self.now) }
    {
        self.pages.report()
    }

    /// Invariants of every heap:
    ///
    /// - No two live objects share an address.
    /// - No two bytes of live objects share a place in physical memory.
    /// - No free page contains a live object.
    /// - The read-only virtual pages are exactly those that the running meshes have protected.
    /// - Groups, page map and arena agree with the progress of the running meshes.
    pub fn always(&self)
        ensures objects { HasObjectsApart self.now }
        ensures places { HasPlacesApart self.now }
        ensures held { HasHeldPagesTaken self.now }
        ensures read_only { HasReadOnlyOfMeshes self.now }
        ensures laid_out { LiesAsMeshesHaveIt self.now }
    {
        self.pages.sound();
    }

    /// Invariants of the heap's table: the table is sound, and its records are those of the live objects.
    pub fn sound(&self)
        ensures { IsHeap self.now }
    {
        let _next = self.next_serial;
    }

    /// Returns `len` bytes of a live object, from offset `off` on.
    fn fetch(&self, object: Ref, off: u32, len: u32) -> ArrayVec<u8, MAX_BYTES>
        requires some { 1 ≤ len }
        requires few { len ≤ 32 }
        requires live { IsLiveFor self.now object.serial object.addr (off + len) }
        ensures bytes { bytes_at (plain_of self.now) object off len ≡ Ok result.items }
        ensures count { length result.items ≡ len }
    {
        self.pages.sound();
        let mut bytes = ArrayVec::from([0; MAX_BYTES]);
        bytes.truncate(len as usize);
        self.pages.load(object.addr + off, bytes.as_mut_slice());
        bytes
    }

    /// Stores bytes in a live object, from offset `off` on. Returns `Blocked`, and stores nothing, if a page of the
    /// range is read-only.
    fn save(&mut self, serial: u32, addr: u32, off: u32, bytes: &[u8]) -> Stored
        requires some { 1 ≤ length bytes.now }
        requires few { length bytes.now ≤ 32 }
        requires live { IsLiveFor self.old serial addr (off + length bytes.now) }
        ensures { IsStore self.old self.new (stored_in self.old serial addr off bytes.now)
            (is_blocked (table_of self.old) (addr + off) (length bytes.now)) result }
    {
        self.pages.sound();
        let from = addr + off;
        if self.pages.blocked(from, bytes.len() as u32) {
            return Stored::Blocked;
        }
        self.pages.save(from, bytes);
        Stored::Done
    }

    /// The object that a reference names. `None` if the reference is stale.
    fn live(&self, object: Ref) -> Option<Occupied>
        ensures there { IfSome result (IsReferred self.now object) }
        ensures none { IfNone result (referred (plain_of self.now) object ≡ Err Refusal.Freed) }
        ensures sound { IsHeap self.now }
    {
        let found = self.object_at(object.addr)?;
        if found.offset == 0 && found.serial == object.serial {
            Some(found)
        } else {
            None
        }
    }

    /// Returns the object whose range contains the address, or `None` if no live object's range does.
    fn holder(&self, addr: u32) -> Option<Occupied>
        ensures there { IfSome result (IsHeld self.now addr) }
        ensures none { IfNone result (holding (plain_of self.now) addr ≡ Err Refusal.Stray) }
        ensures sound { IsHeap self.now }
    {
        let found = self.object_at(addr)?;
        if found.offset < found.len {
            Some(found)
        } else {
            None
        }
    }

    /// Returns the object whose slot contains the address. If the range of a live object contains the address, the
    /// result is this object.
    fn object_at(&self, addr: u32) -> Option<Occupied>
        ensures there { IfSome result (IsObjectAt self.now addr) }
        ensures found { (serial : ℕ) (r : Record) → record_with serial (live_records self.now) ≡ Some r → IsIn r addr
            → IsSomeAnd result (λ o. (o.serial ≡ serial) × (r.address + o.offset ≡ addr) × (o.len ≡ r.len)) }
        ensures sound { IsHeap self.now }
    {
        self.pages.sound();
        self.pages.occupied_at(addr)
    }
}
