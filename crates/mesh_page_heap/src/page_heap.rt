//! `PageHeap`: physical pages, page map, span index and running meshes together. A page heap assigns no serials, and
//! doesn't define the meaning of a heap.
ghost use Rattle.std.specs.Prelude.{◌≡◌, ℕ, ◌+◌, ◌<◌, ◌≤◌, ◌↔◌, Some, replicate, length, IsTrue, slice_get, slice_index, IfOk, IfErr, IfSome, IsSome, IsSomeAnd};
ghost use Rattle.std.specs.Bool.{OnFalse};
ghost use Rattle.std.specs.Option.{option_map};
ghost use Rattle.mesh_class.specs.Classes.{IsClass, slots_of};
ghost use Rattle.mesh_arena.specs.Pages.{run_of};
ghost use Rattle.mesh_page_heap.specs.Indexes.{layout_of};
ghost use Rattle.mesh_page_heap.specs.Layout.{AreInObject};
ghost use Rattle.model_heap.specs.Table.{empty_table, group_of, report_of, slot_address};
ghost use Rattle.mesh_page_heap.specs.PageHeapInvariant.{IsPageHeap};
ghost use Rattle.model_search.specs.Search.{view_of};
ghost use Rattle.model_heap.specs.Sound.{IsSound};
ghost use Rattle.mesh_spans.specs.Index.{GroupEntry, IsIndex, address_in, group_at, record_at, span_at};
ghost use Rattle.mesh_store.specs.Places.{AreBacked, IsBlocked, IsOpen, Saves, byte_of};
ghost use Rattle.mesh_page_heap.specs.PageHeap.{IsFreeSlot, IsFreshSpan, IsInSlotOf, IsPlace, IsPlaceFault, IsSpanFault, KeepsOutside, counts_told, table_emptied, table_in, table_with_object};

mod meshes;
mod shown;
mod sweep;

use crate::answers::{Occupied, Report};
use crate::growth::{give_pages, map_pages, take_pages};
use crate::running::MAX_MESHES;
use arrayvec::ArrayVec;
use mesh_class::Class;
use mesh_running::Running;
use mesh_search::{ClassView, class_view};
use mesh_spans::{Slot, Span, Spans};
use mesh_store::Store;
use model_words::{NewFault, Refusal};
use std::alloc::{AllocError, Global};
use std::marker::Model;

/// The virtual page after the last one.
const END_OF_VIRTUAL_PAGES: u32 = 65_536;

/// The bytes of a new object.
static ZEROS: [u8; 2048] = [0; 2048];

/// Physical pages, the page map over them, the index of the mapped spans, and the running meshes.
pub struct PageHeap {
    store: Store,
    spans: Spans,
    // The lowest virtual page that was never used.
    next_page: u32,
    // The running meshes in the order in which they began, at most one for each class.
    meshes: ArrayVec<Running, MAX_MESHES>,
}

impl Model for PageHeap {
    ghost use Rattle.model_heap.specs.Table.{empty_table, group_of, report_of, slot_address};
    ghost use Rattle.mesh_page_heap.specs.PageHeapInvariant.{IsPageHeap};
    ghost use Rattle.mesh_page_heap.specs.PageHeap.{PageHeap as Parts, page_heap_code};

    ghost Value = { Parts };

    ghost coded = { page_heap_code };

    ghost view = { λ g.
        record { arena = g.store.arena; map = g.store.map; index = g.spans; next_page = g.next_page; meshes = g.meshes.items } };

    ghost invariant = { λ g. IsPageHeap g.store.arena g.store.map g.spans g.next_page g.meshes.items };
}

#[rattlefmt::skip]
impl Drop for PageHeap {
    fn drop(self) { let PageHeap { store: _, spans: _, next_page: _, meshes: _ } = self; }
}

impl PageHeap {
    /// Creates a page heap without spans over `pages` physical pages, 1 to 4,096. Returns an error if an allocation
    /// fails.
    pub fn open(alloc: Global, pages: u32) -> Result<PageHeap, AllocError>
        requires some { 1 ≤ pages }
        requires most { pages ≤ 4096 }
        ensures table { IfOk result (λ g. table_in g ≡ empty_table pages) }
        ensures pages { IfOk result (λ g. length g.arena ≡ pages) }
    {
        let store = Store::open(alloc, pages)?;
        let spans = Spans::new(alloc)?;
        Ok(PageHeap {
            store,
            spans,
            next_page: 1,
            meshes: ArrayVec::new(),
        })
    }

    /// The invariant: groups, page map and arena have the layout that the running meshes require, the table is sound,
    /// and spans and groups agree.
    pub fn sound(&self)
        ensures pages { IsPageHeap self.now.arena self.now.map self.now.index self.now.next_page self.now.meshes }
        ensures index { IsIndex self.now.index.spans self.now.index.groups }
    {
        self.spans.sound();
    }

    /// Returns the slot for the next object of the class. It is the slot that `Spans::open_slot` returns or, if no
    /// group of the class is open, a slot of a new span. In the new span, it is the slot with the number `word` modulo
    /// the number of slots.
    ///
    /// If a new span is needed, the error is the first of these that applies:
    ///
    /// - NO_PAGES, if the arena has fewer free pages than the span needs.
    /// - NO_ADDRESSES, if fewer virtual pages are left than the span needs.
    /// - `Memory`, if an allocation for the records of the span fails.
    ///
    /// After an error, nothing has changed.
    pub fn place(&mut self, class: Class, word: u64) -> Result<(Span, Slot), NewFault>
        ensures ok { IfOk result (λ r. IsPlace self.old self.new class word r.0 r.1) }
        ensures err { IfErr result (IsPlaceFault self.old self.new class) }
    {
        self.spans.sound();
        match self.spans.open_slot(class, word) {
            Some(place) => Ok(place),
            None => {
                let span = self.add_span(class)?;
                let slot = (word % u64::from(class.slots())) as u32;
                Ok((span, Slot::numbered(slot)))
            }
        }
    }

    /// Adds a span of the class on the lowest virtual pages that were never used. The errors are those of `place`.
    /// After an error, nothing has changed.
    fn add_span(&mut self, class: Class) -> Result<Span, NewFault>
        ensures ok { IfOk result (λ span. IsFreshSpan self.old self.new class span) }
        ensures err { IfErr result (IsSpanFault self.old self.new class) }
        ensures class { IsClass class }
    {
        self.spans.sound();
        let count = class.pages();
        if self.store.arena.free_pages() < count {
            return Err(NewFault::Refused(Refusal::NoPages));
        }
        if END_OF_VIRTUAL_PAGES - self.next_page < count {
            return Err(NewFault::Refused(Refusal::NoAddresses));
        }
        let pages = take_pages(&mut self.store.arena, count);
        match self.spans.add_span(class, self.next_page, pages.as_slice()) {
            Ok(span) => {
                map_pages(&mut self.store.map, self.next_page, pages.as_slice());
                self.next_page += count;
                Ok(span)
            }
            Err(_) => {
                give_pages(&mut self.store.arena, pages.as_slice());
                Err(NewFault::Memory)
            }
        }
    }

    /// Places an object of `len` zeros in a vacant slot, and returns the object's address. The slot must be one of the
    /// first member of a group that is in no mesh.
    pub fn put(&mut self, span: Span, slot: Slot, serial: u32, len: u32) -> u32
        requires free { IsFreeSlot self.old.index (span_at self.old.index.spans span).class span slot }
        requires some { 1 ≤ len }
        requires fits { len ≤ (span_at self.old.index.spans span).class }
        requires sound { IsSound (table_with_object self.old span slot serial len) }
        ensures address { result ≡ address_in (span_at self.old.index.spans span) slot }
        ensures map { self.new.map ≡ self.old.map }
        ensures table { table_in self.new ≡ table_with_object self.old span slot serial len }
        ensures saves { Saves self.old.arena self.new.arena self.old.map result (replicate len 0) }
        ensures others { KeepsOutside self.old self.new result len }
    {
        self.spans.sound();
        let addr = self.spans.address(span, slot);
        clear(&mut self.store, addr, len);
        self.spans.occupy(span, slot, serial, len);
        self.spans.sound();
        addr
    }

    /// Removes an object from its slot. Arena and page map don't change.
    pub fn take_out(&mut self, span: Span, slot: Slot)
        requires there { IsSome (record_at self.old.index span slot) }
        requires sound { IsSound (table_emptied self.old span slot) }
        ensures arena { self.new.arena ≡ self.old.arena }
        ensures map { self.new.map ≡ self.old.map }
        ensures table { table_in self.new ≡ table_emptied self.old span slot }
    {
        self.spans.vacate(span, slot);
    }

    /// Returns the object whose slot contains an address. Returns `None` if no object's slot contains the address.
    pub fn occupied_at(&self, addr: u32) -> Option<Occupied>
        ensures there { IfSome result (λ o. IsInSlotOf self.now.index addr o.span o.slot o.offset o.serial o.len) }
        ensures found { (n place k o : ℕ) (group : GroupEntry) (serial len : ℕ)
            → group_at self.now.index.groups n ≡ Some group
            → place < length group.members → k < slots_of group.class → o < group.class
            → slice_get group.slots k ≡ Some (Some (record {
              member = (span_at self.now.index.spans (slice_index group.members place)).first;
              serial = serial;
              len = len;
            }))
            → slot_address (span_at self.now.index.spans (slice_index group.members place)).first group.class k + o
            ≡ addr
            → IsSomeAnd result (λ found. (found.serial ≡ serial) × (found.offset ≡ o) × (found.len ≡ len)) }
    {
        let (span, slot, offset) = self.spans.find(addr)?;
        let (serial, len) = self.spans.record(span, slot)?;
        Some(Occupied {
            span,
            slot,
            offset,
            serial,
            len,
        })
    }

    /// Returns the class of group `n`, or `None` if no group has this number.
    pub fn class_of(&self, n: u32) -> Option<Class>
        ensures { result ≡ option_map (λ g. g.class) (group_of (table_in self.now) n) }
    {
        let Some(group) = self.spans.group(n) else {
            return None;
        };
        Some(group.class())
    }

    /// Returns the candidates of a class: the groups that a search may pair. Returns an error if an allocation fails.
    pub fn view(&self, alloc: Global, class: Class) -> Result<ClassView, AllocError>
        ensures { IfOk result (λ view. view ≡ view_of (table_in self.now) class) }
    {
        class_view(alloc, &self.spans, class)
    }

    /// Returns the counts of the heap, without a visit to any group or page.
    pub fn report(&self) -> Report
        ensures { counts_told result ≡ report_of (length self.now.arena) (table_in self.now) }
    {
        let totals = self.spans.totals();
        let taken = self.store.arena.taken_pages();
        Report {
            objects: totals.objects,
            bytes: totals.bytes,
            mapped: totals.mapped,
            taken,
            // At most all mapped pages are taken.
            saved: totals.mapped.saturating_sub(taken),
        }
    }

    /// Fills `out` with the bytes from address `addr` on. All these bytes must belong to one live object.
    pub fn load(&self, addr: u32, out: &mut [u8])
        requires some { 1 ≤ length out.old }
        requires few { length out.old ≤ 2048 }
        requires object { AreInObject (layout_of self.now.index) addr (length out.old) }
        ensures { out.new ≡ run_of (byte_of self.now.arena self.now.map) addr (length out.old) }
    {
        self.spans.sound();
        self.store.load(addr, out);
    }

    /// Whether a store to `len` bytes of one object, from address `addr` on, is blocked.
    pub fn blocked(&self, addr: u32, len: u32) -> bool
        requires some { 1 ≤ len }
        requires few { len ≤ 2048 }
        requires object { AreInObject (layout_of self.now.index) addr len }
        ensures blocked { IsTrue result ↔ IsBlocked self.now.map addr len }
        ensures open { OnFalse result (IsOpen self.now.map addr len) }
    {
        self.spans.sound();
        self.store.blocked(addr, len)
    }

    /// Writes `bytes` from address `addr` on, within one live object. No page of this range may be read-only.
    pub fn save(&mut self, addr: u32, bytes: &[u8])
        requires some { 1 ≤ length bytes.now }
        requires few { length bytes.now ≤ 2048 }
        requires object { AreInObject (layout_of self.old.index) addr (length bytes.now) }
        requires writable { IsOpen self.old.map addr (length bytes.now) }
        ensures others { self.new ≡ record self.old { arena = self.new.arena } }
        ensures saves { Saves self.old.arena self.new.arena self.old.map addr bytes.now }
    {
        self.spans.sound();
        self.store.save(addr, bytes);
    }
}

/// Writes zeros at the addresses of a new object.
fn clear(store: &mut Store, addr: u32, len: u32)
    requires some { 1 ≤ len }
    requires few { len ≤ 2048 }
    requires backed { AreBacked store.old.arena store.old.map addr len }
    requires writable { IsOpen store.old.map addr len }
    ensures map { store.new.map ≡ store.old.map }
    ensures saves { Saves store.old.arena store.new.arena store.old.map addr (replicate len 0) }
{
    store.save(addr, &ZEROS[..len as usize]);
}
