//! `Placement`: where the objects of a heap are. Its sweeps and meshes are in `meshes`.
ghost use Rattle.std.specs.Prelude.{◌≡◌, ℕ, ◌+◌, ◌-◌, ◌^◌, ◌<◌, ◌≤◌, true, false, Some, Err, IfErr, IfOk, IfSome, IsSome, All, is_ok, map, sum_by};
ghost use Rattle.model_heap.specs.PageCounts.{span_pages};
ghost use Rattle.model_heap.specs.Table.{empty_table, object_count, place_new, room_for_span};
ghost use Rattle.model_heap.specs.Mesh.{page_count};
ghost use Rattle.model_search.specs.Search.{view_of};
ghost use Rattle.model_words.specs.Classes.{pages_of, table};
ghost use Rattle.model_words.specs.declared.answers.NewFault.TheVariants.{Refused};
ghost use Rattle.model_words.specs.declared.refusals.Refusal.TheVariants.{NoPages};
ghost use Rattle.savings_replay.specs.ClassCounts.{class_objects, empty_pages, held_pages};
ghost use Rattle.savings_replay.specs.ClassLaws.{FitsPages};
ghost use Rattle.savings_replay.specs.Placement.{GoesToSpan, IsFreed, IsMade, IsNotMade, IsPlacement, supply, table_of};
ghost use Rattle.mesh_spans.specs.Counts.{byte_count};
ghost use Rattle.mesh_spans.specs.Index.{IsIndex, IsRecorded, record_at};
ghost use Rattle.savings_replay.specs.Meshing.{members_at};

mod meshes;
mod pages;

use crate::class_counts::ClassCounts;
use crate::growth::add_span;
use crate::placement::pages::empty_pages_at;
use mesh_class::{Class, class_of};
use mesh_search::{ClassView, class_view};
use mesh_spans::{Slot, Span, Spans, Totals};
use model_words::{NewFault, Refusal};
use std::alloc::{AllocError, Global};
use std::marker::Model;

/// The virtual page after the last one.
const END_OF_VIRTUAL_PAGES: u32 = 65_536;

/// The number of physical pages. It is larger than the number of virtual pages, so a new span always gets physical
/// pages.
const PHYSICAL_PAGES: u32 = 65_538;

/// Where the objects of a heap are.
///
/// Objects have serials, counted from 0. An object stays in one slot of one span until it is freed, even if its group
/// is meshed.
pub struct Placement {
    spans: Spans,
    // The lowest virtual page that was never used.
    next_page: u32,
    // The number of physical pages of all groups.
    taken_pages: u32,
    // The serial of the next object.
    next_serial: u32,
    // The number of physical pages of each class's groups that have an object.
    held_pages: ClassCounts,
    // The number of objects of each class.
    class_objects: ClassCounts,
}

impl Model for Placement {
    ghost use Rattle.savings_replay.specs.ClassCounts.{AreClassCounts};
    ghost use Rattle.savings_replay.specs.Placement.{IsPlacement, Placement as Parts, placement_code};

    ghost Value = { Parts };

    ghost coded = { placement_code };

    ghost view = { λ p.
        record { index = p.spans; next_page = p.next_page; taken_pages = p.taken_pages; next_serial = p.next_serial } };

    ghost invariant = { λ p.
        IsPlacement (record { index = p.spans; next_page = p.next_page; taken_pages = p.taken_pages; next_serial = p.next_serial })
        × AreClassCounts p.spans.groups p.held_pages.counts p.class_objects.counts };
}

#[rattlefmt::skip]
impl Drop for Placement {
    fn drop(self) { let Placement { spans: _, next_page: _, taken_pages: _, next_serial: _, held_pages: _, class_objects: _ } = self; }
}

impl Placement {
    /// Makes a placement without objects, and allocates the table of virtual pages. Returns an error if the allocation
    /// fails.
    pub fn open(alloc: Global) -> Result<Placement, AllocError>
        ensures table { IfOk result (λ p. table_of p ≡ empty_table supply) }
        ensures serial { IfOk result (λ p. p.next_serial ≡ 0) }
    {
        let spans = Spans::new(alloc)?;
        Ok(Placement {
            spans,
            next_page: 1,
            taken_pages: 0,
            next_serial: 0,
            held_pages: ClassCounts::none(),
            class_objects: ClassCounts::none(),
        })
    }

    /// The invariant: the table is sound, spans and groups fit together, and each class has the pages that its objects
    /// need.
    pub fn sound(&self)
        ensures placement { IsPlacement self.now }
        ensures index { IsIndex self.now.index.spans self.now.index.groups }
        ensures fits { FitsPages (table_of self.now) }
    {
        self.spans.sound();
    }

    /// Whether all serial numbers are used up. `new` must not be called then.
    pub fn is_full(&self) -> bool
        ensures full { result ≡ true → 2 ^ 32 - 1 ≤ self.now.next_serial }
        ensures left { result ≡ false → self.now.next_serial < 2 ^ 32 - 1 }
    {
        self.next_serial == u32::MAX
    }

    /// Makes an object of `len` bytes with the next serial. The object's slot is the one that a heap would choose. It
    /// is in the group with the lowest number among the groups of the object's class that have a free slot. If there is
    /// no such group, it is in a new span. `word` selects one of the free slots. `is_full` must be false before the
    /// call.
    ///
    /// The error is the first that applies, in this order: ZERO, TOO_LARGE, NO_ADDRESSES. If none applies, but the
    /// allocation for a new span fails, the error is `Memory`. NO_PAGES is never returned, because there are always
    /// enough physical pages. After an error, nothing has changed.
    pub fn new(&mut self, len: u32, word: u64) -> Result<(Span, Slot), NewFault>
        requires { self.old.next_serial < 2 ^ 32 - 1 }
        ensures made { IfOk result (λ r. IsMade self.old self.new len word r.0 r.1) }
        ensures fault { IfErr result (IsNotMade self.old self.new len word) }
        ensures pages { result ≡ Err (Refused NoPages) → ⊥ }
    {
        let class = class_of(len)?;
        self.spans.sound();
        let Some(place) = self.spans.open_slot(class, word) else {
            return self.new_in_span(class, len, word);
        };
        let (span, slot) = place;
        let pages = empty_pages_at(&self.spans, span);
        self.spans.occupy(span, slot, self.next_serial, len);
        self.held_pages.raise(class, pages);
        self.class_objects.raise(class, 1);
        self.next_serial += 1;
        Ok(place)
    }

    /// Makes an object in a new span of its class.
    fn new_in_span(&mut self, class: Class, len: u32, word: u64) -> Result<(Span, Slot), NewFault>
        requires goes { GoesToSpan (table_of self.old) len class }
        requires fits { len ≤ class }
        requires serial { self.old.next_serial < 2 ^ 32 - 1 }
        ensures made { IfOk result (λ r. IsMade self.old self.new len word r.0 r.1) }
        ensures fault { IfErr result (IsNotMade self.old self.new len word) }
        ensures pages { result ≡ Err (Refused NoPages) → ⊥ }
    {
        self.spans.sound();
        let count = class.pages();
        if PHYSICAL_PAGES - self.taken_pages < count {
            return Err(NewFault::Refused(Refusal::NoPages));
        }
        if END_OF_VIRTUAL_PAGES - self.next_page < count {
            return Err(NewFault::Refused(Refusal::NoAddresses));
        }
        let Ok(span) = add_span(&mut self.spans, class, self.next_page) else {
            return Err(NewFault::Memory);
        };
        let slot = Slot::numbered((word % u64::from(class.slots())) as u32);
        self.spans.occupy(span, slot, self.next_serial, len);
        self.held_pages.raise(class, count);
        self.class_objects.raise(class, 1);
        self.next_page += count;
        self.taken_pages += count;
        self.next_serial += 1;
        Ok((span, slot))
    }

    /// Whether a `new` of `len` bytes finds room: virtual pages left for a new span, or an open group of its class.
    ///
    /// The answer is the same for every word and every serial. Even if there is room, `new` fails if an allocation for
    /// a new span fails.
    pub fn has_room(&self, len: u32) -> bool
        requires some { 1 ≤ len }
        requires small { len ≤ 2048 }
        ensures { (word serial : ℕ) → is_ok (place_new (table_of self.now) len word serial) ≡ result }
    {
        let Ok(class) = class_of(len) else {
            return false;
        };
        self.has_span_room(class) || self.spans.open_slot(class, 0).is_some()
    }

    /// Whether virtual pages are left for a new span of the class.
    fn has_span_room(&self, class: Class) -> bool
        ensures { is_ok (room_for_span (table_of self.now) class) ≡ result }
    {
        class.pages() <= END_OF_VIRTUAL_PAGES - self.next_page
    }

    /// Frees the object that a span has in a slot. There must be such an object: `record` must not return `None` for
    /// the slot.
    pub fn free(&mut self, span: Span, slot: Slot)
        requires { IsSome (record_at self.old.index span slot) }
        ensures { IsFreed self.old self.new span slot }
    {
        self.spans.sound();
        let class = self.spans.class_of(span);
        self.spans.vacate(span, slot);
        let pages = empty_pages_at(&self.spans, span);
        self.held_pages.lower(class, pages);
        self.class_objects.lower(class, 1);
    }

    /// The number of members of a group, or 0 if no group has the number.
    pub(crate) fn members_of(&self, number: u32) -> u32
        ensures value { result ≡ members_at (table_of self.now) number }
        ensures few { result ≤ 8 }
    {
        self.spans.sound();
        match self.spans.group(number) {
            Some(group) => group.members().len() as u32,
            None => 0,
        }
    }

    /// The number of physical pages of all groups together.
    pub fn taken_pages(&self) -> u32
        ensures free { result ≡ supply - (table_of self.now).free_pages }
        ensures groups { result ≡ span_pages (table_of self.now) }
    {
        self.taken_pages
    }

    /// How many virtual pages were ever used. A virtual page is never reused.
    pub fn used_pages(&self) -> u32
        ensures { result ≡ (table_of self.now).next_page - 1 }
    {
        self.next_page - 1
    }

    /// The counts over all groups: objects, their bytes, and the virtual pages of members. The call visits no group.
    pub fn totals(&self) -> Totals
        ensures objects { result.objects ≡ sum_by object_count (table_of self.now).groups }
        ensures bytes { result.bytes ≡ sum_by byte_count (table_of self.now).groups }
        ensures mapped { result.mapped ≡ sum_by page_count (table_of self.now).groups }
    {
        self.spans.totals()
    }

    /// The number of physical pages of all groups that have no object. The call visits no group.
    pub fn empty_pages(&self) -> u32
        ensures value { result ≡ empty_pages (table_of self.now) }
        ensures few { result ≤ 65538 }
    {
        self.taken_pages - self.held_pages.total()
    }

    /// For each class, in the order of the class table, the number of physical pages of the groups that have an object.
    /// The call visits no group.
    pub fn held_pages_by_class(&self) -> &[u32; 10]
        ensures value { result.now ≡ map (λ row. held_pages (table_of self.now) row.size) table }
        ensures few { All (λ n. n ≤ 65538) result.now }
    {
        self.held_pages.by_class()
    }

    /// The number of objects of each class, in the order of the class table. The call visits no group.
    pub fn objects_by_class(&self) -> &[u32; 10]
        ensures value { result.now ≡ map (λ row. class_objects (table_of self.now) row.size) table }
        ensures few { All (λ n. n ≤ 2 ^ 24) result.now }
    {
        self.spans.sound();
        self.class_objects.by_class()
    }

    /// Returns the serial and the length, in bytes, of the object that a span has in a slot. Returns `None` if the span
    /// has no object in the slot.
    pub fn record(&self, span: Span, slot: Slot) -> Option<(u32, u32)>
        ensures value { result ≡ record_at self.now.index span slot }
        ensures object { IfSome result (λ r. IsRecorded self.now.index span slot r.0 r.1) }
    {
        self.spans.record(span, slot)
    }

    /// Returns the candidates of a class: the groups that a search may pair. Returns an error if an allocation fails.
    pub fn view(&self, alloc: Global, class: Class) -> Result<ClassView, AllocError>
        ensures { IfOk result (λ view. view ≡ view_of (table_of self.now) class) }
    {
        class_view(alloc, &self.spans, class)
    }
}
