//! `Spans`, the index of all spans and groups.
ghost use Rattle.std.specs.Prelude.{◌≡◌, ℕ, ◌+◌, true, false, not, nat_eq, ◌&&◌, ◌||◌, filter, slice_set, ◌<◌, ◌≤◌, Some, None, [], ◌∷◌, ◌++◌, find, length, map, slice_index, slice_index_or, ◌/◌, IfOk, IfSome, IfNone, IsSome, IsSomeAnd, OnErr, position, option_copied, sum_by};
ghost use Rattle.std.specs.Option.{option_map};
ghost use Rattle.mesh_class.specs.Classes.{pages_of, slots_of};
ghost use Rattle.model_heap.specs.Table.{changed_at, fresh_group, len_in, object_count, slot_address, with_object_in, emptied_at, takes_objects};
ghost use Rattle.mesh_spans.specs.Counts.{IsPart, IsWithin, byte_count};
ghost use Rattle.mesh_spans.specs.Groups.{IsPicked, groups_of, is_closed, table_group};
ghost use Rattle.mesh_spans.specs.Index.{AreUnused, GroupEntry, IsFoundAt, IsIndex, IsLedTo, IsObject, IsRecorded, IsSpan, IsVacant, address_in, group_at, has_room, is_open, new_group, new_span, record_at, slot_in, span_at, with_entry};
ghost use Rattle.model_heap.specs.Mesh.{do_overlap, merged, page_count};
ghost use Rattle.model_heap.specs.Table.{Group as TableGroup, has_number};
ghost use Rattle.mesh_bins.specs.Words.{IsLeast};
ghost use Rattle.mesh_spans.specs.GroupBins.{candidate_from, candidates_from, is_partial};
ghost use Rattle.mesh_spans.specs.Changes.{IsMergeable, Merges, Regroups, merged_entry, merged_groups, with_flag};

use crate::extent::Extent;
use crate::group::Group;
use crate::groups::Groups;
use crate::owners::Owners;
use crate::{Slot, Span, Totals};
use mesh_arena::Page;
use mesh_class::Class;
use model_heap::Occupant;
use std::alloc::{AllocError, Global};
use std::marker::Model;

/// The index of all spans and groups.
///
/// Spans and groups are numbered in the order in which they are made, and no number is reused.
pub struct Spans {
    // The allocator of new spans.
    alloc: Global,
    // The spans by number.
    spans: Vec<Extent>,
    // The groups by number and by fullness.
    groups: Groups,
    // The span of each virtual page.
    owners: Owners,
}

impl Model for Spans {
    ghost use Rattle.mesh_spans.specs.Index.{Index, IsIndex, IsOwned};

    ghost Value = { Index };

    ghost view = { λ s. record { spans = s.spans.items; groups = s.groups } };

    ghost invariant = { λ s. IsIndex s.spans.items s.groups × IsOwned s.spans.items s.groups s.owners };
}

#[rattlefmt::skip]
impl Drop for Spans {
    fn drop(self) { let Spans { alloc: _, spans: _, groups: _, owners: _ } = self; }
}

impl Spans {
    /// Makes an index without spans, and allocates the table of virtual pages. The index keeps the allocator for the
    /// spans that are added later.
    ///
    /// The only error is an allocation failure.
    pub fn new(alloc: Global) -> Result<Spans, AllocError>
        ensures spans { IfOk result (λ s. s.spans ≡ []) }
        ensures groups { IfOk result (λ s. s.groups ≡ []) }
    {
        let owners = Owners::new(alloc)?;
        let groups = Groups::new(alloc)?;
        Ok(Spans {
            alloc,
            spans: Vec::new(alloc),
            groups,
            owners,
        })
    }

    /// The spans and the groups of an index are consistent (`IsIndex`). The call does nothing: its contract is a lemma.
    pub fn sound(&self)
        ensures { IsIndex self.now.spans self.now.groups }
    {
        let _spans = self.spans.len();
    }

    /// Adds a span of the virtual pages from `first` on, with a new group on the physical pages `pages`. Returns the
    /// span's number. The only error is an allocation failure, after which the index is unchanged. Of the calls on an
    /// existing index, only this one allocates.
    pub fn add_span(&mut self, class: Class, first: u32, pages: &[Page]) -> Result<Span, AllocError>
        requires first { 1 ≤ first }
        requires last { first + pages_of class ≤ 65536 }
        requires unused { AreUnused self.old first }
        requires pages { length pages.now ≡ pages_of class }
        ensures number { IfOk result (λ span. span ≡ length self.old.spans) }
        ensures spans { IfOk result (λ span. self.new.spans ≡ self.old.spans ++ new_span first class span ∷ []) }
        ensures groups { IfOk result (λ span.
            self.new.groups ≡ self.old.groups ++ Some (new_group class span pages.now) ∷ []) }
        ensures table { IfOk result
            (λ span. groups_of self.new ≡ groups_of self.old ++ fresh_group span class first ∷ []) }
        ensures vacant { IfOk result (λ span. (slot : ℕ) → slot < slots_of class → IsVacant self.new class span slot) }
        ensures err { OnErr result (self.new ≡ self.old) }
    {
        let number = self.spans.len() as u32;
        let span = Span::numbered(number);
        let group = Group::new(self.alloc, class, span, pages)?;
        self.spans.reserve(1)?;
        self.groups.push(group)?;
        self.spans.push_reserved(Extent::new(first, class, number));
        self.owners.own(first, class.pages(), span);
        Ok(span)
    }

    /// Returns the slot for the next object of a class, with the slot's span. Among the groups of the class that are in
    /// no mesh and have a free slot, the slot is in the group with the lowest number. The slot's place in the ascending
    /// list of the group's free slots is `word` modulo the length of this list. The span is the group's first member.
    ///
    /// Returns `None` if the class has no such group.
    pub fn open_slot(&self, class: Class, word: u64) -> Option<(Span, Slot)>
        ensures picked { IfSome result
            (λ r. IsSomeAnd (find (takes_objects (is_closed self.now) class) (groups_of self.now))
            (λ group. IsPicked self.now group word r.0 r.1)) }
        ensures vacant { IfSome result (λ r. IsVacant self.now class r.0 r.1) }
        ensures none { IfNone result (find (takes_objects (is_closed self.now) class) (groups_of self.now) ≡ None) }
    {
        let open = self.groups.lowest_open(class)?;
        let group = self.group(open)?;
        let slot = group.free_slot(word)?;
        Some((group.first_member(), slot))
    }

    /// Returns the lowest number, at or above `from`, among the groups of a class that are in no mesh, not empty and
    /// not full. Returns `None` if there is no such number.
    pub fn next_candidate(&self, class: Class, from: u32) -> Option<u32>
        ensures least { IsLeast (λ n. is_partial (group_at self.now.groups n) class) from 65536 result }
        ensures table { result ≡ option_map (λ g. g.number)
            (find (candidate_from (is_closed self.now) class from) (groups_of self.now)) }
        ensures next { IfSome result (λ n. IsSomeAnd (group_at self.now.groups n) (λ group.
            candidates_from self.now class from ≡ table_group self.now.spans n group ∷ candidates_from self.now class (n + 1))) }
        ensures none { IfNone result (candidates_from self.now class from ≡ []) }
    {
        self.groups.lowest_partial(class, from)
    }

    /// Records an object of `len` bytes, with the serial `serial`, in a free slot of a span.
    pub fn occupy(&mut self, span: Span, slot: Slot, serial: u32, len: u32)
        requires vacant { IsVacant self.old (span_at self.old.spans span).class span slot }
        requires some { 1 ≤ len }
        requires fits { len ≤ (span_at self.old.spans span).class }
        ensures spans { self.new.spans ≡ self.old.spans }
        ensures groups { self.new.groups ≡ with_entry self.old.groups (span_at self.old.spans span).group slot
            (Some (record { member = (span_at self.old.spans span).first; serial = serial; len = len })) }
        ensures table { groups_of self.new ≡ map (changed_at (span_at self.old.spans span).group
            (with_object_in slot (record { member = (span_at self.old.spans span).first; serial = serial; len = len })))
            (groups_of self.old) }
        ensures closed { (n : ℕ) → is_closed self.new n ≡ is_closed self.old n }
    {
        let extent = self.extent(span);
        let group = extent.group();
        let object = Occupant {
            member: extent.first(),
            serial,
            len,
        };
        self.groups.put(group, slot, Some(object));
    }

    /// Removes the record of the object in a slot of a span. The slot must hold an object of this span.
    pub fn vacate(&mut self, span: Span, slot: Slot)
        requires { IsSome (record_at self.old span slot) }
        ensures spans { self.new.spans ≡ self.old.spans }
        ensures groups { self.new.groups ≡ with_entry self.old.groups (span_at self.old.spans span).group slot None }
        ensures table { groups_of self.new
            ≡ map (changed_at (span_at self.old.spans span).group (emptied_at slot)) (groups_of self.old) }
        ensures closed { (n : ℕ) → is_closed self.new n ≡ is_closed self.old n }
    {
        let group = self.extent(span).group();
        self.groups.put(group, slot, None);
    }

    /// Marks the group with the number `n` as being in a mesh. A group in a mesh gets no new objects.
    pub fn close(&mut self, n: u32)
        requires { IsSome (group_at self.old.groups n) }
        ensures spans { self.new.spans ≡ self.old.spans }
        ensures groups { self.new.groups ≡ with_flag self.old.groups n true }
        ensures table { groups_of self.new ≡ groups_of self.old }
        ensures closed { (m : ℕ) → is_closed self.new m ≡ (nat_eq m n || is_closed self.old m) }
    {
        self.set_in_mesh(n, true);
    }

    /// Marks the group with the number `n` as being in no mesh.
    pub fn reopen(&mut self, n: u32)
        requires { IsSome (group_at self.old.groups n) }
        ensures spans { self.new.spans ≡ self.old.spans }
        ensures groups { self.new.groups ≡ with_flag self.old.groups n false }
        ensures table { groups_of self.new ≡ groups_of self.old }
        ensures closed { (m : ℕ) → is_closed self.new m ≡ (not (nat_eq m n) && is_closed self.old m) }
    {
        self.set_in_mesh(n, false);
    }

    /// Merges the group `src` into the group `dst`: appends the members of `src` to those of `dst`, and adds the
    /// objects of `src`. The merged group keeps the number and the physical pages of `dst`. No group has the number
    /// `src` afterwards.
    pub fn merge(&mut self, dst: u32, src: u32)
        requires pair { IsMergeable self.old dst src }
        ensures merges { (a b : GroupEntry) → group_at self.old.groups src ≡ Some a
            → group_at self.old.groups dst ≡ Some b
            → Merges self.old self.new src dst a b }
        ensures table { (a : TableGroup) → find (has_number src) (groups_of self.old) ≡ Some a
            → groups_of self.new ≡ merged (groups_of self.old) a dst }
        ensures closed { (m : ℕ) → is_closed self.new m ≡ (not (nat_eq m src) && is_closed self.old m) }
    {
        if let Some(source) = self.groups.take(src) {
            self.groups.absorb(dst, &source);
            regroup(&mut self.spans, source.members(), dst);
        }
    }

    /// Removes the group with the number `n`. No group has this number afterwards.
    pub fn retire(&mut self, n: u32)
        requires { IsSome (group_at self.old.groups n) }
        ensures spans { self.new.spans ≡ self.old.spans }
        ensures groups { self.new.groups ≡ slice_set self.old.groups n None }
        ensures table { groups_of self.new ≡ filter (λ g. not (has_number n g)) (groups_of self.old) }
        ensures closed { (m : ℕ) → is_closed self.new m ≡ (not (nat_eq m n) && is_closed self.old m) }
    {
        self.groups.take(n);
    }

    /// Returns the counts over all groups: the live objects, the bytes of the live objects, and the virtual pages of
    /// all members.
    ///
    /// The counts are updated as groups change. This call visits no group.
    pub fn totals(&self) -> Totals
        ensures objects { result.objects ≡ sum_by object_count (groups_of self.now) }
        ensures bytes { result.bytes ≡ sum_by byte_count (groups_of self.now) }
        ensures mapped { result.mapped ≡ sum_by page_count (groups_of self.now) }
    {
        self.groups.totals()
    }

    /// Returns the serial and the length of the object in a slot of a span. Returns `None` if the slot holds no object
    /// of this span.
    pub fn record(&self, span: Span, slot: Slot) -> Option<(u32, u32)>
        ensures value { result ≡ record_at self.now span slot }
        ensures object { IfSome result (λ r. IsRecorded self.now span slot r.0 r.1) }
    {
        let extent = self.spans.get(span.index())?;
        let group = self.groups.get(extent.group())?;
        group.object_of(extent.first(), slot)
    }

    /// Returns the span and the slot that contain an address, and the offset of the address in the slot. The group of
    /// the span still exists. Returns `None` if no member of a group contains the address.
    pub fn find(&self, addr: u32) -> Option<(Span, Slot, u32)>
        ensures span { IfSome result (λ r. r.0 < length self.now.spans) }
        ensures sound { IfSome result (λ r. IsSpan (span_at self.now.spans r.0)) }
        ensures live { IfSome result (λ r. IsSome (group_at self.now.groups (span_at self.now.spans r.0).group)) }
        ensures slot { IfSome result (λ r. r.1 < slots_of (span_at self.now.spans r.0).class) }
        ensures offset { IfSome result (λ r. r.2 < (span_at self.now.spans r.0).class) }
        ensures address { IfSome result (λ r. address_in (span_at self.now.spans r.0) r.1 + r.2 ≡ addr) }
        ensures found { (n place k o : ℕ) (group : GroupEntry) → group_at self.now.groups n ≡ Some group
            → place < length group.members
            → k < slots_of group.class → o < group.class
            → slot_address (span_at self.now.spans (slice_index group.members place)).first group.class k + o ≡ addr
            → IsFoundAt self.now n (slice_index group.members place) k o result }
    {
        let span = self.live_span(addr)?;
        let (slot, offset) = self.extent(span).find(addr)?;
        Some((span, slot, offset))
    }

    /// Returns the first virtual page of a span.
    pub fn first_page(&self, span: Span) -> u32
        requires { span < length self.now.spans }
        ensures value { result ≡ (span_at self.now.spans span).first }
        ensures sound { IsSpan (span_at self.now.spans span) }
    {
        self.extent(span).first()
    }

    /// Returns the size class of a span.
    pub fn class_of(&self, span: Span) -> Class
        requires { span < length self.now.spans }
        ensures { result ≡ (span_at self.now.spans span).class }
    {
        self.extent(span).class()
    }

    /// Returns the number of a span's group.
    pub fn group_of(&self, span: Span) -> u32
        requires { span < length self.now.spans }
        ensures { result ≡ (span_at self.now.spans span).group }
    {
        self.extent(span).group()
    }

    /// Returns the address of a slot of a span.
    pub fn address(&self, span: Span, slot: Slot) -> u32
        requires span { span < length self.now.spans }
        requires slot { slot < slots_of (span_at self.now.spans span).class }
        ensures value { result ≡ address_in (span_at self.now.spans span) slot }
        ensures sound { IsSpan (span_at self.now.spans span) }
    {
        self.extent(span).address(slot)
    }

    /// Returns the group with this number, or `None` if no group has the number now.
    pub fn group(&self, number: u32) -> Option<&Group>
        ensures { option_copied result ≡ group_at self.now.groups number }
    {
        self.groups.get(number)
    }

    /// Returns the span that owns the virtual page of an address. Returns `None` if no span owns the page, or if the
    /// group of the span no longer exists.
    fn live_span(&self, addr: u32) -> Option<Span>
        ensures span { IfSome result (λ span. span < length self.now.spans) }
        ensures live { IfSome result (λ span. IsSome (group_at self.now.groups (span_at self.now.spans span).group)) }
        ensures found { (n place k o : ℕ) (group : GroupEntry) → group_at self.now.groups n ≡ Some group
            → place < length group.members
            → k < slots_of group.class → o < group.class
            → slot_address (span_at self.now.spans (slice_index group.members place)).first group.class k + o ≡ addr
            → IsLedTo self.now n (slice_index group.members place) group.class result }
    {
        let span = self.owners.of(addr)?;
        let extent = self.spans.get(span.index())?;
        self.group(extent.group())?;
        Some(span)
    }

    /// Returns the first virtual page, the size class and the group of a span.
    fn extent(&self, span: Span) -> &Extent
        requires { span < length self.now.spans }
        ensures { result.now ≡ span_at self.now.spans span }
    {
        &self.spans[span.index()]
    }

    /// Sets whether the group with the number `n` is in a mesh.
    fn set_in_mesh(&mut self, n: u32, in_mesh: bool)
        requires { IsSome (group_at self.old.groups n) }
        ensures spans { self.new.spans ≡ self.old.spans }
        ensures groups { self.new.groups ≡ with_flag self.old.groups n in_mesh }
        ensures table { groups_of self.new ≡ groups_of self.old }
    {
        self.groups.set_in_mesh(n, in_mesh);
    }
}

/// Sets the group of each span in `members` to `group`.
fn regroup(spans: &mut Vec<Extent>, members: &[Span], group: u32)
    requires { (place : ℕ) → place < length members.now → slice_index members.now place < length spans.old.items }
    ensures { Regroups spans.old.items spans.new.items members.now (length members.now) group }
{
    for member in members {
        spans[member.index()].join(group);
    }
}
