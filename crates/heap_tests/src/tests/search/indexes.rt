//! Indexes of spans, and their views, for tests of the search.
ghost use Rattle.std.specs.Prelude.{◌≡◌, ◌≤◌};
ghost use Rattle.mesh_spans.specs.Index.{AreUnused};

use mesh_arena::Page;
use mesh_class::{Class, class_of};
use mesh_search::{ClassView, class_view};
use mesh_spans::{Slot, Span, Spans};
use std::process::Abort;

/// The number of virtual pages.
const END: u32 = 65_536;

/// The slot sizes of the ten classes in bytes, in ascending order.
pub(crate) static SIZES: [u32; 10] = [16, 32, 64, 128, 256, 384, 512, 1024, 1536, 2048];

/// Returns the views of the ten classes, in ascending order, of an index whose groups all have one class. Slot k of a
/// group is occupied if and only if bit k of the group's word is set.
pub(crate) fn views_of(
    rt: &(impl Abort + AllocGlobal),
    size: u32,
    groups: &[u32],
) -> Vec<ClassView> {
    views_in(
        rt,
        &index_of(rt, class_of(size).expect(rt, "a class"), groups),
    )
}

/// Returns the views of the ten classes of an index, in ascending order.
fn views_in(rt: &(impl Abort + AllocGlobal), spans: &Spans) -> Vec<ClassView> {
    let mut views = Vec::new(rt.alloc());
    for size in SIZES.iter() {
        let class = class_of(*size).expect(rt, "a class");
        let view = class_view(rt.alloc(), spans, class).expect(rt, "memory");
        views.push(view).expect(rt, "memory");
    }
    views
}

/// Returns an index with groups of one class. Slot k of a group is occupied if and only if bit k of its word is set.
fn index_of(rt: &(impl Abort + AllocGlobal), class: Class, groups: &[u32]) -> Spans {
    let mut spans = filled(rt, class, groups.len());
    for n in 0..groups.len() {
        thin(&mut spans, class, n, groups[n]);
    }
    spans
}

/// Returns an index with `count` spans of one class, each with an object in every slot.
fn filled(rt: &(impl Abort + AllocGlobal), class: Class, count: usize) -> Spans {
    let mut spans = Spans::new(rt.alloc()).expect(rt, "memory");
    let mut next = 1;
    for _ in 0..count {
        next = add(rt, &mut spans, class, next);
        fill(&mut spans, class);
    }
    spans
}

/// Adds a span at virtual page `next` if there is room, and returns the page after the span. All spans get the same
/// physical page.
fn add(rt: &impl Abort, spans: &mut Spans, class: Class, next: u32) -> u32
    requires some { 1 ≤ next }
    requires unused { AreUnused spans.old next }
    ensures some { 1 ≤ result }
    ensures unused { AreUnused spans.new result }
{
    let end = next.saturating_add(class.pages());
    if end > END {
        return next;
    }
    let pages = [Page::default(); 3];
    spans
        .add_span(class, next, &pages[..class.pages() as usize])
        .expect(rt, "memory");
    end
}

/// Puts objects into all slots of one span.
fn fill(spans: &mut Spans, class: Class)
    ensures { spans.new.spans ≡ spans.old.spans }
{
    for serial in 0..class.slots() {
        if let Some((span, slot)) = spans.open_slot(class, 0) {
            spans.occupy(span, slot, serial, 1);
        }
    }
}

/// Frees the objects of a group, except those in the slots whose bits are set in a word.
fn thin(spans: &mut Spans, class: Class, number: usize, slots: u32) {
    if let Some(span) = first_member(spans, number) {
        leave(spans, class, span, slots);
    }
}

/// The first member of the group with a number.
fn first_member(spans: &Spans, number: usize) -> Option<Span> {
    let group = spans.group(u32::try_from(number).ok()?)?;
    Some(group.members()[0])
}

/// Frees the objects of a span, except those in the slots whose bits are set in a word.
fn leave(spans: &mut Spans, class: Class, span: Span, slots: u32) {
    for k in 0..class.slots() {
        let slot = Slot::numbered(k);
        let stays = slots.checked_shr(k).unwrap_or(0) % 2 == 1;
        if !stays && spans.record(span, slot).is_some() {
            spans.vacate(span, slot);
        }
    }
}
