//! `mesh_class` and `mesh_spans`.
ghost use Rattle.std.specs.Prelude.{◌≡◌, ◌+◌, ◌<◌, ◌≤◌, IsSome, length};
ghost use Rattle.mesh_class.specs.Classes.{pages_of};
ghost use Rattle.mesh_spans.specs.Changes.{IsMergeable};
ghost use Rattle.mesh_spans.specs.Index.{AreUnused, IsVacant, group_at, record_at, span_at};

use mesh_arena::Page;
use mesh_bits::Bits;
use mesh_class::{Class, Refusal, class_of};
use mesh_spans::{Group, Slot, Span, Spans, Totals};
use std::alloc::{AllocError, Global};

pub fn class(len: u32) -> Result<(u32, u32, u32), Refusal> {
    let class: Class = class_of(len)?;
    Ok((class.size(), class.pages(), class.slots()))
}

pub fn refusal(refusal: Refusal) -> (u8, &'static str) {
    (refusal.number(), refusal.name())
}

pub fn number(refusal: Refusal) -> u8 {
    match refusal {
        Refusal::Zero => 1,
        Refusal::TooLarge => 2,
        Refusal::NoPages => 3,
        Refusal::NoAddresses => 4,
        Refusal::Empty => 5,
        Refusal::Freed => 6,
        Refusal::Outside => 7,
        Refusal::Stray => 8,
        Refusal::NoGroup => 9,
        Refusal::Same => 10,
        Refusal::Class => 11,
        Refusal::Busy => 12,
        Refusal::Overlap => 13,
        Refusal::Members => 14,
        Refusal::NoMesh => 15,
        Refusal::TooLate => 16,
        Refusal::NotEmpty => 17,
    }
}

pub fn index(alloc: Global) -> Result<Spans, AllocError> {
    Spans::new(alloc)
}

pub fn add_span(
    spans: &mut Spans,
    class: Class,
    first_vpage: u32,
    pages: &[Page],
) -> Result<Span, AllocError>
    requires first { 1 ≤ first_vpage }
    requires last { first_vpage + pages_of class ≤ 65536 }
    requires unused { AreUnused spans.old first_vpage }
    requires pages { length pages.now ≡ pages_of class }
{
    spans.add_span(class, first_vpage, pages)
}

pub fn places(spans: &Spans, class: Class, word: u64, from: u32) -> (bool, Option<u32>) {
    let open: Option<(Span, Slot)> = spans.open_slot(class, word);
    let candidate: Option<u32> = spans.next_candidate(class, from);
    (open.is_some(), candidate)
}

pub fn records(spans: &Spans, span: Span, slot: Slot, addr: u32) -> (Option<(u32, u32)>, bool) {
    let record: Option<(u32, u32)> = spans.record(span, slot);
    let found: Option<(Span, Slot, u32)> = spans.find(addr);
    (record, found.is_some())
}

pub fn totals(spans: &Spans) -> Totals {
    spans.totals()
}

pub fn group(spans: &Spans, n: u32) -> Option<(u32, usize)> {
    let group: &Group = spans.group(n)?;
    let class: Class = group.class();
    let members: &[Span] = group.members();
    let pages: &[Page] = group.pages();
    let occupied: &Bits = group.occupied();
    let in_mesh: bool = group.in_mesh();
    if in_mesh {
        Some((class.size(), members.len()))
    } else {
        Some((occupied.count(), pages.len()))
    }
}

pub fn occupy(spans: &mut Spans, span: Span, slot: Slot, serial: u32, len: u32)
    requires vacant { IsVacant spans.old (span_at spans.old.spans span).class span slot }
    requires some { 1 ≤ len }
    requires fits { len ≤ (span_at spans.old.spans span).class }
{
    spans.occupy(span, slot, serial, len);
}

pub fn vacate(spans: &mut Spans, span: Span, slot: Slot)
    requires { IsSome (record_at spans.old span slot) }
{
    spans.vacate(span, slot);
}

pub fn close(spans: &mut Spans, n: u32)
    requires { IsSome (group_at spans.old.groups n) }
{
    spans.close(n);
}

pub fn reopen(spans: &mut Spans, n: u32)
    requires { IsSome (group_at spans.old.groups n) }
{
    spans.reopen(n);
}

pub fn merge(spans: &mut Spans, dst: u32, src: u32)
    requires { IsMergeable spans.old dst src }
{
    spans.merge(dst, src);
}

pub fn retire(spans: &mut Spans, n: u32)
    requires { IsSome (group_at spans.old.groups n) }
{
    spans.retire(n);
}
