//! The effect of each step of a mesh on arena and page map.
ghost use Rattle.std.specs.Prelude.{◌≡◌, ◌+◌, ◌*◌, ◌/◌, ◌%◌, ◌<◌, ◌≤◌};
ghost use Rattle.mesh_arena.specs.Pages.{free_count};
ghost use Rattle.mesh_class.specs.Classes.{pages_of};
ghost use Rattle.mesh_page_heap.specs.Indexes.{layout_of};
ghost use Rattle.mesh_page_heap.specs.Layout.{page_total, virtual_page};
ghost use Rattle.mesh_page_heap.specs.StepChanges.{Copies, CopiesSlot, Makes};
ghost use Rattle.mesh_page_heap.specs.Steps.{CanCopy, HaveBothPages, IsReady};

use mesh_arena::{Arena, Page};
use mesh_pagemap::Prot;
use mesh_spans::{Slot, Spans};
use mesh_store::Store;
use model_words::StepKind;

/// The size of a page in bytes.
const PAGE_BYTES: u32 = 4096;

/// Makes a step of a mesh from `source` into `destination`: number `i` of the steps of kind `kind`, counted from 0.
pub(crate) fn make(
    store: &mut Store,
    spans: &Spans,
    kind: StepKind,
    source: u32,
    destination: u32,
    i: u32,
)
    requires { IsReady (layout_of spans.now) kind source destination i store.old.arena store.old.map }
    ensures { Makes
        (layout_of spans.now) kind source destination i store.old.arena store.new.arena store.old.map store.new.map }
{
    match kind {
        StepKind::Protect => {
            let vpage = virtual_page(spans, source, i);
            store.map.protect(vpage, Prot::ReadOnly);
        }
        StepKind::Copy => copy_slot(&mut store.arena, spans, source, destination, i),
        StepKind::Remap => {
            let vpage = virtual_page(spans, source, i);
            let page = physical_page(spans, destination, i % pages_of_group(spans, source));
            store.map.remap(vpage, page);
        }
        StepKind::Unprotect => {
            let vpage = virtual_page(spans, source, i);
            store.map.protect(vpage, Prot::ReadWrite);
        }
        StepKind::Release => {
            let page = physical_page(spans, source, i);
            store.arena.give(page);
        }
    }
}

/// How many physical pages a group has.
fn pages_of_group(spans: &Spans, n: u32) -> u32
    requires { 0 < (layout_of spans.now).members n }
    ensures value { result ≡ pages_of ((layout_of spans.now).class n) }
    ensures some { 1 ≤ result }
{
    spans.group(n).unwrap().class().pages()
}

/// Returns virtual page number `i` of group `n`. The pages are counted from 0, one member after another.
pub(crate) fn virtual_page(spans: &Spans, n: u32, i: u32) -> u32
    requires { i < page_total (layout_of spans.now) n }
    ensures value { result ≡ virtual_page (layout_of spans.now) n i }
    ensures first { 1 ≤ result }
    ensures last { result ≤ 65535 }
{
    spans.sound();
    let group = spans.group(n).unwrap();
    let pages = group.class().pages();
    let member = group.members()[(i / pages) as usize];
    spans.first_page(member) + i % pages
}

/// Physical page number `j` of a group.
pub(crate) fn physical_page(spans: &Spans, n: u32, j: u32) -> Page
    requires group { 0 < (layout_of spans.now).members n }
    requires within { j < pages_of ((layout_of spans.now).class n) }
    ensures { result ≡ (layout_of spans.now).page n j }
{
    spans.group(n).unwrap().pages()[j as usize]
}

/// Copies the bytes of the object in slot `k` of the source to the destination's pages, if the slot has an object.
fn copy_slot(arena: &mut Arena, spans: &Spans, source: u32, destination: u32, k: u32)
    requires { CanCopy (layout_of spans.now) arena.old source destination k }
    ensures { CopiesSlot (layout_of spans.now) arena.old arena.new source destination k
        ((layout_of spans.now).slot source k) }
{
    let group = spans.group(source).unwrap();
    let size = group.class().size();
    if let Some(len) = group.object_len(Slot::numbered(k)) {
        copy_bytes(arena, spans, source, destination, k * size, len);
    }
}

/// Copies `len` bytes from the source's pages to the destination's pages, from offset `from` on. An offset is counted
/// through a group's pages. The bytes are in one or two pages.
fn copy_bytes(arena: &mut Arena, spans: &Spans, source: u32, destination: u32, from: u32, len: u32)
    requires pages { HaveBothPages (layout_of spans.now) arena.old source destination }
    requires some { 1 ≤ len }
    requires few { len ≤ 2048 }
    requires within { from + len ≤ pages_of ((layout_of spans.now).class source) * 4096 }
    requires small { pages_of ((layout_of spans.now).class source) ≤ 3 }
    ensures copies { Copies (layout_of spans.now) arena.old arena.new source destination from len }
    ensures free { free_count arena.new ≡ free_count arena.old }
{
    let here = len.min(PAGE_BYTES - from % PAGE_BYTES);
    copy_run(arena, spans, source, destination, from, here);
    if here < len {
        copy_run(arena, spans, source, destination, from + here, len - here);
    }
}

/// Copies bytes that are in one page.
fn copy_run(arena: &mut Arena, spans: &Spans, source: u32, destination: u32, from: u32, len: u32)
    requires pages { HaveBothPages (layout_of spans.now) arena.old source destination }
    requires within { from / 4096 < pages_of ((layout_of spans.now).class source) }
    requires inside { from % 4096 + len ≤ 4096 }
    ensures copies { Copies (layout_of spans.now) arena.old arena.new source destination from len }
    ensures free { free_count arena.new ≡ free_count arena.old }
{
    let place = from / PAGE_BYTES;
    let off = from % PAGE_BYTES;
    let here = physical_page(spans, source, place);
    let there = physical_page(spans, destination, place);
    arena.copy(here, off, there, off, len);
}
