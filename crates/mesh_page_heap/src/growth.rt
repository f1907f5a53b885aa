//! Physical pages for a new span.
ghost use Rattle.std.specs.Prelude.{◌≡◌, ◌+◌, ◌<◌, ◌≤◌, length};
ghost use Rattle.mesh_arena.specs.Pages.{free_count};
ghost use Rattle.mesh_page_heap.specs.Growth.{TakesAll, MapsFirst, GivesFirst, AreTaken, AreUnmapped, given_back};

use arrayvec::ArrayVec;
use mesh_arena::{Arena, Page};
use mesh_pagemap::{PageMap, Prot};
use mesh_spans::MAX_SPAN_PAGES;

/// Takes the `count` free pages with the lowest numbers, and returns them in ascending order. Each page is filled with
/// zeros.
pub fn take_pages(arena: &mut Arena, count: u32) -> ArrayVec<Page, MAX_SPAN_PAGES>
    requires few { count ≤ 3 }
    requires room { count ≤ free_count arena.old }
    ensures count { length result.items ≡ count }
    ensures taken { TakesAll arena.old arena.new result.items }
    ensures back { given_back arena.new result.items ≡ arena.old }
{
    let mut pages = ArrayVec::new();
    'pages: for _taken in 0..count {
        let page = arena.take().unwrap();
        pages.push(page);
    }
    pages
}

/// Frees taken pages.
pub fn give_pages(arena: &mut Arena, pages: &[Page])
    requires { AreTaken arena.old pages.now }
    ensures back { arena.new ≡ given_back arena.old pages.now }
    ensures gives { GivesFirst arena.old arena.new pages.now (length pages.now) }
{
    for page in pages {
        arena.give(*page);
    }
}

/// Maps consecutive virtual pages, from `first` on, to the given pages in order. The mapped virtual pages are writable.
pub fn map_pages(map: &mut PageMap, first: u32, pages: &[Page])
    requires first { 1 ≤ first }
    requires last { first + length pages.now ≤ 65536 }
    requires unmapped { AreUnmapped map.old first }
    ensures { MapsFirst map.old map.new first pages.now (length pages.now) }
{
    let mut vpage = first;
    for page in pages {
        map.map(vpage, *page, Prot::ReadWrite);
        vpage += 1;
    }
}
