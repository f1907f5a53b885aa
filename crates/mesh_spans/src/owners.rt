//! `Owners`: for each virtual page, the span that owns the page.
ghost use Rattle.std.specs.Prelude.{◌≡◌, ℕ, ◌+◌, ◌<◌, ◌≤◌, ◌/◌, None, [], IfOk, length, slice_index_or, vec_capacity};
ghost use Rattle.mesh_spans.specs.Index.{OwnsUpTo};

use crate::Span;
use crate::extent::PAGE_BYTES;
use std::alloc::{AllocError, Global};
use std::marker::Model;

/// The number of virtual page numbers, including the unused number 0.
const VIRTUAL_PAGES: usize = 65_536;

/// For each virtual page number, the span that owns the page.
///
/// The capacity for all pages is allocated at the start. The list ends at the highest page that has ever had an owner,
/// so the memory for higher pages is never touched.
#[derive(Drop)]
pub(crate) struct Owners {
    spans: Vec<Option<Span>>,
}

impl Model for Owners {
    ghost use Rattle.std.specs.Prelude.{ℕ, ◌≤◌, List, Option, length, vec_capacity};

    ghost Value = { List (Option ℕ) };

    ghost view = { λ o. o.spans.items };

    ghost invariant = { λ o. (length o.spans.items ≤ 65536) × (65536 ≤ vec_capacity o.spans) };
}

impl Owners {
    /// Makes a table in which no page has an owner. The only error is an allocation failure.
    pub(crate) fn new(alloc: Global) -> Result<Owners, AllocError>
        ensures { IfOk result (λ owners. owners ≡ []) }
    {
        let spans = Vec::with_capacity(alloc, VIRTUAL_PAGES)?;
        Ok(Owners { spans })
    }

    /// Returns the span that owns the virtual page of an address, or `None` if no span owns the page.
    pub(crate) fn of(&self, addr: u32) -> Option<Span>
        ensures { result ≡ slice_index_or self.now (addr / 4096) None }
    {
        let page = (addr / PAGE_BYTES) as usize;
        self.spans.get(page).copied().flatten()
    }

    /// Records `span` as the owner of `pages` virtual pages, the first of which is `first`.
    pub(crate) fn own(&mut self, first: u32, pages: u32, span: Span)
        requires { first + pages ≤ 65536 }
        ensures { OwnsUpTo self.old self.new first (first + pages) span }
    {
        own_pages(&mut self.spans, first, pages, span);
    }
}

/// Records `span` in the list of owners, for `pages` virtual pages, the first of which is `first`.
fn own_pages(spans: &mut Vec<Option<Span>>, first: u32, pages: u32, span: Span)
    requires short { length spans.old.items ≤ 65536 }
    requires room { 65536 ≤ vec_capacity spans.old }
    requires last { first + pages ≤ 65536 }
    ensures short { length spans.new.items ≤ 65536 }
    ensures room { vec_capacity spans.new ≡ vec_capacity spans.old }
    ensures owned { OwnsUpTo spans.old.items spans.new.items first (first + pages) span }
{
    for page in first..first + pages {
        reach(spans, page as usize);
        spans[page as usize] = Some(span);
    }
}

/// Extends the list, if necessary, until it has an entry at `place`. The new entries are `None`.
fn reach(spans: &mut Vec<Option<Span>>, place: usize)
    requires within { place < 65536 }
    requires short { length spans.old.items ≤ 65536 }
    requires room { 65536 ≤ vec_capacity spans.old }
    ensures reached { place < length spans.new.items }
    ensures short { length spans.new.items ≤ 65536 }
    ensures room { vec_capacity spans.new ≡ vec_capacity spans.old }
    ensures same { (v : ℕ) → slice_index_or spans.new.items v None ≡ slice_index_or spans.old.items v None }
{
    while spans.len() <= place {
        spans.push_reserved(None);
    }
}
