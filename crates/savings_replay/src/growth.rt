//! A new span in the index.
ghost use Rattle.std.specs.Prelude.{◌≤◌, ◌+◌, ◌≡◌, IfOk, OnErr};
ghost use Rattle.mesh_class.specs.Classes.{pages_of};
ghost use Rattle.savings_replay.specs.Growth.{IsAdded};
ghost use Rattle.mesh_spans.specs.Index.{AreUnused};

use mesh_arena::Page;
use mesh_class::Class;
use mesh_spans::{MAX_SPAN_PAGES, Span, Spans};
use std::alloc::AllocError;

/// Adds a span of the class at virtual page `first`. The index records physical page 0 for each page of the span,
/// because a placement only counts pages. Returns an error, and changes nothing, if an allocation fails.
pub(crate) fn add_span(spans: &mut Spans, class: Class, first: u32) -> Result<Span, AllocError>
    requires first { 1 ≤ first }
    requires last { first + pages_of class ≤ 65536 }
    requires unused { AreUnused spans.old first }
    ensures added { IfOk result (IsAdded spans.old spans.new class first) }
    ensures err { OnErr result (spans.new ≡ spans.old) }
{
    let pages = [Page::default(); MAX_SPAN_PAGES];
    let count = class.pages() as usize;
    spans.add_span(class, first, &pages[..count])
}
