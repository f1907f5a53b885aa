//! The pages of groups with and without an object.
ghost use Rattle.std.specs.Prelude.{◌≡◌, ◌<◌, ◌≤◌, length};
ghost use Rattle.mesh_spans.specs.Index.{group_at, span_at};
ghost use Rattle.savings_replay.specs.ClassCounts.{amount, entry_empty, entry_held};

use mesh_spans::{Group, Span, Spans};

/// Returns the number of a group's pages if the group has no object, and 0 otherwise.
fn empty_pages_of(group: &Group) -> u32
    ensures value { result ≡ entry_empty group.now }
    ensures few { result ≤ 3 }
{
    if group.is_empty() {
        group.class().pages()
    } else {
        0
    }
}

/// Returns the number of pages of a span's group if the group has no object, and 0 otherwise.
pub(crate) fn empty_pages_at(spans: &Spans, span: Span) -> u32
    requires { span < length spans.now.spans }
    ensures value { result ≡ amount entry_empty (group_at spans.now.groups (span_at spans.now.spans span).group) }
    ensures few { result ≤ 3 }
{
    match spans.group(spans.group_of(span)) {
        Some(group) => empty_pages_of(group),
        None => 0,
    }
}

/// Returns the number of a group's pages if the group has an object, and 0 otherwise.
pub(crate) fn held_pages_of(group: &Group) -> u32
    ensures { result ≡ entry_held group.now }
{
    if group.is_empty() {
        0
    } else {
        group.class().pages()
    }
}
