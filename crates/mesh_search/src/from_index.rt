//! The view of a class, built from the span index.
ghost use Rattle.std.specs.Prelude.{◌≡◌, filter, IfOk};
ghost use Rattle.model_search.specs.Search.{may_be_paired, viewed};
ghost use Rattle.mesh_spans.specs.Groups.{groups_of, is_closed};

use crate::candidate::Candidate;
use crate::view::ClassView;
use mesh_class::Class;
use mesh_spans::Spans;
use std::alloc::{AllocError, Global};

/// Returns a view of a class: the groups of the class that are in no mesh, not empty and not full, in ascending order
/// of their numbers.
///
/// The only error is an allocation failure.
pub fn class_view(alloc: Global, spans: &Spans, class: Class) -> Result<ClassView, AllocError>
    ensures { IfOk result
        (λ view. view ≡ viewed class (filter (may_be_paired (is_closed spans.now) class) (groups_of spans.now))) }
{
    spans.sound();
    let mut candidates = Vec::new(alloc);
    let mut from = 0;
    while let Some(number) = spans.next_candidate(class, from) {
        let group = spans.group(number).unwrap();
        candidates.push(Candidate::new(number, group.occupied().copied()))?;
        from = number + 1;
    }
    Ok(ClassView::new(class, candidates))
}
