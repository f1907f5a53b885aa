//! The step order of a mesh from a group of the index.
ghost use Rattle.std.specs.Prelude.{IsSome};
ghost use Rattle.mesh_page_heap.specs.Indexes.{layout_of};
ghost use Rattle.mesh_running.specs.StepOrders.{IsStepOrder};
ghost use Rattle.mesh_spans.specs.Index.{group_at};
ghost use Rattle.mesh_page_heap.specs.StepOrders.{IsStepOrderOf};

use mesh_running::StepOrder;
use mesh_spans::Spans;

/// The step order of a mesh from a group.
pub(crate) fn order_of(spans: &Spans, source: u32) -> StepOrder
    requires { IsSome (group_at spans.now.groups source) }
    ensures of { IsStepOrderOf (layout_of spans.now) source result }
    ensures few { IsStepOrder result }
{
    spans.sound();
    let group = spans.group(source).unwrap();
    StepOrder::new(group.class(), group.members().len())
}
