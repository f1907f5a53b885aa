//! Frees the pages of empty groups.
ghost use Rattle.std.specs.Prelude.{◌≡◌, Err, IfErr, IfOk};
ghost use Rattle.mesh_page_heap.specs.Indexes.{layout_of};
ghost use Rattle.mesh_page_heap.specs.StepChanges.{UnmapsGroup};
ghost use Rattle.model_heap.specs.Table.{sweep};
ghost use Rattle.mesh_page_heap.specs.PageHeap.{table_in};
ghost use Rattle.mesh_page_heap.specs.Sweeps.{CanUnmap, HasGone};

use super::PageHeap;
use crate::growth::give_pages;
use crate::step_order::order_of;
use crate::steps::virtual_page;
use mesh_pagemap::PageMap;
use mesh_spans::Spans;
use model_words::Refusal;

impl PageHeap {
    /// Removes the empty group `n`, unmaps its virtual pages and frees its physical pages. Returns the number of freed
    /// physical pages.
    ///
    /// The error is the first that applies, in this order: NO_GROUP, BUSY (the group is in a mesh), NOT_EMPTY. After an
    /// error, nothing has changed.
    pub fn sweep(&mut self, n: u32) -> Result<u32, Refusal>
        ensures swept { IfOk result (HasGone self.old self.new n) }
        ensures refused { IfErr result
            (λ refusal. (sweep (table_in self.old) n ≡ Err refusal) × (self.new ≡ self.old)) }
    {
        self.spans.sound();
        let Some(group) = self.spans.group(n) else {
            return Err(Refusal::NoGroup);
        };
        if group.in_mesh() {
            return Err(Refusal::Busy);
        }
        if !group.is_empty() {
            return Err(Refusal::NotEmpty);
        }
        let count = group.class().pages();
        give_pages(&mut self.store.arena, group.pages());
        unmap_group(&mut self.store.map, &self.spans, n);
        self.spans.retire(n);
        Ok(count)
    }
}

/// Unmaps the virtual pages of a group.
fn unmap_group(map: &mut PageMap, spans: &Spans, n: u32)
    requires { CanUnmap (layout_of spans.now) map.old n }
    ensures { UnmapsGroup (layout_of spans.now) map.old map.new n }
{
    let total = order_of(spans, n).virtual_pages;
    'pages: for i in 0..total {
        map.unmap(virtual_page(spans, n, i));
    }
}
