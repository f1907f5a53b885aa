//! The view of a heap that a mesher's search gets.
ghost use Rattle.std.specs.Prelude.{◌≡◌, IfOk};
ghost use Rattle.model_search.specs.Search.{view_of, views};
ghost use Rattle.mesh_steps.specs.Heap.{table_of};

use super::Heap;
use mesh_class::{Class, all_classes};
use mesh_search::ClassView;
use std::alloc::{AllocError, Global};

impl Heap {
    /// Returns the candidates of each class (the groups that a search may pair), with the classes in ascending order of
    /// size. Returns an error if an allocation fails.
    pub fn views(&self, alloc: Global) -> Result<Vec<ClassView>, AllocError>
        ensures { IfOk result (λ list. list.items ≡ views (table_of self.now)) }
    {
        let mut views = Vec::new(alloc);
        for class in all_classes() {
            views.push(self.view(alloc, class)?)?;
        }
        Ok(views)
    }

    /// Returns the candidates of one class: the groups that a search may pair. Returns an error if an allocation fails.
    pub fn view(&self, alloc: Global, class: Class) -> Result<ClassView, AllocError>
        ensures { IfOk result (λ view. view ≡ view_of (table_of self.now) class) }
    {
        self.pages.view(alloc, class)
    }
}
