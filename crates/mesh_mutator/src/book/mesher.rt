//! A mesher's calls on a book. Each is the call of the same name on the book's heap. No call is recorded, and the
//! journal still ends in the reference memory that heap and roots represent.
ghost use Rattle.std.specs.Prelude.{◌≡◌, length, IfOk};
ghost use Rattle.std.specs.Option.{option_map};
ghost use Rattle.model_heap.specs.Mesh.{any_mesh, begin, cancel, first_mesh, mesh_in, mesh_of_class, mesh_whole, step};
ghost use Rattle.model_search.specs.Search.{view_of, views};
ghost use Rattle.model_heap.specs.Table.{report_of, sweep};
ghost use Rattle.mesh_mutator.specs.Book.{table_of_book};
ghost use Rattle.mesh_mutator.specs.Mesher.{KeepsBook};
ghost use Rattle.mesh_steps.specs.Heap.{arena_of};
ghost use Rattle.mesh_steps.specs.HeapMeshes.{IsAnswered, IsMeshBegun, IsMeshCancelled, IsMeshed, IsStepMade, IsSwept};
ghost use Rattle.mesh_page_heap.specs.PageHeap.{counts_told};

use super::Book;
use mesh_class::Class;
use mesh_search::ClassView;
use mesh_steps::{Report, StepDone};
use model_words::Refusal;
use std::alloc::{AllocError, Global};

impl Book {
    /// Returns the candidates of each class (the groups that a search may pair), with the classes in ascending order of
    /// size. Returns an error if an allocation fails.
    pub fn views(&self, alloc: Global) -> Result<Vec<ClassView>, AllocError>
        ensures { IfOk result (λ list. list.items ≡ views (table_of_book self.now)) }
    {
        self.heap.views(alloc)
    }

    /// Returns the candidates of one class: the groups that a search may pair. Returns an error if an allocation fails.
    pub fn view(&self, alloc: Global, class: Class) -> Result<ClassView, AllocError>
        ensures { IfOk result (λ view. view ≡ view_of (table_of_book self.now) class) }
    {
        self.heap.view(alloc, class)
    }

    /// Begins a mesh of the group `source` into the group `destination`, and returns the number of its steps.
    ///
    /// The error is the first of NO_GROUP, SAME, CLASS, BUSY (a mesh of the groups' class runs), OVERLAP and MEMBERS
    /// that applies.
    pub fn begin(&mut self, source: u32, destination: u32) -> Result<u32, Refusal>
        ensures { IsAnswered KeepsBook self.old self.new
            (begin mesh_of_class (table_of_book self.old) source destination) result
            (IsMeshBegun mesh_of_class self.old.heap self.new.heap source destination) }
    {
        self.heap.begin(source, destination)
    }

    /// Makes the next step of the mesh of a class. The error is NO_MESH if and only if no mesh of the class runs.
    pub fn step(&mut self, class: Class) -> Result<StepDone, Refusal>
        ensures { IsAnswered KeepsBook self.old self.new
            (step (table_of_book self.old) (mesh_in (table_of_book self.old) class)) result
            (IsStepMade self.old.heap self.new.heap class) }
    {
        self.heap.step(class)
    }

    /// Cancels the mesh of a class before its first remap, and returns the number of unprotect steps left. If this
    /// number is 0, the mesh is over. A further cancel returns the number of unprotect steps left, and changes nothing.
    ///
    /// The error is NO_MESH if no mesh of the class runs, and TOO_LATE if a page was already remapped.
    pub fn cancel(&mut self, class: Class) -> Result<u32, Refusal>
        ensures { IsAnswered KeepsBook self.old self.new
            (cancel (table_of_book self.old) (mesh_in (table_of_book self.old) class)) result
            (IsMeshCancelled self.old.heap self.new.heap class) }
    {
        self.heap.cancel(class)
    }

    /// Begins a mesh, makes all its steps, and returns the number of freed physical pages. The errors are those of
    /// `begin`.
    pub fn mesh_whole(&mut self, source: u32, destination: u32) -> Result<u32, Refusal>
        ensures { IsAnswered KeepsBook self.old self.new
            (mesh_whole mesh_of_class (table_of_book self.old) source destination) result
            (IsMeshed mesh_of_class self.old.heap self.new.heap source destination) }
    {
        self.heap.mesh_whole(source, destination)
    }

    /// Frees the pages of an empty group, and returns the number of freed physical pages.
    ///
    /// The error is the first that applies, in this order: NO_GROUP, BUSY (the group is in a mesh), NOT_EMPTY.
    pub fn sweep(&mut self, group: u32) -> Result<u32, Refusal>
        ensures { IsAnswered KeepsBook self.old self.new (sweep (table_of_book self.old) group) result
            (IsSwept self.old.heap self.new.heap group) }
    {
        self.heap.sweep(group)
    }

    /// Begins a mesh as `begin` does, except that BUSY applies if a mesh of any class runs.
    pub fn begin_alone(&mut self, source: u32, destination: u32) -> Result<u32, Refusal>
        ensures { IsAnswered KeepsBook self.old self.new
            (begin any_mesh (table_of_book self.old) source destination) result
            (IsMeshBegun any_mesh self.old.heap self.new.heap source destination) }
    {
        self.heap.begin_alone(source, destination)
    }

    /// Meshes two groups as `mesh_whole` does, except that BUSY applies if a mesh of any class runs.
    pub fn whole_alone(&mut self, source: u32, destination: u32) -> Result<u32, Refusal>
        ensures { IsAnswered KeepsBook self.old self.new
            (mesh_whole any_mesh (table_of_book self.old) source destination) result
            (IsMeshed any_mesh self.old.heap self.new.heap source destination) }
    {
        self.heap.whole_alone(source, destination)
    }

    /// Whether a mesh of the class runs.
    pub fn running(&self, class: Class) -> bool
        ensures { result ≡ mesh_of_class (table_of_book self.now) class }
    {
        self.heap.running(class)
    }

    /// The class of the running mesh that began first, or `None` if no mesh runs.
    pub fn first_running(&self) -> Option<Class>
        ensures { result ≡ option_map (λ mesh. mesh.class) (first_mesh (table_of_book self.now)) }
    {
        self.heap.first_running()
    }

    /// The heap's counts: live objects and their bytes, mapped and taken pages, and how many pages meshing saves.
    pub fn report(&self) -> Report
        ensures { counts_told result ≡ report_of (length (arena_of self.now.heap)) (table_of_book self.now) }
    {
        self.heap.report()
    }
}
