//! The meshes of a heap: the calls of a mesher.
ghost use Rattle.std.specs.Prelude.{◌≡◌, Ok, IsOk};
ghost use Rattle.std.specs.Option.{option_map};
ghost use Rattle.model_heap.specs.Mesh.{any_mesh, begin, cancel, first_mesh, mesh_in, mesh_of_class, mesh_whole, step};
ghost use Rattle.model_heap.specs.MeshLaws.{steps_of_class};
ghost use Rattle.model_heap.specs.Table.{sweep};
ghost use Rattle.mesh_steps.specs.Heap.{table_of};
ghost use Rattle.mesh_steps.specs.HeapMeshes.{IsAnswered, IsMeshBegun, IsMeshCancelled, IsMeshed, IsStepMade, IsSwept, KeepsMeaning};
ghost use Rattle.mesh_page_heap.specs.Meshes.{busy_by};

use super::Heap;
use crate::StepDone;
use mesh_class::Class;
use mesh_page_heap::Busy;
use model_words::Refusal;

impl Heap {
    /// Begins a mesh of the group `source` into the group `destination`, and returns the number of its steps. Both
    /// groups are closed to new objects until the mesh has ended. The call allocates nothing.
    ///
    /// The error is the first of NO_GROUP, SAME, CLASS, BUSY (a mesh of the groups' class runs), OVERLAP and MEMBERS
    /// that applies.
    pub fn begin(&mut self, source: u32, destination: u32) -> Result<u32, Refusal>
        ensures { IsAnswered KeepsMeaning self.old self.new
            (begin mesh_of_class (table_of self.old) source destination) result
            (IsMeshBegun mesh_of_class self.old self.new source destination) }
    {
        self.start(source, destination, Busy::OfClass)
    }

    /// Makes the next step of the mesh of a class. The call allocates nothing, and its time doesn't depend on the
    /// number of groups.
    ///
    /// The error is NO_MESH if and only if no mesh of the class runs.
    pub fn step(&mut self, class: Class) -> Result<StepDone, Refusal>
        ensures { IsAnswered KeepsMeaning self.old self.new
            (step (table_of self.old) (mesh_in (table_of self.old) class)) result (IsStepMade self.old self.new class) }
    {
        self.pages.sound();
        self.pages.step(class)
    }

    /// Cancels the mesh of a class before its first remap, and returns the number of unprotect steps left. If this
    /// number is 0, the mesh has ended. A further cancel returns the number of unprotect steps left, and changes
    /// nothing. The call allocates nothing.
    ///
    /// The error is NO_MESH if no mesh of the class runs, and TOO_LATE if a page was already remapped.
    pub fn cancel(&mut self, class: Class) -> Result<u32, Refusal>
        ensures { IsAnswered KeepsMeaning self.old self.new
            (cancel (table_of self.old) (mesh_in (table_of self.old) class)) result
            (IsMeshCancelled self.old self.new class) }
    {
        self.pages.sound();
        self.pages.cancel(class)
    }

    /// Begins a mesh of the group `source` into the group `destination`, makes all its steps, and returns the number of
    /// freed physical pages. The call allocates nothing.
    ///
    /// The error is the first of NO_GROUP, SAME, CLASS, BUSY (a mesh of the groups' class runs), OVERLAP and MEMBERS
    /// that applies.
    pub fn mesh_whole(&mut self, source: u32, destination: u32) -> Result<u32, Refusal>
        ensures { IsAnswered KeepsMeaning self.old self.new
            (mesh_whole mesh_of_class (table_of self.old) source destination) result
            (IsMeshed mesh_of_class self.old self.new source destination) }
    {
        self.whole(source, destination, Busy::OfClass)
    }

    /// Frees the pages of an empty group, and returns the number of freed physical pages. The virtual pages of the
    /// group's members are unmapped, and never used again. The call allocates nothing.
    ///
    /// The error is the first that applies, in this order: NO_GROUP, BUSY (the group is in a mesh), NOT_EMPTY.
    pub fn sweep(&mut self, group: u32) -> Result<u32, Refusal>
        ensures { IsAnswered KeepsMeaning self.old self.new (sweep (table_of self.old) group) result
            (IsSwept self.old self.new group) }
    {
        self.pages.sound();
        self.pages.sweep(group)
    }

    /// Begins a mesh as `begin` does, except that BUSY applies if a mesh of any class runs. The call allocates nothing.
    pub fn begin_alone(&mut self, source: u32, destination: u32) -> Result<u32, Refusal>
        ensures { IsAnswered KeepsMeaning self.old self.new
            (begin any_mesh (table_of self.old) source destination) result
            (IsMeshBegun any_mesh self.old self.new source destination) }
    {
        self.start(source, destination, Busy::Any)
    }

    /// Meshes two groups as `mesh_whole` does, except that BUSY applies if a mesh of any class runs. The call allocates
    /// nothing.
    pub fn whole_alone(&mut self, source: u32, destination: u32) -> Result<u32, Refusal>
        ensures { IsAnswered KeepsMeaning self.old self.new
            (mesh_whole any_mesh (table_of self.old) source destination) result
            (IsMeshed any_mesh self.old self.new source destination) }
    {
        self.whole(source, destination, Busy::Any)
    }

    /// Whether a mesh of the class runs.
    pub fn running(&self, class: Class) -> bool
        ensures { result ≡ mesh_of_class (table_of self.now) class }
    {
        self.pages.is_busy(Busy::OfClass, class)
    }

    /// The class of the running mesh that began first. `None` if no mesh runs.
    pub fn first_running(&self) -> Option<Class>
        ensures { result ≡ option_map (λ mesh. mesh.class) (first_mesh (table_of self.now)) }
    {
        self.pages.first_running()
    }

    /// Begins a mesh, and returns the number of its steps. The errors are those of `begin`, except that `busy`
    /// determines which running meshes cause the refusal BUSY.
    fn start(&mut self, source: u32, destination: u32, busy: Busy) -> Result<u32, Refusal>
        ensures { IsAnswered KeepsMeaning self.old self.new
            (begin (busy_by busy) (table_of self.old) source destination) result
            (IsMeshBegun (busy_by busy) self.old self.new source destination) }
    {
        self.pages.sound();
        self.pages.begin(source, destination, busy)
    }

    /// Begins a mesh, makes all its steps, and returns the number of freed physical pages. The errors are those of
    /// `start`.
    fn whole(&mut self, source: u32, destination: u32, busy: Busy) -> Result<u32, Refusal>
        ensures { IsAnswered KeepsMeaning self.old self.new
            (mesh_whole (busy_by busy) (table_of self.old) source destination) result
            (IsMeshed (busy_by busy) self.old self.new source destination) }
    {
        self.sound();
        let left = self.start(source, destination, busy)?;
        let class = self.pages.class_of(source).unwrap();
        self.finish(class, left);
        Ok(class.pages())
    }

    /// Makes `steps` steps of the mesh of a class.
    fn finish(&mut self, class: Class, steps: u32)
        requires { IsOk (steps_of_class class steps (table_of self.old)) }
        ensures table { steps_of_class class steps (table_of self.old) ≡ Ok (table_of self.new) }
        ensures kept { KeepsMeaning self.old self.new }
    {
        'steps: for _made in 0..steps {
            let _done = self.step(class);
        }
    }
}
