//! `StepOrder`, the number and order of the steps of a mesh.
ghost use Rattle.std.specs.Prelude.{◌≡◌, ◌+◌, ◌-◌, ◌<◌, ◌≤◌, Some, map, min, slice_get, sum, take};
ghost use Rattle.model_heap.specs.Mesh.{kind_after, step_count};
ghost use Rattle.model_heap.specs.StepEffects as effects;
ghost use Rattle.model_heap.specs.Table.{Group};
ghost use Rattle.model_jobs.specs.Texts.{kind_text};
ghost use Rattle.model_words.specs.declared.commands.StepKind.TheVariants.{Copy, Release};
ghost use Rattle.mesh_running.specs.StepOrders.{IsStepOrder, order_of, order_steps, order_with, steps_before, steps_of};

use mesh_class::Class;
use model_words::StepKind;

/// The maximum number of members of a group.
pub const MAX_MEMBERS: usize = 8;

/// The kinds of step, in the order in which a mesh makes them.
pub const KINDS: [StepKind; 5] = [
    StepKind::Protect,
    StepKind::Copy,
    StepKind::Remap,
    StepKind::Unprotect,
    StepKind::Release,
];

/// Returns the index of a kind of step in `KINDS`.
pub fn place_of(kind: StepKind) -> usize
    ensures place { slice_get KINDS result ≡ Some kind }
    ensures before { (order : StepOrder) → steps_before order kind ≡ sum (map (steps_of order) (take result KINDS)) }
{
    match kind {
        StepKind::Protect => 0,
        StepKind::Copy => 1,
        StepKind::Remap => 2,
        StepKind::Unprotect => 3,
        StepKind::Release => 4,
    }
}

/// Returns the name of a kind of step, as answer lines, explorations and pictures print it.
pub fn kind_name(kind: StepKind) -> &'static str
    ensures { result.now ≡ kind_text kind }
{
    match kind {
        StepKind::Protect => "protect",
        StepKind::Copy => "copy",
        StepKind::Remap => "remap",
        StepKind::Unprotect => "unprotect",
        StepKind::Release => "release",
    }
}

/// The numbers that determine how many steps of each kind a mesh makes.
#[derive(Clone, Copy, PartialEq, Eq)]
pub struct StepOrder {
    /// The number of virtual pages of the source. A mesh makes a protect, a remap and an unprotect step for each of
    /// these pages.
    pub virtual_pages: u32,
    /// The number of slots of the class. A mesh makes a copy step for each slot.
    pub slots: u32,
    /// The number of physical pages of the source. A mesh makes a release step for each of these pages.
    pub pages: u32,
}

impl StepOrder {
    /// Returns the step order of a mesh whose source is a group of this class with `members` members.
    pub fn new(class: Class, members: usize) -> StepOrder
        requires { members ≤ 8 }
        ensures value { result ≡ order_with class members }
        ensures few { IsStepOrder result }
    {
        StepOrder {
            virtual_pages: members as u32 * class.pages(),
            slots: class.slots(),
            pages: class.pages(),
        }
    }

    /// Returns the number of all steps of a mesh.
    pub fn steps(self) -> u32
        requires { IsStepOrder self }
        ensures value { result ≡ order_steps self }
        ensures of_group { (source : Group) → self ≡ order_of source → result ≡ step_count source }
    {
        3 * self.virtual_pages + self.slots + self.pages
    }

    /// Returns the number of steps of one kind.
    pub fn steps_of(self, kind: StepKind) -> u32
        ensures { result ≡ steps_of self kind }
    {
        match kind {
            StepKind::Protect | StepKind::Remap | StepKind::Unprotect => self.virtual_pages,
            StepKind::Copy => self.slots,
            StepKind::Release => self.pages,
        }
    }

    /// Returns the kind of the step that follows the first `made` steps, and that step's number, from 0, among the
    /// steps of its kind. If all steps are made, the kind is `Release`.
    pub fn step_after(self, made: u32) -> (StepKind, u32)
        ensures number { made ≡ steps_before self result.0 + result.1 }
        ensures within { made < order_steps self → result.1 < steps_of self result.0 }
        ensures of_group { (source : Group) → self ≡ order_of source
            → (result.0 ≡ kind_after source made) × (result.1 ≡ made - effects.steps_before source result.0) }
    {
        if made < self.virtual_pages {
            return (StepKind::Protect, made);
        }
        let made = made - self.virtual_pages;
        if made < self.slots {
            return (StepKind::Copy, made);
        }
        let made = made - self.slots;
        if made < self.virtual_pages {
            return (StepKind::Remap, made);
        }
        let made = made - self.virtual_pages;
        if made < self.virtual_pages {
            return (StepKind::Unprotect, made);
        }
        (StepKind::Release, made - self.virtual_pages)
    }

    /// Returns the number of slots that the first `made` steps copy.
    pub fn copied_after(self, made: u32) -> u32
        ensures { result ≡ min (made - steps_before self Copy) self.slots }
    {
        made.saturating_sub(self.virtual_pages).min(self.slots)
    }

    /// Returns the number of physical pages that the first `made` steps release, if a mesh has that many steps.
    pub fn released_after(self, made: u32) -> u32
        requires { IsStepOrder self }
        ensures { result ≡ made - steps_before self Release }
    {
        made.saturating_sub(3 * self.virtual_pages + self.slots)
    }
}
