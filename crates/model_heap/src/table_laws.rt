//! Laws of the table: its transitions keep a sound table sound. Each is the contract of a function that does nothing.
ghost use Rattle.model_heap.specs.TableLaws.{EmptyIsSound, FreeKeepsSound, SweepKeepsSound, BeginKeepsSound, WholeKeepsSound, CancelKeepsSound, StepKeepsSound, NewKeepsSound, SpanKeepsSound, GroupsAreSound, PageIsOnceInGroup, PageIsOfOneGroup, OpenIsByTests, FoundIsOpen, NewHasLength, NewIsApart, NewIsVacant, AnyTellsBusy, ClassTellsBusy};

/// The table with no span is sound.
pub fn empty_is_sound()
    ensures { EmptyIsSound }
{}

/// Freeing an object keeps the table sound.
pub fn free_keeps_sound()
    ensures { FreeKeepsSound }
{}

/// Removing an empty group keeps the table sound.
pub fn sweep_keeps_sound()
    ensures { SweepKeepsSound }
{}

/// The start of a mesh keeps the table sound, and so does a whole mesh.
pub fn begin_keeps_sound()
    ensures begun { BeginKeepsSound }
    ensures whole { WholeKeepsSound }
{}

/// A cancel of any running mesh keeps the table sound.
pub fn cancel_keeps_sound()
    ensures { CancelKeepsSound }
{}

/// A step of any running mesh keeps the table sound.
pub fn step_keeps_sound()
    ensures { StepKeepsSound }
{}

/// A new object keeps the table sound, and so does a new span.
pub fn new_keeps_sound()
    ensures object { NewKeepsSound }
    ensures span { SpanKeepsSound }
{}

/// Each group of a sound table is sound. No virtual page occurs twice in a group, or in two groups.
pub fn groups_are_sound()
    ensures found { GroupsAreSound }
    ensures once { PageIsOnceInGroup }
    ensures own { PageIsOfOneGroup }
{}

/// A group is open to new objects of a class if and only if the group is of this class, is in no mesh, and has a free
/// slot. If the search for an open group returns a group, this group is open.
pub fn groups_are_open()
    ensures tests { OpenIsByTests }
    ensures found { FoundIsOpen }
{}

/// A new object that is not refused has 1 to 2,048 bytes.
pub fn new_has_length()
    ensures { NewHasLength }
{}

/// A new object overlaps no object of the table. If table and memory are tied, no live object of the memory has an
/// address in the new object's range.
pub fn new_is_apart()
    ensures slots { NewIsApart }
    ensures vacant { NewIsVacant }
{}

/// `any_mesh` and `mesh_of_class` are tests of busy classes: if one of these tests is false for a class, no mesh of
/// that class is running.
pub fn busy_tests()
    ensures any { AnyTellsBusy }
    ensures of_class { ClassTellsBusy }
{}
