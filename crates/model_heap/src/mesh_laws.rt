//! Laws of running meshes: how the steps of a mesh are counted, that at most one mesh of each class is running, and
//! when a step or a cancel is refused. Each law is the contract of a function that does nothing.
ghost use Rattle.model_heap.specs.MeshLaws.{WholeIsAllSteps, StepsLeaveGroups, UnwindingLeavesGroups, CancelLeavesGroups, BeginAnswersAllSteps, BeginLeavesSteps, StepTakesOne, LastStepEnds, OthersKeepTheirSteps, StepsCountDown, CancelAnswersLeft, CancelOfNoneEnds, WholeIsAllStepsOfClass, WholeIsAllStepsAlone, WholeIsAllStepsBeside, SoundHasOneAClass, BeginKeepsOneAClass, WholeKeepsOneAClass, StepKeepsOneAClass, CancelKeepsOneAClass, MeshInIsOfClass, ClassHasMesh, StepIsRefusedWithoutMesh, CancelIsRefusedWithoutMesh, CancelIsRefusedLate, CancelHasTwoRefusals};

/// `begin` returns the number of all steps of the mesh. After `begin`, this number of steps is left.
pub fn begin_answers_all_steps()
    ensures answered { BeginAnswersAllSteps }
    ensures to_come { BeginLeavesSteps }
{}

/// A step of a class lowers the number of steps left in the class's mesh by one. The numbers of the other classes don't
/// change. The step ends the mesh if and only if no step is left.
pub fn steps_count_down()
    ensures one { StepTakesOne }
    ensures last { LastStepEnds }
    ensures others { OthersKeepTheirSteps }
    ensures many { StepsCountDown }
{}

/// A cancel returns the number of steps left after the cancel. The cancel ends the mesh if and only if no step is left.
pub fn cancel_answers_left()
    ensures left { CancelAnswersLeft }
    ensures none { CancelOfNoneEnds }
{}

/// A whole mesh gives the same table as `begin` followed by all steps of the mesh's class, even if meshes of other
/// classes are running.
pub fn whole_mesh_is_all_steps_of_its_class()
    ensures tested { WholeIsAllStepsOfClass }
    ensures any { WholeIsAllStepsAlone }
    ensures of_class { WholeIsAllStepsBeside }
{}

/// In a sound table, at most one mesh of each class is running. This is also true after `begin`, a whole mesh, a step
/// and a cancel.
pub fn at_most_one_a_class()
    ensures sound { SoundHasOneAClass }
    ensures begin { BeginKeepsOneAClass }
    ensures whole { WholeKeepsOneAClass }
    ensures step { StepKeepsOneAClass }
    ensures cancel { CancelKeepsOneAClass }
{}

/// If `mesh_in` returns a mesh for a class, the mesh is a running mesh of that class. `mesh_in` returns a mesh if and
/// only if `mesh_of_class` is true for the class.
pub fn mesh_of_class_is_found()
    ensures is { MeshInIsOfClass }
    ensures some { ClassHasMesh }
{}

/// A step of a class is refused if and only if no mesh of the class is running. The refusal is NO_MESH. A cancel of a
/// class is refused with NO_MESH if and only if no mesh of the class is running, and with TOO_LATE if and only if the
/// class's running mesh has remapped a page. A cancel has no other refusal.
pub fn steps_and_cancels_are_refused()
    ensures step { StepIsRefusedWithoutMesh }
    ensures none { CancelIsRefusedWithoutMesh }
    ensures late { CancelIsRefusedLate }
    ensures only { CancelHasTwoRefusals }
{}

/// If no other mesh is running, a whole mesh gives the same table as `begin` followed by all steps of the mesh.
pub fn whole_mesh_is_all_steps()
    ensures { WholeIsAllSteps }
{}

/// Only the last step of a mesh changes a group. So no earlier step changes the address or the slot of an object. A
/// cancel and an unprotect of a cancelled mesh change neither the groups nor the number of free pages.
pub fn meshing_leaves_groups()
    ensures steps { StepsLeaveGroups }
    ensures unwinding { UnwindingLeavesGroups }
    ensures cancel { CancelLeavesGroups }
{}
