//! A lemma about what remains of a table after a sweep of all groups. It is the contract of a function that does
//! nothing.
ghost use Rattle.savings_replay.specs.Sweeps.{SweptLeavesFilled};

/// If no mesh runs, a sweep of all groups leaves exactly the groups that have an object.
pub fn sweeps_leave_filled_groups()
    ensures { SweptLeavesFilled }
{}
