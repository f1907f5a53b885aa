//! Laws of addresses: a live object keeps its address and its length, and a freed object is never live again. Each law
//! is the contract of a function that does nothing.
ghost use Rattle.model_memory.specs.AddressLaws.{LiveKeepsAddress, RunsKeepAddress, SerialsGoUp, FreedStaysFreed, MadeKeepsAddress, FreedIsGone, BeginningsAreLegal};

/// A reference step keeps the address and the length of each live object, unless the step is a successful `free` of the
/// object. After a sequence of steps, an object has its address and length as before, or one of the steps has freed the
/// object.
pub fn live_objects_keep_their_addresses()
    ensures step { LiveKeepsAddress }
    ensures runs { RunsKeepAddress }
{}

/// If an object isn't live and its serial was used, no reference step makes the object live. No step lowers the next
/// serial, so no serial is used twice.
pub fn freed_objects_stay_freed()
    ensures serials { SerialsGoUp }
    ensures step { FreedStaysFreed }
{}

/// An object that a legal history made keeps its length, and the address in the reply to its `new`, until a later entry
/// frees the object. After that entry the object isn't live. Each beginning of a legal history is legal.
pub fn histories_keep_addresses()
    ensures kept { MadeKeepsAddress }
    ensures gone { FreedIsGone }
    ensures beginnings { BeginningsAreLegal }
{}
