//! Laws of the reference step (`PlainStep`): which steps are impossible, and when memory and command determine the
//! reply. Each law is the contract of a function that does nothing.
ghost use Rattle.model_memory.specs.StepLaws.{PlainIsStep, PlainRefusalIsStep, StepDetermined, NoneIsMadeOverAnother, MadeIsNext, ZeroIsOfNone, TooLargeIsAbove, NoPagesIsBetween, NoAddressesIsBetween, RefusalLeavesMemory, ReplyDetermined, RoomIsOpen};

/// A new object has 1 to 2,048 bytes and the next serial, and overlaps no live object.
pub fn objects_are_made_apart()
    ensures apart { NoneIsMadeOverAnother }
    ensures next { MadeIsNext }
{}

/// A `new` can be refused with ZERO if and only if its length is 0, and with TOO_LARGE if and only if its length is
/// above 2,048 bytes. It can be refused with NO_PAGES or NO_ADDRESSES if and only if its length is 1 to 2,048 bytes.
pub fn new_refusals_are_by_length()
    ensures zero { ZeroIsOfNone }
    ensures too_large { TooLargeIsAbove }
    ensures no_pages { NoPagesIsBetween }
    ensures no_addresses { NoAddressesIsBetween }
{}

/// A refusal doesn't change the memory.
pub fn refusals_leave_memory()
    ensures { RefusalLeavesMemory }
{}

/// Memory and command determine the reply, except for a `new` of 1 to 2,048 bytes. In that case the reply is the next
/// serial with some address, or the refusal NO_PAGES or NO_ADDRESSES.
pub fn replies_are_determined()
    ensures others { ReplyDetermined }
    ensures room { RoomIsOpen }
{}

/// If the reference memory's function (`plain`) returns a reply and a memory, these are the reply and the memory of a
/// reference step. For a `new`, the object's range must be vacant. If `plain` refuses a command, the refusal with the
/// unchanged memory is a reference step.
pub fn plain_is_step()
    ensures done { PlainIsStep }
    ensures refused { PlainRefusalIsStep }
{}

/// The memory before a reference step, the command and its reply determine the memory after the step.
pub fn step_is_determined()
    ensures { StepDetermined }
{}
