//! The results of the judge at a call: a flaw, or the reason why the judge stops.
use crate::flaws::Flaw;
use history_object::JudgeFault;

/// The first flaw of a history.
#[derive(Drop)]
pub struct Found {
    /// The number of the call at whose end the flaw was found. Calls are numbered from 0 in the order of their starts.
    pub number: u32,
    /// The flaw.
    pub flaw: Flaw,
}

/// The reason why the judge stops at a call, with the number of the call.
#[derive(Clone, Copy, PartialEq, Eq)]
pub struct Stop {
    /// The number of the call.
    pub number: u32,
    /// The reason why the judge stops.
    pub fault: JudgeFault,
}
