//! `CallVerdict`, the verdict on a history of overlapping calls.
use crate::flaws::Flaw;
use crate::misuses::Misuse;
use history_object::JudgeFault;

/// The verdict on a history of overlapping calls.
#[derive(Drop)]
pub enum CallVerdict {
    /// Some order of effect explains the calls that ended, with some of those that were pending when the recording
    /// stopped. The number is the number of all calls.
    Linearizable(u32),
    /// `Misused(line, misuse)`: the calls are no history, because the call in this line breaks a rule of use. So the
    /// recorded program is wrong, and nothing is said of the allocator.
    Misused(u32, Misuse),
    /// `Flawed(line, flaw)`: no order of effect explains the calls, whichever pending ones had an effect. The flaw is
    /// the reason. It was found at the end of the call in this line. The calls that began before that end break no rule
    /// of use, so the allocator is wrong.
    Flawed(u32, Flaw),
    /// `Undecided(line, fault)`: the judge stopped at the call in this line. The fault is the reason: too many
    /// configurations, or too many pending accesses.
    Undecided(u32, JudgeFault),
}
