//! What the rule knows of each page between two steps.
ghost use Rattle.std.specs.Prelude.{◌≡◌};
ghost use Rattle.model_orders.specs.Rule.{facts_after, first_facts};
ghost use Rattle.model_orders.specs.Wrong.{access_fault, copy_fault, end_fault, facts_fault, release_fault, step_fault};

use crate::steps::Step;
use crate::wrong::Reason;

/// Which accesses a virtual page allows.
#[derive(Clone, Copy)]
pub(crate) enum Protection {
    /// Loads and stores.
    ReadWrite,
    /// Loads alone.
    ReadOnly,
    /// No access.
    Hidden,
}

/// A side of the mesh, and its physical page.
#[derive(Clone, Copy)]
pub(crate) enum Side {
    /// The group whose pages are moved.
    Source,
    /// The group whose pages remain.
    Destination,
}

/// Which physical pages have the right bytes: those of the reference memory.
#[derive(Clone, Copy)]
pub(crate) enum Truth {
    /// The source's page alone.
    InSource,
    /// Both pages.
    InBoth,
    /// The destination's page alone.
    InDestination,
}

/// What the rule knows of each page between two steps.
#[derive(Clone, Copy)]
pub(crate) struct Facts {
    /// Which accesses the virtual page allows.
    pub protection: Protection,
    /// The side to whose physical page the virtual page is mapped.
    pub target: Side,
    /// Which physical pages have the right bytes.
    pub truth: Truth,
    /// Whether the source's physical page is released.
    pub released: bool,
}

impl Facts {
    /// Returns the facts before the first step.
    pub(crate) fn first() -> Facts
        ensures { result ≡ first_facts }
    {
        Facts {
            protection: Protection::ReadWrite,
            target: Side::Source,
            truth: Truth::InSource,
            released: false,
        }
    }

    /// Returns the facts after a step.
    pub(crate) fn after(self, step: Step) -> Facts
        ensures { result ≡ facts_after step self }
    {
        match step {
            Step::Protect => Facts {
                protection: Protection::ReadOnly,
                ..self
            },
            Step::Hide => Facts {
                protection: Protection::Hidden,
                ..self
            },
            Step::Copy => match (self.protection, self.truth) {
                (Protection::ReadWrite, truth) => Facts { truth, ..self },
                _ => Facts {
                    truth: Truth::InBoth,
                    ..self
                },
            },
            Step::Remap => Facts {
                target: Side::Destination,
                ..self
            },
            Step::Unprotect => {
                let truth = match (self.target, self.truth) {
                    (Side::Source, Truth::InBoth) => Truth::InSource,
                    (Side::Destination, Truth::InBoth) => Truth::InDestination,
                    (_, truth) => truth,
                };
                Facts {
                    protection: Protection::ReadWrite,
                    truth,
                    ..self
                }
            }
            Step::Release => Facts {
                truth: Truth::InDestination,
                released: true,
                ..self
            },
        }
    }

    /// Returns the reason why a step must not be made here, if there is one.
    pub(crate) fn step_fault(self, step: Step) -> Option<Reason>
        ensures { result ≡ step_fault step self }
    {
        match step {
            Step::Copy => copy_fault(self.truth),
            Step::Release => release_fault(self.target, self.truth, self.released),
            Step::Protect | Step::Hide | Step::Remap | Step::Unprotect => None,
        }
    }

    /// Returns the reason why these facts are wrong between two steps, if there is one.
    pub(crate) fn fault(self) -> Option<Reason>
        ensures { result ≡ facts_fault self }
    {
        access_fault(self.protection, self.target, self.truth)
    }

    /// Returns the reason why the list must not end here, if there is one.
    pub(crate) fn end_fault(self) -> Option<Reason>
        ensures { result ≡ end_fault self.target self.protection self.released }
    {
        match (self.target, self.protection, self.released) {
            (Side::Source, _, _) => Some(Reason::EndsMapped),
            (_, Protection::ReadOnly | Protection::Hidden, _) => Some(Reason::EndsBlocked),
            (_, _, false) => Some(Reason::EndsUnreleased),
            (_, _, true) => None,
        }
    }
}

/// Returns the reason why a copy must not be made, if there is one.
fn copy_fault(truth: Truth) -> Option<Reason>
    ensures { result ≡ copy_fault truth }
{
    match truth {
        Truth::InSource | Truth::InBoth => None,
        Truth::InDestination => Some(Reason::CopiesOldBytes),
    }
}

/// Returns the reason why a release must not be made, if there is one.
fn release_fault(target: Side, truth: Truth, released: bool) -> Option<Reason>
    ensures { result ≡ release_fault target truth released }
{
    match (target, truth) {
        (Side::Source, _) => Some(Reason::ReleasesMapped),
        (_, Truth::InSource) => Some(Reason::ReleasesOnlyBytes),
        _ if released => Some(Reason::ReleasesAgain),
        _ => None,
    }
}

/// Returns the reason why an access between two steps is wrong, if there is one.
fn access_fault(protection: Protection, target: Side, truth: Truth) -> Option<Reason>
    ensures { result ≡ access_fault protection target truth }
{
    match (protection, target, truth) {
        (Protection::Hidden, _, _)
        | (Protection::ReadWrite, Side::Source, Truth::InSource)
        | (Protection::ReadWrite, Side::Destination, Truth::InDestination)
        | (Protection::ReadOnly, Side::Source, Truth::InSource | Truth::InBoth)
        | (Protection::ReadOnly, Side::Destination, Truth::InBoth | Truth::InDestination) => None,
        (Protection::ReadWrite, _, _) => Some(Reason::StoresElsewhere),
        (Protection::ReadOnly, _, _) => Some(Reason::LoadsOldBytes),
    }
}
