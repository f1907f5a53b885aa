//! The rule that decides a list of steps by one walk.
ghost use Rattle.std.specs.Prelude.{◌≡◌};
ghost use Rattle.model_orders.specs.Wrong.{fault_of, first_wrong, verdict};

use crate::facts::Facts;
use crate::steps::Step;
use crate::wrong::{Reason, Wrong};

/// Decides whether a mesh with these steps is safe. Otherwise returns the first wrong step and the reason.
pub fn rule(steps: &[Step]) -> Result<(), Wrong>
    ensures { result ≡ verdict (first_wrong steps.now) }
{
    let mut facts = Facts::first();
    for place in 0..steps.len() {
        if let Some(reason) = fault_of(facts, steps[place]) {
            return Err(Wrong { place, reason });
        }
        facts = facts.after(steps[place]);
    }
    match facts.end_fault() {
        Some(reason) => Err(Wrong {
            place: steps.len(),
            reason,
        }),
        None => Ok(()),
    }
}

/// Returns the reason why a step is wrong here, if there is one: it must not be made, or the pages are wrong after it.
fn fault_of(facts: Facts, step: Step) -> Option<Reason>
    ensures { result ≡ fault_of step facts }
{
    match facts.step_fault(step) {
        Some(reason) => Some(reason),
        None => facts.after(step).fault(),
    }
}
