//! Compares explorations on a heap with the rule that decides a list of steps on pages.

use crate::tests::cases::TWO_SLOTS;
use crate::tests::runs::{KINDS, run};
use explore_otherwise::{Explorer, Phase, first_fault, first_wrong};
use model_orders::{Step as PageStep, rule};
use model_otherwise::Step;
use std::alloc::Global;
use text_job::{Job, read_file};

/// The number of lists of five steps.
const LISTS: usize = 7776;

/// The greatest number of commands that the client gives.
const COMMANDS: u32 = 2;

/// Returns the step of a number, in both crates.
fn step_of(number: usize) -> (Step, PageStep) {
    match number {
        0 => (Step::Protect, PageStep::Protect),
        1 => (Step::Hide, PageStep::Hide),
        2 => (Step::Copy, PageStep::Copy),
        3 => (Step::Remap, PageStep::Remap),
        4 => (Step::Unprotect, PageStep::Unprotect),
        _ => (Step::Release, PageStep::Release),
    }
}

/// Returns the digits of a number below 7,776 to the base 6.
fn digits_of(number: usize) -> [usize; 5] {
    [
        number % 6,
        number / 6 % 6,
        number / 36 % 6,
        number / 216 % 6,
        number / 1296 % 6,
    ]
}

/// Whether the digits are all different.
fn are_different(digits: &[usize; 5]) -> bool {
    (0..5).all(|i| (i + 1..5).all(|j| digits[i] != digits[j]))
}

/// Whether an exploration finds no wrong answer and no fault.
fn is_clean(alloc: Global, explorer: &Explorer<'_>) -> Option<bool> {
    if first_wrong(alloc, explorer).ok()?.is_some() {
        return Some(false);
    }
    for kind in KINDS {
        if first_fault(alloc, explorer, kind).ok()?.is_some() {
            return Some(false);
        }
    }
    Some(true)
}

/// Whether the rule allows the list of these steps, and whether an exploration with the list finds nothing.
fn verdicts(alloc: Global, digits: &[usize; 5], job: &Job) -> Option<(bool, bool)> {
    let mut phases = Vec::new(alloc);
    let mut steps = Vec::new(alloc);
    for digit in digits {
        let (step, page_step) = step_of(*digit);
        let phase = Phase {
            steps: vec![in alloc; step].ok()?,
            most: None,
            page: None,
            is_once: false,
        };
        phases.push(phase).ok()?;
        steps.push(page_step).ok()?;
    }
    let reached = run(alloc, job, phases.as_slice(), COMMANDS)?;
    let is_clean = is_clean(alloc, &reached.system)?;
    Some((rule(steps.as_slice()).is_ok(), is_clean))
}

#[test]
fn rule_and_explorations_agree(rt: HostRuntime) {
    let Ok(job) = read_file(rt.alloc(), TWO_SLOTS.as_bytes()) else {
        panic!(rt; "no job");
    };
    let mut allowed = 0u32;
    for number in 0..LISTS {
        let digits = digits_of(number);
        if !are_different(&digits) {
            continue;
        }
        let Some((is_allowed, is_clean)) = verdicts(rt.alloc(), &digits, &job) else {
            panic!(rt; "not explored: {number}");
        };
        assert_eq!(rt; is_allowed, is_clean, "list {number}");
        allowed = allowed.saturating_add(u32::from(is_allowed));
    }
    assert_eq!(rt; allowed, 6);
}
