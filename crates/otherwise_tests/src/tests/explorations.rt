//! Compares what explorations find with what another engine finds.

use crate::tests::cases::{CASES, Case};
use crate::tests::runs::{KINDS, run};
use explore_otherwise::{Explorer, Phase, first_fault, first_wrong};
use model_otherwise::FaultKind;
use states_reach::Reached;
use std::alloc::Global;
use text_job::{Job, read_file};

/// What an exploration finds: the number of states, the number of moves to a wrong answer, and the number of moves to a
/// fault of each kind.
#[derive(Drop)]
struct Findings {
    states: usize,
    answer: Option<u32>,
    faults: [Option<u32>; 7],
}

/// Returns the phases of a case.
fn phases_of(alloc: Global, case: &Case) -> Option<Vec<Phase>> {
    let mut phases = Vec::new(alloc);
    for (steps, is_once) in case.phases {
        let phase = Phase {
            steps: steps.to_vec(alloc).ok()?,
            most: None,
            page: None,
            is_once: *is_once,
        };
        phases.push(phase).ok()?;
    }
    Some(phases)
}

/// Returns the number of moves of a shortest path to the state at a place.
fn depth(reached: &Reached<Explorer<'_>>, place: usize) -> Option<u32> {
    let margins = reached.margins.get(place)?;
    Some(margins.moves)
}

/// Returns what an exploration finds. `None` if the job can't be explored.
fn found(alloc: Global, case: &Case, job: &Job) -> Option<Findings> {
    let phases = phases_of(alloc, case)?;
    let reached = run(alloc, job, phases.as_slice(), case.commands)?;
    let answer = match first_wrong(alloc, &reached.system).ok()? {
        Some(wrong) => Some(depth(&reached, wrong.place)?.saturating_add(1)),
        None => None,
    };
    let mut faults = [None; 7];
    for i in 0..7 {
        faults[i] = match first_fault(alloc, &reached.system, KINDS[i]).ok()? {
            Some(fault) => Some(depth(&reached, fault.place)?),
            None => None,
        };
    }
    Some(Findings {
        states: reached.system.len(),
        answer,
        faults,
    })
}

/// Returns the number of moves that a case expects to a fault of a kind, or `None` if it expects none.
fn expected(case: &Case, kind: FaultKind) -> Option<u32> {
    for (expected, moves) in case.faults {
        if *expected == kind {
            return Some(*moves);
        }
    }
    None
}

#[test]
fn finds_what_another_engine_finds(rt: HostRuntime) {
    for (number, case) in CASES.iter().enumerate() {
        let Ok(job) = read_file(rt.alloc(), case.job.as_bytes()) else {
            panic!(rt; "no job: {number}");
        };
        let Some(findings) = found(rt.alloc(), case, &job) else {
            panic!(rt; "not explored: {number}");
        };
        assert_eq!(rt; findings.states, case.states, "states of {number}");
        assert_eq!(rt; findings.answer, case.answer, "answer of {number}");
        for i in 0..7 {
            assert_eq!(rt;
                findings.faults[i],
                expected(case, KINDS[i]),
                "fault {i} of {number}"
            );
        }
    }
}
