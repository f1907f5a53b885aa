//! The text about the last state of an interleaving.
ghost use Rattle.std.specs.Prelude.{◌≡◌, ◌++◌, ◌<◌, OnOk, length, slice_get};
ghost use Rattle.explore_interleavings.specs.Attempts.{answer_of};
ghost use Rattle.explore_report.specs.EndTexts.{end_text, groups_text, mesh_text, phase_text, stopped_at, stopped_text, text_of_some, texts_below, worker_text};
ghost use Rattle.explore_report.specs.Phases.{phase_at};

use crate::job_lines::command_line;
use crate::outcome_text::add_numbered;
use crate::phase_at;
use crate::phase_text::add_phase;
use crate::settings::{meshers_of, pair_of, workers_of};
use explore_interleavings::{Attempted, StateAt, attempt_at};
use std::alloc::{AllocError, Global};
use text_job::Job;
use text_words::add_decimal;

/// Adds the text about a state in which no move is left: the phase of each mesh and, for each worker that has commands
/// left, the reason why the worker can't continue.
pub fn add_end(alloc: Global, text: &mut Vec<u8>, state: &StateAt<'_>) -> Result<(), AllocError>
    ensures { OnOk result (text.new.items ≡ text.old.items ++ end_text state.now.setting state.now.state) }
{
    text.extend_from_slice(b"  end:")?;
    add_meshes(text, state)?;
    add_workers(alloc, text, state)?;
    text.extend_from_slice(b"\n")
}

/// Adds the groups and the phase of each mesh.
fn add_meshes(text: &mut Vec<u8>, state: &StateAt<'_>) -> Result<(), AllocError>
    ensures { OnOk result (text.new.items
        ≡ text.old.items
        ++ texts_below (mesh_text state.now.setting state.now.state) (length state.now.setting.pairs)) }
{
    for mesher in 0..meshers_of(state) {
        add_mesh(text, state, mesher)?;
    }
    Ok(())
}

/// Adds the groups and the phase of a mesh, after a space for the first mesh, or else after a comma.
fn add_mesh(text: &mut Vec<u8>, state: &StateAt<'_>, mesher: usize) -> Result<(), AllocError>
    ensures { OnOk result
        (text.new.items ≡ text.old.items ++ mesh_text state.now.setting state.now.state mesher) }
{
    text.extend_from_slice(if mesher == 0 { b" " } else { b", " })?;
    add_groups(text, state, mesher)?;
    add_phase_of(text, state, mesher)
}

/// Adds the groups of a mesher. Adds nothing if there is no such mesher.
fn add_groups(text: &mut Vec<u8>, state: &StateAt<'_>, mesher: usize) -> Result<(), AllocError>
    ensures { OnOk result (text.new.items
        ≡ text.old.items ++ text_of_some groups_text (slice_get state.now.setting.pairs mesher)) }
{
    let Some(pair) = pair_of(state, mesher) else {
        return Ok(());
    };
    add_numbered(text, b"mesh", u64::from(pair.source))?;
    text.push(b':')?;
    add_decimal(text, u64::from(pair.destination))?;
    text.push(b' ')?;
    Ok(())
}

/// Adds the phase of a mesher's mesh. Adds nothing if there is no such mesher.
fn add_phase_of(text: &mut Vec<u8>, state: &StateAt<'_>, mesher: usize) -> Result<(), AllocError>
    ensures { OnOk result (text.new.items
        ≡ text.old.items ++ text_of_some phase_text (phase_at state.now.setting state.now.state mesher)) }
{
    match phase_at(state, mesher) {
        Some(phase) => add_phase(text, phase),
        None => Ok(()),
    }
}

/// Adds each worker that can't continue, with the reason.
fn add_workers(alloc: Global, text: &mut Vec<u8>, state: &StateAt<'_>) -> Result<(), AllocError>
    ensures { OnOk result (text.new.items
        ≡ text.old.items
        ++ texts_below (worker_text state.now.setting state.now.state) (length state.now.setting.job.scripts)) }
{
    for worker in 0..workers_of(state) {
        add_worker(alloc, text, state, worker as u32)?;
    }
    Ok(())
}

/// Adds the reason why a worker can't continue: the history is full, or the worker's next command is blocked. Adds
/// nothing if the worker has no command left, or if the worker's next attempt gets a reply.
fn add_worker(
    alloc: Global,
    text: &mut Vec<u8>,
    state: &StateAt<'_>,
    worker: u32,
) -> Result<(), AllocError>
    requires { worker < length state.now.setting.job.scripts }
    ensures { OnOk result
        (text.new.items ≡ text.old.items ++ worker_text state.now.setting state.now.state worker) }
{
    let job: &Job = state.setting().job;
    let line = command_line(job, worker, state.place_of(worker));
    let answer = attempt_at(alloc, state, worker)?;
    add_stopped(text, worker, line, &answer)
}

/// Adds a worker with the line of its next command, and the reason why it can't continue. Adds nothing if the answer is
/// no reason.
fn add_stopped(
    text: &mut Vec<u8>,
    worker: u32,
    line: u64,
    answer: &Attempted,
) -> Result<(), AllocError>
    ensures { OnOk result
        (text.new.items ≡ text.old.items ++ stopped_text (stopped_at worker line) (answer_of answer.now)) }
{
    match answer {
        Attempted::Full => add_reason(text, worker, line, b" history full"),
        Attempted::Blocked => add_reason(text, worker, line, b" blocked"),
        Attempted::Over | Attempted::Replied(_) => Ok(()),
    }
}

/// Adds a worker with the line of its next command, and the text of a reason.
fn add_reason(text: &mut Vec<u8>, worker: u32, line: u64, reason: &[u8]) -> Result<(), AllocError>
    ensures { OnOk result (text.new.items ≡ text.old.items ++ stopped_at worker line ++ reason.now) }
{
    add_numbered(text, b", worker", u64::from(worker))?;
    add_numbered(text, b" line", line)?;
    text.extend_from_slice(reason)
}
