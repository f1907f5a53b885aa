//! The state after the plan of a job.
ghost use Rattle.std.specs.Prelude.{◌≡◌, ◌+◌, ◌<◌, IfErr, IfOk, IfSome, Ok, OnOk, replicate, slice_index, slice_set};
ghost use Rattle.model_jobs.specs.Jobs.{RunWorker};
ghost use Rattle.model_otherwise.specs.States.{asked, outcome_of};
ghost use Rattle.model_words.specs.Commands.{IsInRange};
ghost use Rattle.otherwise_report.specs.PlanStarts.{IsPlayed, IsUnplayed, attempted, fresh_state, line_played, plan_setting, played, played_from, state_of_start};
ghost use Rattle.text_job.specs.Plan.{line_of};

use crate::errors::StepsError;
use crate::whole::mesh_whole;
use explore_otherwise::Start;
use explore_pages::try_command;
use model_otherwise::Tried;
use model_words::Command;
use std::alloc::{AllocError, Global};
use text_job::{Job, PlanLine};

/// Returns the start of an exploration that follows the plan of a job. The error is `PlanLine` with the number of a
/// line that is neither an attempt of a worker nor a mesh that is made at once, or is an attempt that isn't answered.
/// Searches and reports change nothing, and are passed over.
pub(crate) fn started(alloc: Global, job: &Job) -> Result<Start, StepsError>
    ensures ok { IfOk result (λ start. played job.now ≡ Ok (state_of_start start)) }
    ensures fault { IfErr result (IsUnplayed (played job.now)) }
{
    let mut start = fresh(alloc, job)?;
    let mut number = 0u32;
    for line in job.plan.lines() {
        number = next_number(number)?;
        if !play(alloc, job, &mut start, line)? {
            return Err(StepsError::PlanLine(number));
        }
    }
    Ok(start)
}

/// Returns the number behind a number. Also returns an error if it needs more than 32 bits.
fn next_number(number: u32) -> Result<u32, AllocError>
    ensures { IfOk result (λ next. next ≡ number + 1) }
{
    match number.checked_add(1) {
        Some(next) => Ok(next),
        None => Err(AllocError),
    }
}

/// Returns the start before the plan.
fn fresh(alloc: Global, job: &Job) -> Result<Start, AllocError>
    ensures { IfOk result (λ start. state_of_start start ≡ fresh_state job.now) }
{
    let mut start = Start::fresh(alloc)?;
    start.places = vec![in alloc; 0u32; job.scripts.count()]?;
    Ok(start)
}

/// Plays a line of the plan. Returns false if the line is neither an attempt of a worker nor a mesh that is made at
/// once, or is an attempt that isn't answered. Then, and after an error, the start must not be used.
fn play(alloc: Global, job: &Job, start: &mut Start, line: &PlanLine) -> Result<bool, AllocError>
    ensures { IfOk result (λ is_played. IsPlayed
        (line_played (plan_setting job.now) (state_of_start start.old) (line_of line.now)) is_played
        (state_of_start start.new)) }
{
    match line {
        PlanLine::Run(worker) => run(alloc, job, start, *worker),
        PlanLine::Whole {
            source,
            destination,
        } => {
            mesh_whole(alloc, &start.memory, &mut start.heap, *source, *destination)?;
            Ok(true)
        }
        PlanLine::Pair(_) | PlanLine::Report => Ok(true),
        _ => Ok(false),
    }
}

/// Makes an attempt of a worker. Returns false if there is a command and it isn't answered. Then, and after an error,
/// the start must not be used.
fn run(alloc: Global, job: &Job, start: &mut Start, worker: u32) -> Result<bool, AllocError>
    ensures { IfOk result (λ is_played. IsPlayed
        (attempted (plan_setting job.now) (state_of_start start.old) worker
        (outcome_of (plan_setting job.now) (state_of_start start.old) worker)) is_played (state_of_start start.new)) }
{
    let Some(command) = command_of(job, start, worker) else {
        return Ok(true);
    };
    let tried = try_command(
        alloc,
        job.pages,
        &mut start.memory,
        &mut start.heap,
        &command,
    )?;
    let Tried::Answered(_) = tried else {
        return Ok(false);
    };
    pass(&mut start.places, worker)?;
    start.entries += 1;
    Ok(true)
}

/// Returns the next command of a worker, if there is one and it may be answered.
fn command_of(job: &Job, start: &Start, worker: u32) -> Option<Command>
    ensures command { result ≡ asked (plan_setting job.now) (state_of_start start.now) worker }
    ensures room { IfSome result (λ _. start.now.entries < job.now.history) }
    ensures range { IfSome result IsInRange }
{
    if job.history <= start.entries || job.scripts.count() <= worker as usize {
        return None;
    }
    let place = match start.places.get(worker as usize) {
        Some(place) => *place,
        None => 0,
    };
    job.scripts.of(worker).get(place as usize)
}

/// Passes a worker's command. Also returns an error if its place needs more than 32 bits.
fn pass(places: &mut Vec<u32>, worker: u32) -> Result<(), AllocError>
    ensures { OnOk result (places.new.items
        ≡ slice_set places.old.items worker (slice_index places.old.items worker + 1)) }
{
    let Some(place) = places.get_mut(worker as usize) else {
        return Ok(());
    };
    let Some(next) = place.checked_add(1) else {
        return Err(AllocError);
    };
    *place = next;
    Ok(())
}
