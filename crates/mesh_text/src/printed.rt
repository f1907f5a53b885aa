//! What a replay prints for a line of the plan: the answer alone, or the line before the answer.
ghost use Rattle.std.specs.Prelude.{◌≡◌, ◌++◌, length, OnOk};
ghost use Rattle.model_jobs.specs.Jobs.{State};
ghost use Rattle.text_job.specs.Plan.{line_of};
ghost use Rattle.mesh_text.specs.Echo.{attempt_field, command_field, echo_text};
ghost use Rattle.mesh_text.specs.Printed.{prefix_text};
ghost use Rattle.mesh_text.specs.Turns.{IsAt, book_of, places_of, worker_count};

use crate::turns::Turns;
use model_words::Command;
use std::alloc::AllocError;
use text_job::{Job, PlanLine, add_plan_line};
use text_words::add_command;

/// What a replay prints for a line of the plan.
#[derive(Clone, Copy)]
pub(crate) enum Printed {
    /// The answer.
    Answers,
    /// The line with its command, and the answer.
    Echo,
}

/// Appends what is printed before the answer to the next line of the plan.
pub(crate) fn add_prefix(
    printed: Printed,
    job: &Job,
    turns: &Turns,
    line: &PlanLine,
    text: &mut Vec<u8>,
) -> Result<(), AllocError>
    requires { worker_count turns.now ≡ length job.now.scripts }
    ensures { OnOk result ((state : State) → IsAt job.now state (book_of turns.now) (places_of turns.now)
        → text.new.items ≡ text.old.items ++ prefix_text printed state (line_of line.now)) }
{
    match printed {
        Printed::Answers => Ok(()),
        Printed::Echo => add_echo(job, turns, line, text),
    }
}

/// Appends a line of the plan as in a job file, the command that is attempted at it, and ` -> `.
fn add_echo(job: &Job, turns: &Turns, line: &PlanLine, text: &mut Vec<u8>) -> Result<(), AllocError>
    requires { worker_count turns.now ≡ length job.now.scripts }
    ensures { OnOk result ((state : State) → IsAt job.now state (book_of turns.now) (places_of turns.now)
        → text.new.items ≡ text.old.items ++ echo_text state (line_of line.now)) }
{
    add_plan_line(text, line)?;
    add_attempted(job, turns, line, text)?;
    text.extend_from_slice(b" -> ")?;
    Ok(())
}

/// Appends a space and the command that is attempted at a line of the plan. Appends nothing if the line isn't a
/// worker's, or the worker's script is over.
fn add_attempted(
    job: &Job,
    turns: &Turns,
    line: &PlanLine,
    text: &mut Vec<u8>,
) -> Result<(), AllocError>
    requires { worker_count turns.now ≡ length job.now.scripts }
    ensures { OnOk result ((state : State) → IsAt job.now state (book_of turns.now) (places_of turns.now)
        → text.new.items ≡ text.old.items ++ attempt_field state (line_of line.now)) }
{
    match line {
        PlanLine::Run(worker) => add_command_field(text, turns.next_command(job, *worker)),
        _ => Ok(()),
    }
}

/// Appends a space and a command, if there is a command.
fn add_command_field(text: &mut Vec<u8>, command: Option<Command>) -> Result<(), AllocError>
    ensures { OnOk result (text.new.items ≡ text.old.items ++ command_field command) }
{
    match command {
        Some(command) => {
            text.push(b' ')?;
            add_command(text, &command)
        }
        None => Ok(()),
    }
}
