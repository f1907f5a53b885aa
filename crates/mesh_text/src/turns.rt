//! `Turns`: a job's heap, on which the workers and the mesher make their calls in the order of the plan.
ghost use Rattle.std.specs.Prelude.{◌≡◌, ◌+◌, ◌<◌, ◌++◌, [], ◌∷◌, length, slice_get, slice_index, slice_index_or, vec_len, IfOk, OnOk};
ghost use Rattle.model_jobs.specs.JobFiles.{IsValidLine};
ghost use Rattle.model_jobs.specs.Jobs.{Job as PlainJob, RunWorker, State, answer, initial_state, run_next};
ghost use Rattle.model_words.specs.Commands.{IsInRange};
ghost use Rattle.text_job.specs.Plan.{line_of};
ghost use Rattle.model_jobs.specs.Texts.{ended};
ghost use Rattle.mesh_text.specs.Turns.{IsAt, IsTold, StandsBehind, book_of, lines_up_to, places_of, worker_count};

use crate::answers::{add_counted, add_found, add_report, add_step};
use crate::mesher::{begin, cancel_first, pair, step_first, whole};
use mesh_mutator::{Attempt, Book};
use mesh_steps::Heap;
use model_words::Command;
use std::alloc::{AllocError, Global};
use text_job::{Job, PlanLine, Script};
use text_words::add_reply;

/// The heap of a job with its root cells and its journal, and each worker's place in its script.
pub struct Turns {
    pub(crate) book: Book,
    /// For each worker, the place of its next command in its script, counted from 0.
    pub(crate) next: Vec<usize>,
}

#[rattlefmt::skip]
impl Drop for Turns {
    fn drop(self) { let Turns { book: _, next: _ } = self; }
}

impl Turns {
    /// Returns a fresh heap, with each worker at the start of its script.
    pub fn open(alloc: Global, job: &Job) -> Result<Turns, AllocError>
        ensures workers { IfOk result (λ turns. worker_count turns ≡ length job.now.scripts) }
        ensures initial_state { IfOk result
            (λ turns. IsAt job.now (initial_state job.now) (book_of turns) (places_of turns)) }
        ensures stands { IfOk result (StandsBehind job.now 0) }
    {
        let next = vec![in alloc; 0; job.scripts.count()]?;
        let book = Book::open(alloc, job.pages, job.history)?;
        Ok(Turns { book, next })
    }

    /// Returns the heap after the lines that have been run.
    pub fn heap(&self) -> &Heap
        ensures { result.now ≡ (book_of self.now).heap }
    {
        self.book.heap()
    }

    /// Returns the heap, with its root cells and its journal, after the lines that have been run.
    pub fn book(&self) -> &Book
        ensures { result.now ≡ book_of self.now }
    {
        &self.book
    }

    /// Returns the command that a worker attempts next, or `None` if the worker has no command left or doesn't exist.
    pub fn next_command(&self, job: &Job, worker: u32) -> Option<Command>
        requires { worker_count self.now ≡ length job.now.scripts }
        ensures { result ≡ slice_get (slice_index_or job.now.scripts worker [])
            (slice_index (places_of self.now) worker) }
    {
        let place = *self.next.get(worker as usize)?;
        job.scripts.of(worker).get(place)
    }

    /// Runs the line at `place`, counted from 0, of a job's plan. Replaces the content of `text` with the answer,
    /// without a line end. All earlier lines must have been run.
    pub fn play(
        &mut self,
        alloc: Global,
        job: &Job,
        place: usize,
        text: &mut Vec<u8>,
    ) -> Result<(), AllocError>
        requires within { place < length job.now.plan }
        requires stands { StandsBehind job.now place self.old }
        ensures stands { OnOk result (StandsBehind job.now (place + 1) self.new) }
        ensures told { OnOk result
            (lines_up_to job.now (place + 1) ≡ lines_up_to job.now place ++ ended text.new.items) }
    {
        text.clear();
        self.answer(alloc, job, &job.plan.lines()[place], text)
    }

    /// Runs a line as if it were the next line of the plan, and appends its answer, without a line end.
    pub fn answer(
        &mut self,
        alloc: Global,
        job: &Job,
        line: &PlanLine,
        text: &mut Vec<u8>,
    ) -> Result<(), AllocError>
        requires fits { IsValidLine job.now.version (length job.now.scripts) (line_of line.now) }
        requires workers { worker_count self.old ≡ length job.now.scripts }
        ensures workers { worker_count self.new ≡ worker_count self.old }
        ensures told { OnOk result ((state : State) → IsAt job.now state (book_of self.old) (places_of self.old)
            → IsTold job.now (answer job.now state (line_of line.now)) (book_of self.new)
            (places_of self.new) text.old.items text.new.items) }
    {
        let book = &mut self.book;
        match line {
            PlanLine::Run(worker) => self.run(*worker, job.scripts.of(*worker), text),
            PlanLine::Pair(asked) => add_found(text, &pair(alloc, book, asked)?),
            PlanLine::Begin {
                source,
                destination,
            } => add_counted(
                text,
                b"left ",
                begin(book, job.version, *source, *destination),
            ),
            PlanLine::Step => add_step(text, step_first(book)),
            PlanLine::Cancel => add_counted(text, b"left ", cancel_first(book)),
            PlanLine::StepClass(class) => add_step(text, book.step(*class)),
            PlanLine::CancelClass(class) => add_counted(text, b"left ", book.cancel(*class)),
            PlanLine::Whole {
                source,
                destination,
            } => add_counted(
                text,
                b"meshed ",
                whole(book, job.version, *source, *destination),
            ),
            PlanLine::Sweep(group) => add_counted(text, b"swept ", book.sweep(*group)),
            PlanLine::Report => add_report(text, book.report()),
        }
    }

    /// Attempts a command that is in no script, for a worker whose script is over. Appends the answer, without a line
    /// end.
    pub fn attempt(
        &mut self,
        worker: u32,
        command: &Command,
        text: &mut Vec<u8>,
    ) -> Result<(), AllocError>
        requires { IsInRange command.now }
        ensures places { places_of self.new ≡ places_of self.old }
        ensures workers { worker_count self.new ≡ worker_count self.old }
        ensures told { OnOk result
            ((job : PlainJob) (state : State) → IsAt job state (book_of self.old) (places_of self.old)
            → slice_index_or state.scripts worker [] ≡ []
            → IsTold job (run_next job state worker (command.now ∷ [])) (book_of self.new)
            (places_of self.new) text.old.items text.new.items) }
    {
        match self.book.act(worker, command) {
            Attempt::Done(reply) => add_reply(text, &reply),
            Attempt::Blocked => text.extend_from_slice(b"blocked"),
            Attempt::HistoryFull => text.extend_from_slice(b"history full"),
            Attempt::OutOfMemory => Err(AllocError),
        }
    }

    /// Attempts a worker's next command, and appends the answer, or `over` if the worker has no command left. If the
    /// attempt gets a reply, the worker's place is advanced to the next command. Otherwise, the place stays the same.
    fn run(&mut self, worker: u32, script: &Script, text: &mut Vec<u8>) -> Result<(), AllocError>
        requires { worker < vec_len self.old.next }
        ensures workers { vec_len self.new.next ≡ vec_len self.old.next }
        ensures told { OnOk result ((job : PlainJob) (state : State)
            → IsAt job state self.old.book self.old.next.items → vec_len self.old.next ≡ length job.scripts
            → script.now ≡ slice_index_or job.scripts worker []
            → IsTold job
            (answer job state (RunWorker worker)) self.new.book self.new.next.items text.old.items text.new.items) }
    {
        let place = self.next[worker as usize];
        let Some(command) = script.get(place) else {
            return text.extend_from_slice(b"over");
        };
        match self.book.act(worker, &command) {
            Attempt::Done(reply) => {
                self.next[worker as usize] = place + 1;
                add_reply(text, &reply)
            }
            Attempt::Blocked => text.extend_from_slice(b"blocked"),
            Attempt::HistoryFull => text.extend_from_slice(b"history full"),
            Attempt::OutOfMemory => Err(AllocError),
        }
    }
}
