//! A session, and its answer to a line.
ghost use Rattle.std.specs.Prelude.{◌≡◌, ◌≤◌, ◌++◌, Err, IfOk, OnOk};
ghost use Rattle.model_jobs.specs.Jobs.{initial_state};
ghost use Rattle.model_words.specs.declared.faults.FaultKind.{FaultKind};
ghost use Rattle.run_live.specs.LiveLines.{IsValidLive, live_line, live_of};
ghost use Rattle.mesh_mutator.specs.Headline.{EndsInMeaning, IsHistory};
ghost use Rattle.run_live.specs.Answers.{live_told, told};
ghost use Rattle.run_live.specs.Sessions.{HasFairSizes, IsSession, book_of, job_of, sizes_of, state_of};

use crate::Sizes;
use crate::answers::add_fault;
use crate::idle::idle_job;
use crate::live_lines::{LiveLine, read_live_line};
use mesh_mutator::Book;
use mesh_text::Turns;
use std::alloc::{AllocError, Global};
use text_job::{Job, LineError};

/// A heap that answers one line at a time.
pub struct Session {
    /// A job of the session's sizes, with empty scripts and an empty plan.
    pub(crate) job: Job,
    /// The heap, and the place of each worker in its script. All scripts are over.
    pub(crate) turns: Turns,
}

#[rattlefmt::skip]
impl Drop for Session {
    fn drop(self) { let Session { job: _, turns: _ } = self; }
}

impl Session {
    /// Opens a session over a fresh heap.
    pub fn open(alloc: Global, sizes: &Sizes) -> Result<Session, AllocError>
        requires { HasFairSizes sizes.now }
        ensures sizes { IfOk result (λ session. sizes_of session ≡ sizes.now) }
        ensures initial_state { IfOk result (λ session. state_of session ≡ initial_state (job_of sizes.now)) }
        ensures sound { IfOk result IsSession }
    {
        let job = idle_job(alloc, sizes)?;
        let turns = Turns::open(alloc, &job)?;
        Ok(Session { job, turns })
    }

    /// Returns the book after the lines so far: the heap, its root cells and its journal. The journal is a legal
    /// history of the reference memory. The journal ends in the memory that the heap and its cells represent.
    /// `Book::headline` states what else holds of the book at any moment.
    pub fn book(&self) -> &Book
        ensures value { result.now ≡ book_of self.now }
        ensures legal { IsHistory (book_of self.now).entries }
        ensures ends { EndsInMeaning (book_of self.now) }
    {
        let book = self.turns.book();
        book.headline();
        book
    }

    /// Answers a line, which is passed without its end. Appends the answer to `text`, without a line end.
    ///
    /// `run W COMMAND` is an attempt of worker W at this command, spelt as in a script of version 2. Any other line
    /// must be one of a plan of version 2, but not `run W`. Each line is answered as in a replay, and `blocked` and
    /// `history full` are answers too. A line of any other form changes nothing. Its answer is `fault KIND`, with the
    /// kind that a reader of job files reports.
    ///
    /// It may occur after the effect of the line, so the session can't continue after an error.
    pub fn answer(
        &mut self,
        alloc: Global,
        line: &[u8],
        text: &mut Vec<u8>,
    ) -> Result<(), AllocError>
        requires sound { IsSession self.old }
        ensures sound { OnOk result (IsSession self.new) }
        ensures sizes { OnOk result (sizes_of self.new ≡ sizes_of self.old) }
        ensures told { OnOk result
            (text.new.items ≡ text.old.items ++ (told (sizes_of self.old) (state_of self.old) line.now).text) }
        ensures stands { OnOk result
            (state_of self.new ≡ (told (sizes_of self.old) (state_of self.old) line.now).state) }
        ensures fault { (kind : FaultKind) → live_line (sizes_of self.old).workers line.now ≡ Err kind
            → self.new ≡ self.old }
    {
        match read_live_line(alloc, self.workers(), line) {
            Ok(line) => self.answer_line(alloc, &line, text),
            Err(LineError::Kind(kind)) => add_fault(text, kind),
            Err(LineError::Memory) => Err(AllocError),
        }
    }

    /// The number of workers.
    fn workers(&self) -> u32
        ensures value { result ≡ (sizes_of self.now).workers }
        ensures some { 1 ≤ result }
    {
        self.job.scripts.count() as u32
    }

    /// Answers a line that was read.
    fn answer_line(
        &mut self,
        alloc: Global,
        line: &LiveLine,
        text: &mut Vec<u8>,
    ) -> Result<(), AllocError>
        requires sound { IsSession self.old }
        requires in_range { IsValidLive (sizes_of self.old).workers (live_of line.now) }
        ensures sound { OnOk result (IsSession self.new) }
        ensures sizes { OnOk result (sizes_of self.new ≡ sizes_of self.old) }
        ensures told { OnOk result
            (text.new.items ≡ text.old.items
            ++ (live_told (sizes_of self.old) (state_of self.old) (live_of line.now)).text) }
        ensures stands { OnOk result
            (state_of self.new ≡ (live_told (sizes_of self.old) (state_of self.old) (live_of line.now)).state) }
    {
        match line {
            LiveLine::Attempt(worker, command) => self.turns.attempt(*worker, command, text),
            LiveLine::Call(line) => self.turns.answer(alloc, &self.job, line, text),
        }
    }
}
