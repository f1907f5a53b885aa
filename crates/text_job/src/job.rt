//! The content of a job file.
ghost use Rattle.std.specs.Prelude.{◌≡◌, ◌<◌, ◌≤◌, length, slice_index_or};

use crate::{Plan, Script};
use model_words::Version;
use std::marker::Model;

/// The scripts of a job's workers. A job has 1 to 64 workers. The script of worker `w` has index `w`.
#[derive(Drop)]
pub struct Scripts {
    scripts: Vec<Script>,
}

impl Model for Scripts {
    ghost use Rattle.std.specs.Prelude.{◌≤◌, List, length};
    ghost use Rattle.model_words.specs.declared.commands.Command.{Command};

    ghost Value = { List (List Command) };

    ghost view = { λ s. s.scripts.items };

    ghost invariant = { λ s. (1 ≤ length s.scripts.items) × (length s.scripts.items ≤ 64) };
}

impl Scripts {
    /// Returns the scripts of workers 0, 1, .. in this order. There must be 1 to 64 scripts.
    pub fn new(scripts: Vec<Script>) -> Self
        requires some { 1 ≤ length scripts.items }
        requires few { length scripts.items ≤ 64 }
        ensures { result ≡ scripts.items }
    {
        Scripts { scripts }
    }

    /// Returns the number of workers, 1 to 64.
    pub fn count(&self) -> usize
        ensures value { result ≡ length self.now }
        ensures some { 1 ≤ result }
        ensures few { result ≤ 64 }
    {
        self.scripts.len()
    }

    /// Returns the script of worker `worker`.
    pub fn of(&self, worker: u32) -> &Script
        requires { worker < length self.now }
        ensures { result.now ≡ slice_index_or self.now worker result.now }
    {
        &self.scripts[worker as usize]
    }
}

/// A job: the size of a heap, the scripts of the workers that use the heap, and the plan, which gives the order of
/// their attempts.
///
/// The type's invariant limits a job to 1 to 4,096 pages and a journal of at most 65,536 entries. The plan runs only
/// existing workers and has only lines of the job's version. The limits are this project's own choice.
pub struct Job {
    /// The version of the job file.
    pub version: Version,
    /// The number of physical pages of the arena.
    pub pages: u32,
    /// The number of entries that the journal has room for.
    pub history: u32,
    /// The commands of each worker.
    pub scripts: Scripts,
    /// The attempts of the workers and the calls of the mesher, in their order.
    pub plan: Plan,
}

impl Model for Job {
    ghost use Rattle.std.specs.Prelude.{length};
    ghost use Rattle.model_jobs.specs.Jobs.{Job as PlainJob};
    ghost use Rattle.text_job.specs.Job.{IsJob};

    ghost Value = { PlainJob };

    ghost view = { λ j.
        record { version = j.version; pages = j.pages; history = j.history; scripts = j.scripts; plan = j.plan } };

    ghost invariant = { λ j. IsJob j.version j.pages j.history (length j.scripts) j.plan };
}

#[rattlefmt::skip]
impl Drop for Job {
    fn drop(self) { let Job { version: _, pages: _, history: _, scripts: _, plan: _ } = self; }
}
