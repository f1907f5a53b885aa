//! The plan of a job.
ghost use Rattle.std.specs.Prelude.{◌≡◌, map};
ghost use Rattle.text_job.specs.Plan.{line_of};

use mesh_class::Class;
use std::marker::Model;

/// A search for pairs of groups that can be meshed.
#[derive(Drop)]
pub struct Search {
    /// The class of the groups that are paired.
    pub class: Class,
    /// The greatest number of rounds.
    pub rounds: u32,
    /// The words that shuffle the candidates, at most 32.
    pub words: Vec<u64>,
}

/// One line of a job's plan: an attempt of a worker, or a call of the mesher.
#[derive(Drop)]
pub enum PlanLine {
    /// `Run(w)`: worker `w` attempts its next command.
    Run(u32),
    /// A search for pairs of groups that can be meshed. The search changes nothing.
    Pair(Box<Search>),
    /// A mesh of the group `source` into the group `destination` begins.
    Begin {
        /// The number of the source.
        source: u32,
        /// The number of the destination.
        destination: u32,
    },
    /// The one running mesh makes its next step. Only in version 1.
    Step,
    /// The one running mesh is cancelled. Only in version 1.
    Cancel,
    /// The running mesh of a class makes its next step. Only in version 2.
    StepClass(Class),
    /// The running mesh of a class is cancelled. Only in version 2.
    CancelClass(Class),
    /// The group `source` is meshed into the group `destination`, by all steps at once.
    Whole {
        /// The number of the source.
        source: u32,
        /// The number of the destination.
        destination: u32,
    },
    /// The pages of the empty group with this number are freed.
    Sweep(u32),
    /// The counts of the heap are reported.
    Report,
}

/// The lines of a job's plan, in their order.
#[derive(Drop)]
pub struct Plan {
    lines: Vec<PlanLine>,
}

impl Model for Plan {
    ghost use Rattle.std.specs.Prelude.{List, map};
    ghost use Rattle.model_jobs.specs.Jobs.{Line};
    ghost use Rattle.text_job.specs.Plan.{line_of};

    ghost Value = { List Line };

    ghost view = { λ p. map line_of p.lines.items };
}

impl Plan {
    /// Returns a plan of these lines.
    pub fn new(lines: Vec<PlanLine>) -> Self
        ensures { result ≡ map line_of lines.items }
    {
        Plan { lines }
    }

    /// Returns the lines of the plan in their order.
    pub fn lines(&self) -> &[PlanLine]
        ensures { map line_of result.now ≡ self.now }
    {
        self.lines.as_slice()
    }
}
