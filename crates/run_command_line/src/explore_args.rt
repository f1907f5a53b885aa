//! The arguments of `explore`, and of `draw` with `--mesh`.
ghost use Rattle.run_command_line.specs.ExploreArgs.{AreInRange};

use crate::Meshes;
use model_otherwise::Timing;

/// The arguments of `explore`, or of `draw` with `--mesh`, other than its file. The type guarantees that `meshes`,
/// `cancel` and `states` are in their ranges.
#[derive(Clone, Copy)]
pub struct ExploreArgs<'a> {
    /// The meshes, one to ten.
    pub meshes: Meshes,
    /// The number of steps after which each mesh is cancelled, 0 to 1,000. `None` if meshes aren't cancelled.
    pub cancel: Option<u32>,
    /// The greatest number of states that the exploration may keep, 1 to 10,000,000.
    pub states: u32,
    /// The selection of what is printed.
    pub told: Told<'a>,
    /// Whether a verdict may be positive although some mesh begins in no interleaving.
    pub allows_no_mesh: bool,
    /// Whether the number of found states is printed on standard error even if standard error is no terminal.
    pub is_watched: bool,
    pub ghost ranges: { AreInRange meshes cancel states },
}

/// The selection of what an exploration prints.
#[derive(Clone, Copy)]
pub enum Told<'a> {
    /// All answers and outcomes.
    All,
    /// The outcome with this number, as a job file.
    Outcome(u32),
    /// An answer in a phase of a mesh, as a job file.
    Answer(ShownArgs<'a>),
    /// A verdict on the outcomes. If a path is given, the outcomes are compared with those that the file at this path
    /// lists. The conditions of the request are judged too.
    Verdict(Option<&'a str>),
    /// A report on meshes that are made by a list of steps, or a picture of a shortest plan to what goes wrong.
    Steps(StepsArgs<'a>),
}

/// The list of steps by which meshes are made, who gives commands, and how a client's accesses are made.
#[derive(Clone, Copy)]
pub struct StepsArgs<'a> {
    /// The list of steps. `None` for the steps of the heap's own meshes.
    pub list: Option<&'a str>,
    /// The greatest number of commands that a client gives, 0 to 1,000. `None` if the job's workers give theirs.
    pub commands: Option<u32>,
    /// How loads, stores and frees are made.
    pub timing: Timing,
    /// The number of cards in a row, 0 for the number that fits, if a picture of a shortest plan is asked for. `None`
    /// for a report.
    pub picture: Option<u32>,
}

/// The answer that `--show` names.
#[derive(Clone, Copy)]
pub struct ShownArgs<'a> {
    /// The line of the command in the job file, counted from 1.
    pub line: u32,
    /// The answer, as it is printed.
    pub answer: &'a str,
    /// The phase, as it is printed.
    pub phase: &'a str,
}
