//! Explorations of a job by a client.

use explore_otherwise::{Asking, Explorer, Pair, Phase, Setting, Start, explored};
use model_otherwise::{FaultKind, Making, Timing, Tried};
use states_reach::{Reached, Unwatched};
use std::alloc::Global;
use text_job::{Job, Script};

/// A number of states that no exploration exceeds.
const MOST: usize = 100_000;

/// The number of physical pages.
const PAGES: u16 = 16;

/// Each command is one move.
const AT_ONCE: Timing = Timing {
    loads: Making::Whole,
    stores: Making::Whole,
    frees: Making::Whole,
};

/// The groups of the mesh.
static PAIRS: [Pair; 1] = [Pair {
    source: 1,
    destination: 0,
}];

/// The kinds of faults.
pub(crate) const KINDS: [FaultKind; 7] = [
    FaultKind::WrongByte,
    FaultKind::SharedPlace,
    FaultKind::FreePage,
    FaultKind::NoPage,
    FaultKind::LostPage,
    FaultKind::ApartGroup,
    FaultKind::ProtectedPage,
];

/// Returns the start to which the commands of a script lead. `None` if a command isn't answered.
fn start_of(alloc: Global, commands: &Script) -> Option<Start> {
    let mut start = Start::fresh(alloc).ok()?;
    for place in 0..commands.len() {
        let command = commands.get(place)?;
        let tried = start.give(alloc, PAGES, &command).ok()?;
        if !matches!(tried, Tried::Answered(_)) {
            return None;
        }
    }
    Some(start)
}

/// Explores a job of two scripts: the first one leads to the start, and the second one has the commands of a client, of
/// which it gives at most `commands`. `None` if the job can't be explored.
pub(crate) fn run<'a>(
    alloc: Global,
    job: &'a Job,
    phases: &'a [Phase],
    commands: u32,
) -> Option<Reached<Explorer<'a>>> {
    if job.scripts.count() != 2 {
        return None;
    }
    let start = start_of(alloc, job.scripts.of(0))?;
    let setting = Setting {
        phases,
        checked: true,
        pages: PAGES,
        version: job.version,
        room: commands,
        asking: Asking::Client(job.scripts.of(1)),
        timing: AT_ONCE,
        pairs: &PAIRS,
    };
    explored(alloc, &setting, start, MOST, &mut Unwatched).ok()
}
