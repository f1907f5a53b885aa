//! `MeshCounts`: what a mesher did in a run, as counts.
ghost use Rattle.std.specs.Prelude.{◌≡◌};
ghost use Rattle.mesh_shared.specs.Counts.{ended_by, no_counts, pairs_in, released_by, saturated, with_begun, with_refused, with_search, with_step, with_step_refused};

use mesh_search::{Found, StepKind};
use mesh_steps::StepDone;

/// What a mesher did in a run, as counts. A count that reaches `u64::MAX` stays there.
#[derive(Clone, Copy)]
pub struct MeshCounts {
    /// The number of rounds in which the mesher searched. A round counts once its search has returned without an error.
    pub searches: u64,
    /// The number of pairs that the searches found. The pairs of a search count once it has returned.
    pub pairs: u64,
    /// The number of meshes begun. A mesh counts when the book's `begin` returns `Ok`.
    pub begun: u64,
    /// The number of pairs refused. A pair counts when the book's `begin` returns a refusal.
    pub refused: u64,
    /// The number of meshes ended. A mesh counts when its last step was made.
    pub ended: u64,
    /// The number of steps refused. A step counts when the book's `step` returns a refusal. The mesher then leaves the
    /// pair.
    pub steps_refused: u64,
    /// The number of physical pages returned to the arena. A page counts when a step of kind `Release` was made.
    pub pages: u64,
}

impl MeshCounts {
    pub(crate) fn none() -> MeshCounts
        ensures { result ≡ no_counts }
    {
        MeshCounts {
            searches: 0,
            pairs: 0,
            begun: 0,
            refused: 0,
            ended: 0,
            steps_refused: 0,
            pages: 0,
        }
    }

    /// Counts a search with these results.
    pub(crate) fn count_search(&mut self, found: &[Found])
        ensures { self.new ≡ with_search self.old (pairs_in found.now) }
    {
        self.searches = self.searches.saturating_add(1);
        self.pairs = self.pairs.saturating_add(number_of_pairs(found));
    }

    pub(crate) fn count_begun(&mut self)
        ensures { self.new ≡ with_begun self.old }
    {
        self.begun = self.begun.saturating_add(1);
    }

    pub(crate) fn count_refused(&mut self)
        ensures { self.new ≡ with_refused self.old }
    {
        self.refused = self.refused.saturating_add(1);
    }

    pub(crate) fn count_step(&mut self, done: StepDone)
        ensures { self.new ≡ with_step self.old done }
    {
        self.pages = self.pages.saturating_add(released(done.kind));
        self.ended = self.ended.saturating_add(ended(done.left));
    }

    pub(crate) fn count_step_refused(&mut self)
        ensures { self.new ≡ with_step_refused self.old }
    {
        self.steps_refused = self.steps_refused.saturating_add(1);
    }
}

/// Returns the number of pairs in all results, or `u64::MAX` if there are more.
fn number_of_pairs(found: &[Found]) -> u64
    ensures { result ≡ saturated (pairs_in found.now) }
{
    let mut pairs = 0u64;
    for k in 0..found.len() {
        let one = &found[k];
        pairs = pairs.saturating_add(one.pairs.len() as u64);
    }
    pairs
}

/// Returns the number of pages that a step of this kind returns to the arena.
fn released(kind: StepKind) -> u64
    ensures { result ≡ released_by kind }
{
    match kind {
        StepKind::Protect | StepKind::Copy | StepKind::Remap | StepKind::Unprotect => 0,
        StepKind::Release => 1,
    }
}

/// Returns the number of meshes that end with a step after which `left` steps are left.
fn ended(left: u32) -> u64
    ensures { result ≡ ended_by left }
{
    match left {
        0 => 1,
        _ => 0,
    }
}
