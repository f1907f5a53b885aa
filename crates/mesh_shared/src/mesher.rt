//! A mesher of a run.
ghost use Rattle.std.specs.Prelude.{◌≡◌, ◌+◌, ◌↔◌, ◌≤◌, IfOk, IsTrue, None, OnErr, OnOk, length, map};
ghost use Rattle.model_search.specs.Search.{search, views};
ghost use Rattle.mesh_shared.specs.Counts.{ArePairsTried, after_search, no_counts, pairs_in, with_begun, with_refused, with_step, with_step_refused};
ghost use Rattle.mesh_shared.specs.MesherRuns.{AreOwn, HasCounted, HasMeshed, HasSearched, own_views, words_in};
ghost use Rattle.mesh_lock.specs.CallBudgets.{IsUsedUp};

use crate::calls::MesherCalls;
use crate::counts::MeshCounts;
use crate::guarded::{begin, step};
use crate::plan::MeshPlan;
use crate::stops::EarlyExit;
use mesh_class::Class;
use mesh_lock::Shared;
use mesh_search::{Actor, ClassView, Found, Gate, Point, search};
use mesh_steps::StepDone;
use model_words::Refusal;
use std::alloc::{AllocError, Global};
use std::sync::Wait;
use std::thread::{Promise, Threads};

/// A mesher of a run, with the references that its thread uses.
#[derive(Drop)]
pub(crate) struct Mesher<'a, R, G> {
    pub rt: &'a R,
    pub alloc: Global,
    pub gate: &'a G,
    pub shared: &'a Shared,
    pub plan: &'a MeshPlan,
    /// The mesher's number among the meshers.
    pub number: u32,
}

/// What a mesher did in a run.
#[derive(Clone, Copy)]
pub struct Meshed {
    /// The mesher's number.
    pub number: u32,
    /// The number of rounds in which each pair that was found was either refused or meshed until no step was left.
    pub rounds: u32,
    /// The number of the mesher's calls of `begin` and `step` that weren't refused. Stays at `u32::MAX`.
    pub calls: u32,
    /// What the mesher's searches and calls did.
    pub counts: MeshCounts,
}

/// What a mesher's thread returns.
#[derive(Clone, Copy)]
pub(crate) struct MesherEnd {
    /// What the mesher did.
    pub meshed: Meshed,
    /// The reason why the mesher ended before it had made all rounds. `None` if it made all rounds, or used up its
    /// calls.
    pub stop: Option<EarlyExit>,
}

/// The promise of a mesher's thread about its result. The mesher has this number, and made all rounds unless a stop or
/// the limit of calls ended it. At most `most` of its calls weren't refused.
#[derive(Clone, Copy)]
pub(crate) struct Meshes {
    pub rounds: u32,
    pub number: u32,
    pub most: Option<u32>,
}

impl Promise<MesherEnd> for Meshes {
    ghost kept_by = { λ p end. HasMeshed p.rounds p.number p.most end.meshed end.stop };
}

/// What a mesher did in one round.
#[derive(Drop)]
struct Round {
    /// The number of the round, counted from 0.
    round: u32,
    /// The views that were searched.
    views: Vec<ClassView>,
    /// The result of the search of each view.
    found: Vec<Found>,
    /// The number of views of which each pair was either refused or meshed until no step was left.
    whole: usize,
}

impl Round {
    /// Whether the round has this number, and each of its pairs was either refused or meshed until no step was left.
    fn is_whole(&self, round: u32) -> bool
        ensures { IsTrue result ↔ ((self.now.round ≡ round) × (self.now.whole ≡ length self.now.found.items)) }
    {
        self.round == round && self.whole == self.found.len()
    }
}

impl<'a, R: Threads + Wait + Sync, G: Gate + Sync> Mesher<'a, R, G> {
    /// Makes all rounds, unless the mesher is stopped or uses up its calls first. Then arrives at `Point::Ended`.
    /// Returns what the mesher did. A mesh is left running only if the calls are used up before the mesh's last step.
    pub(crate) fn mesh(&self, most: Option<u32>) -> MesherEnd
        requires some { 1 ≤ self.now.plan.now.workers }
        requires most { self.now.plan.now.workers ≤ 16 }
        requires own { 1 ≤ self.now.plan.now.meshers }
        ensures { HasMeshed self.now.plan.now.rounds self.now.number most result.meshed result.stop }
    {
        let mut calls = MesherCalls::of(most);
        let (rounds, stop) = self.make_rounds(&mut calls);
        let meshed = Meshed {
            number: self.number,
            rounds,
            calls: calls.budget.made,
            counts: calls.counts,
        };
        self.arrive(Point::Ended);
        MesherEnd { meshed, stop }
    }

    /// Makes the rounds one after another, until all are made, the calls are used up, or a round fails. Returns the
    /// number of rounds that were made to their ends, and the stop if a round failed.
    fn make_rounds(&self, calls: &mut MesherCalls) -> (u32, Option<EarlyExit>)
        requires some { 1 ≤ self.now.plan.now.workers }
        requires most { self.now.plan.now.workers ≤ 16 }
        requires own { 1 ≤ self.now.plan.now.meshers }
        requires none { calls.old.counts ≡ no_counts }
        ensures whole { (IsUsedUp calls.new.budget → ⊥) → result.1 ≡ None → result.0 ≡ self.now.plan.now.rounds }
        ensures most { calls.new.budget.most ≡ calls.old.budget.most }
        ensures counted { HasCounted self.now.plan.now.rounds calls.new.budget.most calls.new.budget.made result.1
            calls.new.counts }
    {
        let mut whole = 0;
        for round in 0..self.plan.rounds {
            if calls.budget.is_used_up() {
                return (whole, None);
            }
            match self.make_round(round, calls) {
                Ok(made) => {
                    if made.is_whole(round) {
                        whole += 1;
                    }
                }
                Err(stop) => return (whole, Some(stop)),
            }
        }
        (whole, None)
    }

    /// Takes the views of the mesher's classes, searches them outside the lock, and meshes the pairs that were found,
    /// classes ascending. An error is returned only if the views or the search fail.
    fn make_round(&self, round: u32, calls: &mut MesherCalls) -> Result<Round, EarlyExit>
        requires some { 1 ≤ self.now.plan.now.workers }
        requires most { self.now.plan.now.workers ≤ 16 }
        requires own { 1 ≤ self.now.plan.now.meshers }
        ensures round { IfOk result (λ made. made.round ≡ round) }
        ensures searched { IfOk result
            (λ made. HasSearched self.now.plan.now self.now.number round made.views.items made.found.items) }
        ensures whole { (IsUsedUp calls.new.budget → ⊥) → IfOk result (λ made. made.whole ≡ length made.found.items) }
        ensures counted { IfOk result (λ made. ArePairsTried (pairs_in made.found.items)
            (after_search calls.old (pairs_in made.found.items)) calls.new) }
        ensures uncounted { OnErr result (calls.new ≡ calls.old) }
    {
        let plan = self.plan;
        let views = self.own_views()?;
        let found = search(
            self.rt,
            self.alloc,
            views.as_slice(),
            plan.words_of(round),
            plan.t,
            plan.workers,
            self.gate,
        )?;
        calls.counts.count_search(found.as_slice());
        let whole = self.mesh_all(views.as_slice(), found.as_slice(), calls);
        Ok(Round {
            round,
            views,
            found,
            whole,
        })
    }

    /// Returns the views of the mesher's classes, taken under the shared lock. The only error is an allocation failure.
    fn own_views(&self) -> Result<Vec<ClassView>, AllocError>
        requires { 1 ≤ self.now.plan.now.meshers }
        ensures { IfOk result (λ own. AreOwn self.now.plan.now self.now.number own.items) }
    {
        let views = self.shared.book.read(self.rt).views(self.alloc)?;
        own_of(self.alloc, views, self.plan.meshers, self.number)
    }

    /// Meshes the pairs that were found in each view, as long as calls are left. Returns the number of views of which
    /// each pair was either refused or meshed until no step was left.
    fn mesh_all(&self, views: &[ClassView], found: &[Found], calls: &mut MesherCalls) -> usize
        requires { length views.now ≡ length found.now }
        ensures whole { (IsUsedUp calls.new.budget → ⊥) → result ≡ length found.now }
        ensures tried { ArePairsTried (pairs_in found.now) calls.old calls.new }
    {
        let mut whole = 0;
        for k in 0..found.len() {
            let one = &found[k];
            let pairs = one.pairs.as_slice();
            if self.mesh_pairs(views[k].class(), pairs, calls) == pairs.len() {
                whole += 1;
            }
        }
        whole
    }

    /// Meshes pairs of a class one after another, as long as calls are left. Returns the number of pairs that were
    /// either refused or meshed until no step was left.
    fn mesh_pairs(&self, class: Class, pairs: &[(u32, u32)], calls: &mut MesherCalls) -> usize
        ensures whole { (IsUsedUp calls.new.budget → ⊥) → result ≡ length pairs.now }
        ensures tried { ArePairsTried (length pairs.now) calls.old calls.new }
    {
        let mut ended = 0;
        for k in 0..pairs.len() {
            if calls.budget.is_used_up() {
                return ended;
            }
            if has_ended(self.mesh_pair(class, pairs[k], calls)) {
                ended += 1;
            }
        }
        ended
    }

    /// Begins a mesh of a pair, and makes its steps until no step is left or the calls are used up. Returns the number
    /// of steps that are left. Returns the refusal if `begin` or a step is refused.
    fn mesh_pair(
        &self,
        class: Class,
        pair: (u32, u32),
        calls: &mut MesherCalls,
    ) -> Result<u32, Refusal>
        requires { IsUsedUp calls.old.budget → ⊥ }
        ensures ended { (IsUsedUp calls.new.budget → ⊥) → IfOk result (λ left. left ≡ 0) }
        ensures tried { ArePairsTried 1 calls.old calls.new }
    {
        let (source, destination) = pair;
        let mut left = self.begin(source, destination, calls)?;
        for _ in self.rt.forever() {
            if calls.budget.is_used_up() {
                return Ok(left);
            }
            left = self.step(class, calls)?.left;
            if left == 0 {
                return Ok(left);
            }
        }
        unreachable!()
    }

    /// Begins a mesh under the exclusive lock. Returns the number of the mesh's steps, or the refusal.
    fn begin(&self, source: u32, destination: u32, calls: &mut MesherCalls) -> Result<u32, Refusal>
        requires { IsUsedUp calls.old.budget → ⊥ }
        ensures most { calls.new.budget.most ≡ calls.old.budget.most }
        ensures begun { OnOk result (calls.new.counts ≡ with_begun calls.old.counts) }
        ensures refused { OnErr result (calls.new.counts ≡ with_refused calls.old.counts) }
    {
        let left = begin(
            &mut self.shared.book.write(self.rt),
            source,
            destination,
            calls,
        )?;
        self.arrive(Point::Begun);
        Ok(left)
    }

    /// Makes a step of the mesh that this mesher began, under the exclusive lock. Returns the step, or the refusal.
    fn step(&self, class: Class, calls: &mut MesherCalls) -> Result<StepDone, Refusal>
        requires { IsUsedUp calls.old.budget → ⊥ }
        ensures most { calls.new.budget.most ≡ calls.old.budget.most }
        ensures stepped { IfOk result (λ done. calls.new.counts ≡ with_step calls.old.counts done) }
        ensures refused { OnErr result (calls.new.counts ≡ with_step_refused calls.old.counts) }
    {
        let done = step(&mut self.shared.book.write(self.rt), class, calls)?;
        self.arrive(Point::Stepped(done.kind, done.left));
        Ok(done)
    }

    fn arrive(&self, point: Point) {
        self.gate.arrive(Actor::Mesher(self.number), point);
    }
}

/// Whether a pair was refused, or was meshed until no step was left.
fn has_ended(tried: Result<u32, Refusal>) -> bool
    ensures { IsTrue result ↔ IfOk tried (λ left. left ≡ 0) }
{
    match tried {
        Ok(left) => left == 0,
        Err(_) => true,
    }
}

/// Returns the views of the mesher with this number: those whose place in `all` modulo `meshers` is `number`. The only
/// error is an allocation failure.
fn own_of(
    alloc: Global,
    all: Vec<ClassView>,
    meshers: u32,
    number: u32,
) -> Result<Vec<ClassView>, AllocError>
    requires { 1 ≤ meshers }
    ensures { IfOk result (λ own. own.items ≡ own_views meshers number all.items) }
{
    let mut own = Vec::with_capacity(alloc, all.len())?;
    let mut place = 0usize;
    for view in all {
        if place % meshers as usize == number as usize {
            own.push(view)?;
        }
        place += 1;
    }
    Ok(own)
}
