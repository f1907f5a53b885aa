//! `mesh_search`.
ghost use Rattle.std.specs.Prelude.{◌<◌, ◌≤◌, length};
ghost use Rattle.mesh_search.specs.Views.{AreNamed};

use mesh_class::Class;
use mesh_search::{
    Actor, ClassView, Found, Gate, Point, SearchError, StepKind, class_view, part, search,
    search_one, shuffle, split_mesh,
};
use mesh_spans::Spans;
use std::alloc::{AllocError, Global};
use std::sync::Wait;
use std::thread::Threads;

pub fn view(alloc: Global, spans: &Spans, class: Class) -> Result<ClassView, AllocError> {
    class_view(alloc, spans, class)
}

pub fn candidate(view: &ClassView, i: usize) -> (Class, u32)
    requires { i < length view.now.candidates }
{
    let number: u32 = view.number(i);
    (view.class(), number)
}

pub fn count(view: &ClassView) -> usize {
    view.len()
}

pub fn shuffled(alloc: Global, list: &[u32], words: &[u64]) -> Result<Vec<u32>, AllocError> {
    shuffle(alloc, list, words)
}

pub fn split(
    alloc: Global,
    view: &ClassView,
    order: &[u32],
    t: u32,
) -> Result<Option<(u32, u32)>, AllocError>
    requires { AreNamed view.now order.now }
{
    let found: Found = split_mesh(alloc, view, order, t)?;
    Ok(first_pair(&found))
}

fn first_pair(found: &Found) -> Option<(u32, u32)> {
    if found.pairs.len() == 0 {
        return None;
    }
    let (source, destination) = found.pairs[0];
    Some((source, destination))
}

pub fn one(
    alloc: Global,
    view: &ClassView,
    words: &[u64],
    t: u32,
) -> Result<(usize, u64), AllocError> {
    let Found { pairs, probes } = search_one(alloc, view, words, t)?;
    Ok((pairs.len(), probes))
}

pub fn all<R: Threads + Wait + Sync, G: Gate + Sync>(
    rt: &R,
    alloc: Global,
    views: &[ClassView],
    words: &[u64],
    t: u32,
    workers: u32,
    gate: &G,
) -> Result<Vec<Found>, bool>
    requires some { 1 ≤ workers }
    requires most { workers ≤ 16 }
{
    match search(rt, alloc, views, words, t, workers, gate) {
        Ok(found) => Ok(found),
        Err(SearchError::Memory) => Err(false),
        Err(SearchError::Thread) => Err(true),
    }
}

pub fn part_of_a_round(tries: u32, workers: u32, k: u32) -> (u32, u32)
    requires some { 1 ≤ workers }
    requires most { workers ≤ 16 }
    requires below { k < workers }
{
    part(tries, workers, k)
}

/// A gate that stops nobody.
pub struct OpenGate;

impl Gate for OpenGate {
    fn arrive(&self, actor: Actor, point: Point) {
        let _who: u32 = number_of(actor);
        let _where: u32 = number_at(point);
    }
}

fn number_of(actor: Actor) -> u32 {
    match actor {
        Actor::Worker(w) => w,
        Actor::Mesher(q) => q,
        Actor::Searcher(k) => k,
    }
}

fn number_at(point: Point) -> u32 {
    match point {
        Point::Called(i) | Point::Reading(i) => i,
        Point::Begun | Point::Ended => 0,
        Point::Stepped(kind, left) => left.max(place_of(kind)),
        Point::Class(size) => size,
    }
}

fn place_of(kind: StepKind) -> u32 {
    match kind {
        StepKind::Protect => 0,
        StepKind::Copy => 1,
        StepKind::Remap => 2,
        StepKind::Unprotect => 3,
        StepKind::Release => 4,
    }
}
