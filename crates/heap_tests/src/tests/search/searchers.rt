//! Tests that compare searches on several threads with searches on one thread.
ghost use Rattle.std.specs.Prelude.{◌≤◌};

use crate::tests::heap::searches::worked_heap;
use crate::tests::search::indexes::{SIZES, views_of};
use crate::tests::search::worked::{WORDS, check_count, has_found};
use mesh_search::{Actor, ClassView, Found, Gate, NoGate, Point, search, search_one};
use rand_core::{Rng, SeedableRng};
use rand_xoshiro::Xoshiro256PlusPlus;
use std::process::Abort;
use std::rt::Clock;
use std::sync::Wait;
use std::sync::atomic::Ordering::SeqCst;
use std::sync::atomic::{AtomicBool, AtomicU64};
use std::thread;
use std::thread::Threads;
use std::time::Duration;

/// Whether a search on `workers` threads has the same result for each view as a search on one thread.
fn agrees<R: Threads + Wait + Sync + Abort + AllocGlobal>(
    rt: &R,
    views: &[ClassView],
    words: &[u64],
    t: u32,
    workers: u32,
) -> bool
    requires some { 1 ≤ workers }
    requires most { workers ≤ 16 }
{
    let found = search(rt, rt.alloc(), views, words, t, workers, &NoGate).expect(rt, "search");
    are_found_by_one(rt, found.as_slice(), views, words, t)
}

/// Whether a search of each view on one thread finds the result at the view's place in `found`.
fn are_found_by_one(
    rt: &(impl Abort + AllocGlobal),
    found: &[Found],
    views: &[ClassView],
    words: &[u64],
    t: u32,
) -> bool {
    if found.len() != views.len() {
        return false;
    }
    for k in 0..views.len() {
        if !is_found_by_one(rt, &found[k], &views[k], words, t) {
            return false;
        }
    }
    true
}

/// Whether a search of this view on one thread finds this result.
fn is_found_by_one(
    rt: &(impl Abort + AllocGlobal),
    found: &Found,
    view: &ClassView,
    words: &[u64],
    t: u32,
) -> bool {
    let one = search_one(rt.alloc(), view, words, t).expect(rt, "memory");
    one.probes == found.probes && one.pairs.as_slice() == found.pairs.as_slice()
}

#[test]
fn workers_find_the_worked_pairs(rt: HostRuntime) {
    let views = worked_heap(&rt).views(rt.alloc()).expect(&rt, "memory");
    for t in 0..3 {
        check_agreement(&rt, views.as_slice(), t);
    }
}

/// Asserts that searches on one, three and sixteen threads have the same result as a search on the calling thread, with
/// the words of the worked examples.
fn check_agreement<R: Threads + Wait + Sync + Abort + AllocGlobal>(
    rt: &R,
    views: &[ClassView],
    t: u32,
) {
    let one = agrees(rt, views, &WORDS, t, 1);
    let three = agrees(rt, views, &WORDS, t, 3);
    let most = agrees(rt, views, &WORDS, t, 16);
    assert!(rt; one && three && most, "in {t} rounds");
}

/// Returns `count` random words.
fn words_of(
    rt: &(impl Abort + AllocGlobal),
    random: &mut Xoshiro256PlusPlus,
    count: u32,
) -> Vec<u64> {
    let mut words = Vec::new(rt.alloc());
    for _ in 0..count {
        words.push(random.next_u64()).expect(rt, "memory");
    }
    words
}

/// The number of words of each random case. `MAX_GROUPS` is the greatest number of groups, enough for several tries in
/// each part of a round.
const WORDS_OF_A_LIST: u32 = 256;

const MAX_GROUPS: u32 = 160;

/// Returns views of a random number of groups, at most `MAX_GROUPS`. Each group has 16 slots with few or many objects.
fn random_views(
    rt: &(impl Abort + AllocGlobal),
    random: &mut Xoshiro256PlusPlus,
) -> Vec<ClassView> {
    let mut groups = Vec::new(rt.alloc());
    for _ in 0..random.next_u32() % (MAX_GROUPS + 1) {
        groups.push(random_group(random)).expect(rt, "memory");
    }
    views_of(rt, 256, groups.as_slice())
}

/// Returns a random word whose bits are the occupied slots of a group, few of them or many.
fn random_group(random: &mut Xoshiro256PlusPlus) -> u32 {
    let few = random.next_u32() & random.next_u32() & random.next_u32();
    let many = random.next_u32() & random.next_u32();
    if random.next_u32() % 2 == 0 {
        few
    } else {
        many
    }
}

#[test]
fn workers_find_what_one_thread_finds(rt: HostRuntime) {
    let mut random = Xoshiro256PlusPlus::seed_from_u64(14);
    let mut most = 0;
    for list in 0..100 {
        most = check_list(&rt, &mut random, list).max(most);
    }
    assert!(&rt; most > 64, "no list of more than {most} candidates");
}

/// Asserts that searches of random views on several threads have the same result as a search on one thread. Returns the
/// number of candidates.
fn check_list<R: Threads + Wait + Sync + Abort + AllocGlobal>(
    rt: &R,
    random: &mut Xoshiro256PlusPlus,
    list: u32,
) -> usize {
    let views = random_views(rt, random);
    let words = words_of(rt, random, WORDS_OF_A_LIST);
    let t = random.next_u32() % 5;
    let own = views.as_slice().get(4..5).expect(rt, "a class");
    check_workers(rt, own, words.as_slice(), t, list);
    own[0].len()
}

/// Asserts that searches on 1 to 16 threads have the same result as a search on the calling thread.
fn check_workers<R: Threads + Wait + Sync + Abort + AllocGlobal>(
    rt: &R,
    views: &[ClassView],
    words: &[u64],
    t: u32,
    list: u32,
) {
    for workers in 1..17 {
        assert!(rt;
            agrees(rt, views, words, t, workers),
            "list {list} by {workers} workers"
        );
    }
}

/// The number of searchers whose arrivals are counted. `COUNT_BITS` is the number of bits of one count. Each searcher
/// has one count for each class.
const COUNTED: u32 = 2;

const COUNT_BITS: u32 = 3;

/// A gate that counts the arrivals of each of two searchers at each class.
#[derive(Drop)]
struct Arrivals {
    counts: AtomicU64,
    // Whether an arrival was of another actor, at another point, or with a size that no class has.
    strange: AtomicBool,
}

impl Arrivals {
    /// Returns the counts, or `None` if there was an arrival that the gate doesn't count.
    fn counted(&self) -> Option<u64> {
        if self.strange.load(SeqCst) {
            return None;
        }
        Some(self.counts.load(SeqCst))
    }
}

/// Returns the place of the class with this slot size in the ascending list of the ten classes. Returns `None` if no
/// class has this slot size.
fn place_of(size: u32) -> Option<u32> {
    SIZES
        .iter()
        .position(|each| *each == size)
        .map(|place| place as u32)
}

impl Gate for Arrivals {
    fn arrive(&self, actor: Actor, point: Point) {
        let (Actor::Searcher(k), Point::Class(size)) = (actor, point) else {
            self.strange.store(true, SeqCst);
            return;
        };
        match place_of(size) {
            Some(place) if k < COUNTED && place < 10 => {
                self.counts
                    .fetch_add(1u64 << (COUNT_BITS * (COUNTED * place + k)), SeqCst);
            }
            _ => self.strange.store(true, SeqCst),
        }
    }
}

/// The counts after each of two searchers has arrived once at each of these places.
fn once_each(places: &[u32]) -> u64 {
    let mut counts = 0u64;
    for place in places.iter() {
        let pair = 1 + (1u64 << COUNT_BITS);
        counts = counts.wrapping_add(pair.wrapping_shl(
            COUNT_BITS.wrapping_mul(COUNTED).wrapping_mul(*place),
        ));
    }
    counts
}

#[test]
fn each_searcher_arrives_once_at_each_class(rt: HostRuntime) {
    let views = worked_heap(&rt).views(rt.alloc()).expect(&rt, "memory");
    let all = views.as_slice();
    for t in 0..4 {
        check_arrivals(&rt, all, t, &[0, 1, 2, 3, 4, 5, 6, 7, 8, 9]);
    }
    check_arrivals(&rt, all.get(9..10).expect(&rt, "a class"), 2, &[9]);
}

/// Asserts that, in a search of views by two searchers, each searcher arrives once at each of these places and nowhere
/// else.
fn check_arrivals<R: Threads + Wait + Sync + Abort + AllocGlobal>(
    rt: &R,
    views: &[ClassView],
    t: u32,
    places: &[u32],
) {
    let gate = Arrivals {
        counts: AtomicU64::new(0),
        strange: AtomicBool::new(false),
    };
    search(rt, rt.alloc(), views, &WORDS, t, 2, &gate).expect(rt, "search");
    check_counts(rt, gate.counted(), once_each(places), t, places.len());
}

/// Asserts that a gate counted the expected arrivals.
fn check_counts(rt: &impl Abort, counted: Option<u64>, counts: u64, t: u32, classes: usize) {
    assert_eq!(rt; counted, Some(counts), "in {t} rounds of {classes} views");
}

/// The greatest number of times that a waiting searcher checks whether the other searcher has arrived. `TURN` is the
/// searcher's sleep after each check that fails, in microseconds.
const TURNS: u32 = 1_000_000;

const TURN: u64 = 10;

/// A gate at which each of two searchers waits at its first class until the other searcher has arrived too.
#[derive(Drop)]
struct Meeting<'a, R> {
    rt: &'a R,
    first: AtomicBool,
    second: AtomicBool,
    // Whether a searcher gave up waiting.
    missed: AtomicBool,
}

impl<'a, R> Meeting<'a, R> {
    /// Whether both searchers arrived, and neither gave up waiting for the other.
    fn has_been(&self) -> bool {
        self.first.load(SeqCst) && self.second.load(SeqCst) && !self.missed.load(SeqCst)
    }
}

impl<'a, R: Clock> Gate for Meeting<'a, R> {
    fn arrive(&self, actor: Actor, point: Point) {
        if !matches!(point, Point::Class(_)) {
            return;
        }
        let (own, other) = match actor {
            Actor::Searcher(0) => (&self.first, &self.second),
            Actor::Searcher(1) => (&self.second, &self.first),
            _ => return,
        };
        own.store(true, SeqCst);
        for _ in 0..TURNS {
            if other.load(SeqCst) {
                return;
            }
            thread::sleep(self.rt, Duration::from_micros(TURN));
        }
        self.missed.store(true, SeqCst);
    }
}

#[test]
fn two_searchers_are_there_at_once(rt: HostRuntime) {
    let views = worked_heap(&rt).views(rt.alloc()).expect(&rt, "memory");
    let gate = Meeting {
        rt: &rt,
        first: AtomicBool::new(false),
        second: AtomicBool::new(false),
        missed: AtomicBool::new(false),
    };
    check_meeting(&rt, views.as_slice(), &gate);
}

/// Asserts that two searchers meet at a gate, and that they find the pairs of the worked example.
fn check_meeting<R: Threads + Wait + Sync + Abort + AllocGlobal + Clock>(
    rt: &R,
    views: &[ClassView],
    gate: &Meeting<'_, R>,
) {
    let found = search(rt, rt.alloc(), views, &WORDS, 2, 2, gate).expect(rt, "search");
    assert!(rt; gate.has_been());
    check_worked(rt, found.as_slice());
}

/// Asserts that the last of ten searches found the pairs of the worked example.
fn check_worked(rt: &impl Abort, found: &[Found]) {
    check_count(rt, found.len(), 10);
    assert!(rt; has_found(&found[9], &[(1, 2), (3, 0)], 4));
}
