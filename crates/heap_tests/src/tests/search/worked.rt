//! The worked examples of searches, by calls of the search.
ghost use Rattle.std.specs.Prelude.{◌≡◌};

use crate::tests::search::indexes::views_of;
use mesh_search::{ClassView, Found, part, search_one, shuffle};
use std::process::Abort;

/// The occupied slots of four groups of the class 2048. Of eight objects the second, fourth, fifth and seventh are
/// freed.
static WORKED: [u32; 4] = [0b01, 0b01, 0b10, 0b10];

/// The random words of the worked searches.
pub(crate) static WORDS: [u64; 3] = [2, 0, 5];

/// Whether a search found these pairs in `probes` tries.
pub(crate) fn has_found(found: &Found, pairs: &[(u32, u32)], probes: u64) -> bool {
    found.probes == probes && found.pairs.as_slice() == pairs
}

#[test]
fn four_are_shuffled(rt: HostRuntime) {
    let order = shuffle(rt.alloc(), &[0, 1, 2, 3], &WORDS).expect(&rt, "memory");
    check_order(&rt, order.as_slice());
}

/// Asserts that the shuffled places are 2, 0, 3 and 1.
fn check_order(rt: &impl Abort, order: &[u32]) {
    assert_eq!(rt; order, [2, 0, 3, 1].as_slice());
}

#[test]
fn longer_parts_come_first(rt: HostRuntime) {
    assert!(&rt; part(5, 3, 0) == (0, 2) && part(5, 3, 1) == (2, 2) && part(5, 3, 2) == (4, 1));
}

#[test]
fn views_have_their_candidates(rt: HostRuntime) {
    let views = views_of(&rt, 2048, &WORKED);
    check_views(&rt, views.as_slice());
}

/// Asserts that a count is the expected one.
pub(crate) fn check_count(rt: &impl Abort, count: usize, wanted: usize)
    ensures { count ≡ wanted }
{
    assert_eq!(rt; count, wanted);
}

/// Asserts that the last of ten views has the four groups, and that the others are empty.
fn check_views(rt: &impl Abort, views: &[ClassView]) {
    check_count(rt, views.len(), 10);
    for k in 0..views.len() {
        check_numbers(rt, &views[k], if k == 9 { 4 } else { 0 });
    }
}

/// Asserts that a view has `count` candidates, numbered from 0 in ascending order.
fn check_numbers(rt: &impl Abort, view: &ClassView, count: usize) {
    check_count(rt, view.len(), count);
    for i in 0..view.len() {
        assert!(rt; view.number(i) == i as u32);
    }
}

/// Asserts the pairs that a search finds in one of ten views in `t` rounds, and the number of its tries.
fn check(
    rt: &(impl Abort + AllocGlobal),
    views: &[ClassView],
    place: usize,
    words: &[u64],
    t: u32,
    pairs: &[(u32, u32)],
    probes: u64,
) {
    check_count(rt, views.len(), 10);
    let view = views.get(place).expect(rt, "a class");
    let found = search_one(rt.alloc(), view, words, t).expect(rt, "memory");
    assert!(rt;
        has_found(&found, pairs, probes),
        "in {t} rounds of view {place}"
    );
}

#[test]
fn worked_pairs_are_found(rt: HostRuntime) {
    let views = views_of(&rt, 2048, &WORKED);
    check_worked(&rt, views.as_slice());
}

/// Asserts the results of the worked searches in the views of the four groups.
fn check_worked(rt: &(impl Abort + AllocGlobal), views: &[ClassView]) {
    check(rt, views, 9, &WORDS, 0, &[], 0);
    check(rt, views, 9, &WORDS, 1, &[], 2);
    check(rt, views, 9, &WORDS, 2, &[(1, 2), (3, 0)], 4);
    check(rt, views, 9, &[], 1, &[(2, 0), (3, 1)], 2);
    check(rt, views, 2, &[9], 3, &[], 0);
}

#[test]
fn an_empty_group_is_no_candidate(rt: HostRuntime) {
    let views = views_of(&rt, 2048, &[0b01, 0b01, 0b10, 0b00]);
    check(&rt, views.as_slice(), 9, &WORDS, 2, &[(0, 2)], 1);
}

#[test]
fn the_group_with_fewer_objects_is_the_source(rt: HostRuntime) {
    let views = views_of(&rt, 1024, &[0b1000, 0b0111]);
    check(&rt, views.as_slice(), 7, &[], 1, &[(0, 1)], 1);
}
