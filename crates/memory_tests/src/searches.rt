//! Cases that search the views of the worked example's groups.
use crate::ends::{CaseError, End, expect};
use mesh_mutator::{Attempt, Book, Command};
use mesh_search::{ClassView, Found, NoGate, search, search_one, shuffle};
use std::alloc::Global;
use std::sync::Wait;
use std::thread::Threads;

/// The cells of the objects that are freed. Of eight objects of the class 2048 four are left, in four groups that can
/// be meshed in two pairs.
static FREED: [u8; 4] = [1, 3, 4, 6];

/// The cells of the objects that are freed. Each of the four groups then has only the object in its first slot. No two
/// of these groups can be meshed.
static FREED_IN_SECOND_SLOTS: [u8; 4] = [1, 3, 5, 7];

/// The random words of the worked searches.
static WORDS: [u64; 3] = [2, 0, 5];

/// Makes eight objects in four groups, frees the objects of these cells, and returns the views.
fn views_after(alloc: Global, freed: &[u8]) -> Result<Vec<ClassView>, CaseError> {
    match Book::open(alloc, 16, 64) {
        Ok(mut book) => views_of(alloc, &mut book, freed),
        Err(_) => Err(CaseError::Memory),
    }
}

/// Makes eight objects in a fresh book, frees the objects of these cells, and returns the views.
fn views_of(alloc: Global, book: &mut Book, freed: &[u8]) -> Result<Vec<ClassView>, CaseError> {
    for cell in 0..8u8 {
        if book.act(0, &Command::New(cell, 2048, 0)) == Attempt::OutOfMemory {
            return Err(CaseError::Memory);
        }
    }
    for cell in freed.iter() {
        book.act(0, &Command::Free(*cell));
    }
    let before = book.report();
    let views = book.views(alloc);
    expect(book.report() == before, "views changed the report")?;
    Ok(views?)
}

/// The pairs of the worked example, source first.
static PAIRS: [(u32, u32); 2] = [(1, 2), (3, 0)];

/// Whether a search found the pairs of the worked example in four tries.
fn is_worked(found: &Found) -> bool {
    found.probes == 4 && are_worked(found.pairs.as_slice())
}

/// Whether these pairs are those of the worked example.
fn are_worked(found: &[(u32, u32)]) -> bool {
    found == PAIRS.as_slice()
}

/// Returns `Ok` if a search of the view at a place found the right pairs: those of the worked example in the last view,
/// none in the others.
fn check(found: &Found, place: usize) -> Result<(), CaseError> {
    if place == 9 && !is_worked(found) {
        return Err(CaseError::Wrong("other pairs"));
    }
    expect(
        place == 9 || found.pairs.is_empty(),
        "pairs of an empty class",
    )
}

/// Computes the views, the shuffled order and the pairs of the worked example, on one thread.
pub(crate) fn search_alone(alloc: Global) -> End {
    let views = views_after(alloc, &FREED)?;
    search_views(alloc, views.as_slice())
}

/// Checks the shuffled order of four groups, and the pairs of each of ten views.
fn search_views(alloc: Global, views: &[ClassView]) -> End {
    if views.len() != 10 {
        return Err(CaseError::Wrong("another count of views"));
    }
    check_order(alloc)?;
    for k in 0..views.len() {
        search_view(alloc, &views[k], k)?;
    }
    Ok(0)
}

/// Checks the shuffled order of four groups.
fn check_order(alloc: Global) -> Result<(), CaseError> {
    let order = shuffle(alloc, &[0, 1, 2, 3], &WORDS)?;
    expect(order.as_slice() == [2, 0, 3, 1].as_slice(), "another order")
}

/// Searches the view at a place, and checks the pairs that are found.
fn search_view(alloc: Global, view: &ClassView, place: usize) -> Result<(), CaseError> {
    let found = search_one(alloc, view, &WORDS, 2)?;
    check(&found, place)
}

/// Searches the views of the worked example by two workers in two rounds, and checks the pairs that are found. Then
/// searches views whose groups can't be meshed, in three rounds, and checks that no pair is found.
pub(crate) fn search_by_two<R: Threads + Wait + Sync>(rt: &R, alloc: Global) -> End {
    let views = views_after(alloc, &FREED)?;
    let found = search(rt, alloc, views.as_slice(), &WORDS, 2, 2, &NoGate)?;
    check_all(found.as_slice())?;
    search_in_vain(rt, alloc)
}

/// Searches views whose groups can't be meshed, in three rounds, and checks that no pair is found.
fn search_in_vain<R: Threads + Wait + Sync>(rt: &R, alloc: Global) -> End {
    let views = views_after(alloc, &FREED_IN_SECOND_SLOTS)?;
    let found = search(rt, alloc, views.as_slice(), &WORDS, 3, 2, &NoGate)?;
    check_in_vain(found.as_slice())
}

/// Returns `Ok` if ten searches found no pair. The last search must have made six tries, two in each of three rounds.
fn check_in_vain(found: &[Found]) -> End {
    if found.len() != 10 {
        return Err(CaseError::Wrong("another count of searches"));
    }
    for k in 0..found.len() {
        let probes = if k == 9 { 6 } else { 0 };
        expect(is_in_vain(&found[k], probes), "other tries in vain")?;
    }
    Ok(0)
}

/// Whether a search found no pair in `probes` tries.
fn is_in_vain(found: &Found, probes: u64) -> bool {
    found.probes == probes && found.pairs.is_empty()
}

/// Returns `Ok` if the results of ten searches are those of the worked example.
fn check_all(found: &[Found]) -> End {
    if found.len() != 10 {
        return Err(CaseError::Wrong("another count of searches"));
    }
    for k in 0..found.len() {
        check(&found[k], k)?;
    }
    Ok(0)
}
