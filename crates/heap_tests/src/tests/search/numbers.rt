//! Tests of the shuffle and the split search on a heap's view, by calls of each.
ghost use Rattle.std.specs.Prelude.{◌≡◌, ◌<◌, ◌∷◌, [], length};
ghost use Rattle.mesh_search.specs.Views.{AreNamed, candidate_at};

use crate::tests::heap::searches::worked_heap;
use crate::tests::search::worked::{WORDS, check_count, has_found};
use mesh_class::class_of;
use mesh_search::{ClassView, shuffle, split_mesh};
use std::process::Abort;
use std::test::Fail;

/// Asserts that a candidate's number is its place.
fn check_number(rt: &impl Abort, view: &ClassView, place: usize)
    requires { place < length view.now.candidates }
    ensures { (candidate_at view.now place).number ≡ place }
{
    check_count(rt, view.number(place) as usize, place);
}

/// Asserts that a view has four candidates, with the numbers 0 to 3.
fn check_four(rt: &impl Abort, view: &ClassView)
    ensures { AreNamed view.now (2 ∷ 0 ∷ 3 ∷ 1 ∷ []) }
{
    check_count(rt, view.len(), 4);
    check_number(rt, view, 0);
    check_number(rt, view, 1);
    check_number(rt, view, 2);
    check_number(rt, view, 3);
}

#[test]
fn a_shuffled_order_is_searched(rt: HostRuntime) -> Result<(), Fail> {
    let alloc = rt.alloc();
    let order = shuffle(alloc, &[0, 1, 2, 3], &WORDS)?;
    assert!(rt; order.as_slice() == [2, 0, 3, 1].as_slice());
    let view = worked_heap(&rt).view(alloc, class_of(2048).expect(&rt, "a class"))?;
    check_four(&rt, &view);
    let found = split_mesh(alloc, &view, &[2, 0, 3, 1], 2)?;
    assert!(rt; has_found(&found, &[(1, 2), (3, 0)], 4));
    Ok(())
}
