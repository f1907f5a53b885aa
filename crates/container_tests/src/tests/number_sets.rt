//! The number of ranges of a set of numbers.
use history_number_set::NumberSet;
use std::alloc::{AllocError, Global};

/// Numbers that are added to an empty set, or removed if the set already has them, one after another. Next to each is
/// the number of ranges of the set afterwards.
static CHANGES: [(u32, usize); 17] = [
    (5, 1),
    (7, 2),
    (9, 3),
    (6, 2),
    (8, 1),
    (4, 1),
    (10, 1),
    (12, 2),
    (0xffff_ffff, 3),
    (0xffff_fffe, 3),
    (0, 4),
    (1, 4),
    (0, 4),
    (7, 5),
    (0xffff_ffff, 5),
    (0xffff_fffe, 4),
    (12, 3),
];

/// Adds a number to the set, or removes it if the set already has it. The only error is an allocation failure.
fn change(set: &mut NumberSet, number: u32) -> Result<(), AllocError> {
    if set.contains(number) {
        set.remove(number)
    } else {
        set.add(number)
    }
}

/// Returns the first number of `CHANGES` after which the set has another number of ranges than the table says. Returns
/// `None` if there is no such number. The only error is an allocation failure.
fn first_other(alloc: Global) -> Result<Option<u32>, AllocError> {
    let mut set = NumberSet::new(alloc);
    for (number, ranges) in CHANGES.iter() {
        change(&mut set, *number)?;
        if set.ranges() != *ranges {
            return Ok(Some(*number));
        }
    }
    Ok(None)
}

#[test]
fn numbers_that_touch_are_one_range(rt: HostRuntime) {
    assert_eq!(rt; first_other(rt.alloc()).expect(&rt, "memory"), None);
}
