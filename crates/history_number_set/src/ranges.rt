//! The ranges of a set, as a map from the first number of each range to its last.
ghost use Rattle.std.specs.Prelude.{◌≡◌, ◌↔◌, ◌+◌, ◌≤◌, ◌<◌, ℕ, Some, IsSome, IsTrue, OnErr, OnOk};
ghost use Rattle.std.specs.Ordering.{nat_cmp};
ghost use Rattle.std.specs.BTreeMap.{IsUnchanged, get};
ghost use Rattle.history_number_set.specs.Ranges.{AreApart, HasIn, IsCut, IsFirst, IsJoined, IsLast, IsNearest, IsNext, IsParted, IsRest};

use std::alloc::AllocError;
use std::collections::BTreeMap;

/// Returns the first and the last number of the last range that begins at or below this number. Returns `None` if no
/// range begins there.
fn nearest(ranges: &BTreeMap<u32, u32>, number: u32) -> Option<(u32, u32)>
    ensures { IsNearest (get nat_cmp ranges.now) number result }
{
    let (first, last) = ranges.range(..=number).next_back()?;
    Some((*first, *last))
}

/// Returns the first and the last number of the first range that begins at or above this number. Returns `None` if no
/// range begins there.
fn next(ranges: &BTreeMap<u32, u32>, number: u32) -> Option<(u32, u32)>
    ensures { IsNext (get nat_cmp ranges.now) number result }
{
    let (first, last) = ranges.range(number..).next()?;
    Some((*first, *last))
}

/// Whether one of the ranges contains a number.
pub(crate) fn has(ranges: &BTreeMap<u32, u32>, number: u32) -> bool
    requires { AreApart (get nat_cmp ranges.now) }
    ensures { IsTrue result ↔ HasIn (get nat_cmp ranges.now) number }
{
    match nearest(ranges, number) {
        Some((_, last)) => number <= last,
        None => false,
    }
}

/// Returns the first number of the range that ends just before `number`, or `number` if no range ends there. No range
/// may contain `number`.
pub(crate) fn first_with(ranges: &BTreeMap<u32, u32>, number: u32) -> u32
    requires apart { AreApart (get nat_cmp ranges.now) }
    requires new { HasIn (get nat_cmp ranges.now) number → ⊥ }
    ensures { IsFirst (get nat_cmp ranges.now) number result }
{
    match nearest(ranges, number) {
        Some((first, last)) => {
            if last + 1 == number {
                return first;
            }
            number
        }
        None => number,
    }
}

/// Returns the last number of the range that begins just after `number`, or `number` if no range begins there. No range
/// may contain `number`.
pub(crate) fn last_with(ranges: &BTreeMap<u32, u32>, number: u32) -> u32
    requires apart { AreApart (get nat_cmp ranges.now) }
    requires new { HasIn (get nat_cmp ranges.now) number → ⊥ }
    ensures { IsLast (get nat_cmp ranges.now) number result }
{
    match next(ranges, number) {
        Some((first, last)) => {
            if first - number == 1 {
                return last;
            }
            number
        }
        None => number,
    }
}

/// Adds `number`: the range from `first` to `last` replaces the ranges that end just before or begin just after
/// `number`. `first` is the result of `first_with`, and `last` is the result of `last_with`. If an allocation fails,
/// returns an error and leaves the ranges unchanged.
pub(crate) fn join(
    ranges: &mut BTreeMap<u32, u32>,
    number: u32,
    first: u32,
    last: u32,
) -> Result<(), AllocError>
    requires first { first ≤ number }
    requires last { IsLast (get nat_cmp ranges.old) number last }
    ensures joined { OnOk result (IsJoined (get nat_cmp ranges.old) (get nat_cmp ranges.new) number first last) }
    ensures unchanged { OnErr result (IsUnchanged ranges.old ranges.new) }
{
    ranges.insert(first, last)?;
    if number < last {
        let _behind = ranges.remove(&(number + 1));
    }
    Ok(())
}

/// Removes a number that one of the ranges contains. If an allocation fails, returns an error and leaves the ranges
/// unchanged. No allocation is made if the number is the last of its range.
pub(crate) fn part(ranges: &mut BTreeMap<u32, u32>, number: u32) -> Result<(), AllocError>
    requires apart { AreApart (get nat_cmp ranges.old) }
    requires has { HasIn (get nat_cmp ranges.old) number }
    ensures parted { OnOk result (IsParted (get nat_cmp ranges.old) (get nat_cmp ranges.new) number) }
    ensures unchanged { OnErr result (IsUnchanged ranges.old ranges.new) }
{
    let (first, last) = range_of(ranges, number);
    add_rest(ranges, number, last)?;
    cut(ranges, number, first);
    Ok(())
}

/// The first and the last number of the range that contains a number.
fn range_of(ranges: &BTreeMap<u32, u32>, number: u32) -> (u32, u32)
    requires apart { AreApart (get nat_cmp ranges.now) }
    requires has { HasIn (get nat_cmp ranges.now) number }
    ensures is_range { get nat_cmp ranges.now result.0 ≡ Some result.1 }
    ensures from { result.0 ≤ number }
    ensures to { number ≤ result.1 }
{
    nearest(ranges, number).unwrap()
}

/// Adds the range from `number + 1` to `last`, if `number` is below `last`. `last` is the end of the range that
/// contains `number`. If an allocation fails, returns an error and leaves the ranges unchanged.
fn add_rest(ranges: &mut BTreeMap<u32, u32>, number: u32, last: u32) -> Result<(), AllocError>
    requires { number ≤ last }
    ensures rest { OnOk result (IsRest (get nat_cmp ranges.old) (get nat_cmp ranges.new) number last) }
    ensures unchanged { OnErr result (IsUnchanged ranges.old ranges.new) }
{
    if number == last {
        return Ok(());
    }
    ranges.insert(number + 1, last)?;
    Ok(())
}

/// Shortens the range that begins with `first` and contains `number`: the range then ends just before `number`. Removes
/// the range if `first` is `number`.
fn cut(ranges: &mut BTreeMap<u32, u32>, number: u32, first: u32)
    requires is_range { IsSome (get nat_cmp ranges.old first) }
    requires from { first ≤ number }
    ensures { IsCut (get nat_cmp ranges.old) (get nat_cmp ranges.new) number first }
{
    if first == number {
        let _whole = ranges.remove(&first);
    } else if let Some(last) = ranges.get_mut(&first) {
        *last = number - 1;
    }
}
