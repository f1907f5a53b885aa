//! How parts are set aside, and joined again.
ghost use Rattle.std.specs.Prelude.{◌≡◌, ◌<◌, ◌≤◌, Err, false, length, IsTrue, MatchOption, OnOk};
ghost use Rattle.history_object.specs.Carried.{IsKept};
ghost use Rattle.history_object.specs.ObjectBytes.{effect};
ghost use Rattle.history_object.specs.declared.access.Access.{Access as AnAccess};
ghost use Rattle.history_parts.specs.Parts.{AreAside, AreBeside, AreFree, HasMoreJoined, IsApartFromAll, IsSameWhole, stores_of};
ghost use Rattle.history_object.specs.declared.faults.JudgeFault.{JudgeFault};
ghost use Rattle.history_parts.specs.Products.{products};
ghost use Rattle.history_parts.specs.Aside.{AreApart, IsApartFrom, ListsApart};

use crate::part::Part;
use crate::product::product;
use crate::split::{Range, range_of, split_by};
use history_object::{Access, Calls, JudgeFault, ObjectAccesses, TimedJudge};
use std::alloc::{AllocError, Global};

/// Whether an access conflicts with a store of a part, or one was called before.
pub fn calls(called: bool, parts: &[Part], access: &Access) -> bool
    ensures { result ≡ false → (called ≡ false) × IsApartFromAll access.now (stores_of parts.now) }
{
    if called {
        return true;
    }
    for part in parts {
        if !is_apart_from(access, part.stores.as_slice()) {
            return true;
        }
    }
    false
}

/// Joins the parts with whose stores a pending access conflicts to the configurations of the judge. There is none if
/// no part was called.
///
/// The error is `TooMany` if there are then more than `most` configurations, and `Memory` if an allocation fails.
pub fn join(
    alloc: Global,
    judge: &mut TimedJudge<ObjectAccesses>,
    parts: &mut Vec<Part>,
    called: bool,
    most: usize,
) -> Result<(), JudgeFault>
    requires aside { AreAside judge.old.standing.kept (stores_of parts.old.items) }
    requires free { called ≡ false → AreFree judge.old.standing.pending (stores_of parts.old.items) }
    ensures same { OnOk result (IsSameWhole judge.old judge.new parts.old.items parts.new.items) }
    ensures aside { AreAside judge.new.standing.kept (stores_of parts.new.items) }
    ensures free { OnOk result (AreFree judge.new.standing.pending (stores_of parts.new.items)) }
    ensures many { result ≡ Err JudgeFault.TooMany
        → HasMoreJoined (products effect judge.old.standing.kept (stores_of parts.old.items)) most }
    ensures not_full { result ≡ Err JudgeFault.TooManyPending → ⊥ }
{
    if !called {
        return Ok(());
    }
    while let Some(place) = first_called(parts.as_slice(), judge.pending()) {
        let all = product(alloc, judge.kept(), parts[place].stores.as_slice(), most)?;
        judge.put_kept(all);
        let _part = parts.remove(place);
    }
    Ok(())
}

/// Returns the place of the first part with whose stores a pending access conflicts, or `None` if there is none.
fn first_called(parts: &[Part], pending: &[Option<Access>]) -> Option<usize>
    ensures { MatchOption result (AreFree pending.now (stores_of parts.now)) (λ place. place < length parts.now) }
{
    for (place, part) in parts.iter().enumerate() {
        if !are_free(part.stores.as_slice(), pending) {
            return Some(place);
        }
    }
    None
}

/// Whether no pending access conflicts with one of the stores.
fn are_free(stores: &[Access], pending: &[Option<Access>]) -> bool
    ensures { IsTrue result → (store : AnAccess) → IsKept stores.now store → IsApartFrom effect pending.now store }
{
    for store in stores {
        if !is_free(store, pending) {
            return false;
        }
    }
    true
}

/// Whether no pending access conflicts with a store.
fn is_free(store: &Access, pending: &[Option<Access>]) -> bool
    ensures { IsTrue result → IsApartFrom effect pending.now store.now }
{
    for call in pending {
        if let Some(access) = call
            && !are_apart(access, store)
        {
            return false;
        }
    }
    true
}

/// Whether two accesses don't conflict.
fn are_apart(one: &Access, other: &Access) -> bool
    ensures { IsTrue result → AreApart effect one.now other.now }
{
    ObjectAccesses::laws();
    !ObjectAccesses::conflict(one, other) && !ObjectAccesses::conflict(other, one)
}

/// Sets a range aside, if each of the bytes that it may have is possible, whatever the other bytes are.
pub fn set_aside(
    alloc: Global,
    judge: &mut TimedJudge<ObjectAccesses>,
    parts: &mut Vec<Part>,
    range: Range,
) -> Result<(), AllocError>
    requires few { range.len ≤ 4096 }
    requires aside { AreAside judge.old.standing.kept (stores_of parts.old.items) }
    ensures same { OnOk result (IsSameWhole judge.old judge.new parts.old.items parts.new.items) }
    ensures aside { AreAside judge.new.standing.kept (stores_of parts.new.items) }
    ensures free { AreFree judge.old.standing.pending (stores_of parts.old.items)
        → AreFree judge.new.standing.pending (stores_of parts.new.items) }
{
    if judge.kept().len() < 2 || range.len == 0 || is_touched(range, judge.pending()) {
        return Ok(());
    }
    let Some(split) = split_by(alloc, judge.kept(), range)? else {
        return Ok(());
    };
    if !are_free(split.stores.as_slice(), judge.pending())
        || !are_beside(split.stores.as_slice(), parts.as_slice())
    {
        return Ok(());
    }
    parts.push(Part {
        stores: split.stores,
    })?;
    judge.put_kept(split.rest);
    Ok(())
}

/// Whether a pending access reads or changes a byte of a range. Then a split of the range would be in vain.
fn is_touched(range: Range, pending: &[Option<Access>]) -> bool {
    for call in pending {
        if let Some(access) = call
            && meet(range, range_of(access))
        {
            return true;
        }
    }
    false
}

/// Whether two ranges have a byte in common.
fn meet(one: Range, other: Range) -> bool {
    let (first, second) = if one.off <= other.off {
        (one, other)
    } else {
        (other, one)
    };
    second.len > 0 && second.off - first.off < u64::from(first.len)
}

/// Whether none of the stores conflicts with a store of a part.
fn are_beside(stores: &[Access], parts: &[Part]) -> bool
    ensures { IsTrue result → AreBeside stores.now (stores_of parts.now) }
{
    for part in parts {
        if !have_apart(part.stores.as_slice(), stores) {
            return false;
        }
    }
    true
}

/// Whether no two stores of two lists conflict.
fn have_apart(stores: &[Access], more: &[Access]) -> bool
    ensures { IsTrue result → ListsApart effect stores.now more.now }
{
    for store in stores {
        if !is_apart_from(store, more) {
            return false;
        }
    }
    true
}

/// Whether a store conflicts with none of these stores.
fn is_apart_from(store: &Access, more: &[Access]) -> bool
    ensures { IsTrue result → (other : AnAccess) → IsKept more.now other → AreApart effect store.now other }
{
    for other in more {
        if !are_apart(store, other) {
            return false;
        }
    }
    true
}
