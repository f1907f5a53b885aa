//! How configurations are split into stores to a range and the configurations without them.
ghost use Rattle.std.specs.Prelude.{◌≡◌, ◌⊎◌, ◌≤◌, ◌+◌, IfOk, IfSome, IsTrue, OnOk, length};
ghost use Rattle.history_object.specs.Carried.{IsKept};
ghost use Rattle.history_object.specs.ObjectBytes.{State, bytes_of, effect};
ghost use Rattle.history_object.specs.declared.access.Access.{Access as AnAccess};
ghost use Rattle.history_object.specs.declared.configuration.Configuration.{Configuration};
ghost use Rattle.history_parts.specs.Splits.{AreAfter, AreStoresTo, Fits, IsSplit, IsStoreTo};
ghost use Rattle.history_parts.specs.Products.{AreSame, product};

use crate::product::{add_after, product};
use history_bytes::RecordedBytes;
use history_object::{Access, Configuration, ObjectBytes};
use states_pool::Pool;
use std::alloc::{AllocError, Global};

/// A range of at most 4,096 bytes.
#[derive(Clone, Copy)]
pub struct Range {
    /// The offset of the first byte.
    pub off: u64,
    /// The number of bytes.
    pub len: u32,
}

/// Configurations, and stores to one range. One of the stores has its effect in each configuration.
#[derive(Drop)]
pub struct Split {
    /// The configurations without the stores.
    pub rest: Pool<Configuration<ObjectBytes>>,
    /// The stores.
    pub stores: Vec<Access>,
}

/// Returns the range of bytes that an access reads or changes.
pub fn range_of(access: &Access) -> Range
    ensures { result.len ≤ 4096 }
{
    match access {
        Access::Store(off, bytes) | Access::Load(off, _, bytes) => Range {
            off: *off,
            len: bytes.len() as u32,
        },
        Access::Nothing | Access::Elsewhere(_) => Range { off: 0, len: 0 },
    }
}

/// Splits configurations into stores to a range and the configurations without them.
///
/// Returns `None` if the configurations aren't all that result so, or if the range has the same bytes in all of them.
pub fn split_by(
    alloc: Global,
    kept: &Pool<Configuration<ObjectBytes>>,
    range: Range,
) -> Result<Option<Split>, AllocError>
    requires { range.len ≤ 4096 }
    ensures { IfOk result (λ split. IfSome split (λ parts. IsSplit kept.now parts.rest parts.stores.items)) }
{
    if !fits(kept, range) {
        return Ok(None);
    }
    let stores = stores_of(alloc, kept, range)?;
    if stores.len() < 2 {
        return Ok(None);
    }
    let rest = without(alloc, kept, range)?;
    if !is_product(alloc, &rest, stores.as_slice(), kept) {
        return Ok(None);
    }
    Ok(Some(Split { rest, stores }))
}

/// Whether a range is within the object, in all configurations.
fn fits(kept: &Pool<Configuration<ObjectBytes>>, range: Range) -> bool
    ensures { IsTrue result → Fits kept.now range.off range.len }
{
    for place in 0..kept.len() {
        let len = kept.get(place as u32).state.len();
        if len < range.off || len - range.off < range.len as u64 {
            return false;
        }
    }
    true
}

/// Returns a store of the bytes of a range for each configuration, each store once.
fn stores_of(
    alloc: Global,
    kept: &Pool<Configuration<ObjectBytes>>,
    range: Range,
) -> Result<Vec<Access>, AllocError>
    requires few { range.len ≤ 4096 }
    requires fits { Fits kept.now range.off range.len }
    ensures { IfOk result (λ stores. AreStoresTo range.off range.len stores.items) }
{
    let mut stores = Vec::new(alloc);
    for place in 0..kept.len() {
        let store = store_in(alloc, &kept.get(place as u32).state, range)?;
        add(&mut stores, store)?;
    }
    Ok(stores)
}

/// Adds a store, unless there is one of the same bytes.
fn add(stores: &mut Vec<Access>, store: Access) -> Result<(), AllocError>
    ensures { OnOk result ((access : AnAccess) → IsKept stores.new.items access
        → IsKept stores.old.items access ⊎ (store ≡ access)) }
{
    if !has(stores.as_slice(), &store) {
        stores.push(store)?;
    }
    Ok(())
}

/// Returns a store of the bytes that a range has.
fn store_in(alloc: Global, state: &ObjectBytes, range: Range) -> Result<Access, AllocError>
    requires few { range.len ≤ 4096 }
    requires fits { range.off + range.len ≤ length (bytes_of state.now) }
    ensures { IfOk result (IsStoreTo range.off range.len) }
{
    let bytes = state.load(alloc, range.off, range.len)?;
    Ok(Access::Store(range.off, bytes))
}

/// Whether one of the accesses stores the same bytes as another store.
fn has(stores: &[Access], store: &Access) -> bool {
    for one in stores {
        if are_equal(one, store) {
            return true;
        }
    }
    false
}

/// Whether two accesses are stores of the same bytes.
fn are_equal(one: &Access, other: &Access) -> bool {
    match (one, other) {
        (Access::Store(_, bytes), Access::Store(_, stored)) => {
            bytes.as_slice() == stored.as_slice()
        }
        _ => false,
    }
}

/// Returns the configurations with zeros in a range.
fn without(
    alloc: Global,
    kept: &Pool<Configuration<ObjectBytes>>,
    range: Range,
) -> Result<Pool<Configuration<ObjectBytes>>, AllocError>
    requires { range.len ≤ 4096 }
    ensures { IfOk result (λ rest. AreAfter kept.now rest) }
{
    let zeros = zeros(alloc, range)?;
    all_after(alloc, kept, &zeros)
}

/// Returns the configurations after a store.
fn all_after(
    alloc: Global,
    kept: &Pool<Configuration<ObjectBytes>>,
    store: &Access,
) -> Result<Pool<Configuration<ObjectBytes>>, AllocError>
    ensures { IfOk result (λ rest. AreAfter kept.now rest) }
{
    let mut rest = Pool::new(alloc);
    for place in 0..kept.len() {
        add_after(alloc, kept.get(place as u32), store, &mut rest)?;
    }
    Ok(rest)
}

/// Returns a store of zeros to a range.
fn zeros(alloc: Global, range: Range) -> Result<Access, AllocError>
    requires { range.len ≤ 4096 }
{
    let bytes = RecordedBytes::zeros(alloc, range.len as usize)?;
    Ok(Access::Store(range.off, bytes))
}

/// Whether the kept configurations are exactly the rest after one of the stores. `false` also if an allocation fails.
fn is_product(
    alloc: Global,
    rest: &Pool<Configuration<ObjectBytes>>,
    stores: &[Access],
    kept: &Pool<Configuration<ObjectBytes>>,
) -> bool
    ensures { IsTrue result → AreSame kept.now (product effect rest.now stores.now) }
{
    let Ok(all) = product(alloc, rest, stores, kept.len()) else {
        return false;
    };
    if !are_among(&all, kept) {
        return false;
    }
    are_among(kept, &all)
}

/// Whether each of the configurations is among others.
fn are_among(
    some: &Pool<Configuration<ObjectBytes>>,
    others: &Pool<Configuration<ObjectBytes>>,
) -> bool
    ensures { IsTrue result → (c : Configuration State) → IsKept some.now c → IsKept others.now c }
{
    for place in 0..some.len() {
        if others.find(some.get(place as u32)).is_none() {
            return false;
        }
    }
    true
}
