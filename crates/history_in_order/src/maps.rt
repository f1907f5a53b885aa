//! Updates of the trees of a memory.
ghost use Rattle.std.specs.Prelude.{◌≡◌, ℕ, ◌+◌, ◌≤◌, ◌<◌, Some, None, IfSome, IsNone, OnErr, OnOk, length};
ghost use Rattle.std.specs.Ordering.{nat_cmp};
ghost use Rattle.std.specs.BTreeMap.{IsUnchanged, get};
ghost use Rattle.model_memory.specs.Memory.{overwritten};
ghost use Rattle.history_in_order.specs.Objects.{LiveObject, with_bytes};
ghost use Rattle.history_in_order.specs.Stands.{IsNearest, IsSetAt};

use crate::stored::Stored;
use std::alloc::AllocError;
use std::collections::BTreeMap;

/// Returns the number of the object with the greatest start address at or below this one. `None` if there is no such
/// object.
pub fn nearest(starts: &BTreeMap<u64, u32>, address: u64) -> Option<u32>
    ensures { IsNearest (get nat_cmp starts.now) address result }
{
    let (_, number) = starts.range(..=address).next_back()?;
    Some(*number)
}

/// Overwrites the bytes of an object that begin at offset `off`, for the entry on a line.
pub fn store(
    objects: &mut BTreeMap<u32, Stored>,
    number: u32,
    off: u64,
    bytes: &[u8],
    line: u32,
) -> Result<(), AllocError>
    requires { (o : LiveObject) → get nat_cmp objects.old number ≡ Some o
        → off + length bytes.now ≤ length o.object.bytes }
    ensures { OnOk result ((o : LiveObject) → get nat_cmp objects.old number ≡ Some o
        → IsSetAt (get nat_cmp objects.old) (get nat_cmp objects.new) number
        (Some (with_bytes o (overwritten o.object.bytes off bytes.now)))) }
{
    match objects.get_mut(&number) {
        Some(object) => object.bytes.store(off, bytes, line),
        None => Ok(()),
    }
}

/// Maps a key to a value: the number of an object to the object, or a cell to the number that it holds. The only error
/// is an allocation failure, after which nothing has changed.
pub fn set<T: Drop>(map: &mut BTreeMap<u32, T>, key: u32, value: T) -> Result<(), AllocError>
    ensures set { OnOk result (IsSetAt (get nat_cmp map.old) (get nat_cmp map.new) key (Some value)) }
    ensures unchanged { OnErr result (IsUnchanged map.old map.new) }
{
    map.insert(key, value)?;
    Ok(())
}

/// Maps an object's address to its number.
pub fn set_start(
    starts: &mut BTreeMap<u64, u32>,
    address: u64,
    number: u32,
) -> Result<(), AllocError>
    ensures { OnOk result (IsSetAt (get nat_cmp starts.old) (get nat_cmp starts.new) address (Some number)) }
{
    starts.insert(address, number)?;
    Ok(())
}
