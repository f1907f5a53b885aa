//! Values sorted by keys. Values with equal keys stay in the order in which they were added.
ghost use Rattle.std.specs.Prelude.{◌≡◌, IfOk, OnOk};
ghost use Rattle.explore_report.specs.Sorting.{AreNumbered, entry_values, put_entry, unnumbered};

use std::alloc::{AllocError, Global};
use std::collections::BTreeMap;

/// Values by their keys. Each key has a number: the number of the values that were added before.
pub(crate) type Sorted<K, V> = BTreeMap<(K, usize), V>;

/// Adds a value with a key, behind the values with smaller keys and the earlier values with an equal key.
pub(crate) fn put<K: Ord + Drop, V: Drop>(
    sorted: &mut Sorted<K, V>,
    key: K,
    value: V,
) -> Result<(), AllocError>
    requires { AreNumbered sorted.old.entries }
    ensures numbered { OnOk result (AreNumbered sorted.new.entries) }
    ensures entries { OnOk result
        (unnumbered sorted.new.entries ≡ put_entry K.cmp (unnumbered sorted.old.entries) (key, value)) }
{
    let number = sorted.len();
    sorted.insert((key, number), value)?;
    Ok(())
}

/// Returns the values, sorted by their keys.
pub(crate) fn values_of<K: Ord, V: Copy + Drop>(
    alloc: Global,
    sorted: &Sorted<K, V>,
) -> Result<Vec<V>, AllocError>
    ensures { IfOk result (λ values. values.items ≡ entry_values sorted.now.entries) }
{
    let mut values = Vec::new(alloc);
    for value in sorted.values() {
        values.push(*value)?;
    }
    Ok(values)
}
