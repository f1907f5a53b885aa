//! The configurations to which stores lead.
ghost use Rattle.std.specs.Prelude.{◌≡◌, ◌↔◌, ◌⊎◌, Err, IfOk, OnOk};
ghost use Rattle.history_object.specs.Carried.{IsKept};
ghost use Rattle.history_object.specs.ObjectBytes.{State, effect};
ghost use Rattle.history_object.specs.declared.configuration.Configuration.{Configuration};
ghost use Rattle.history_parts.specs.Products.{HasMoreThan, IsAfterOne, IsOfProduct, IsStored, product};
ghost use Rattle.history_object.specs.declared.faults.JudgeFault.{JudgeFault};

use history_object::{Access, Calls, Configuration, JudgeFault, ObjectAccesses, ObjectBytes};
use states_pool::Pool;
use std::alloc::{AllocError, Global};

/// Returns the configurations after one of the stores, from one of the kept configurations.
///
/// The error is `TooMany` if there are more than `most` of these configurations, and `Memory` if an allocation fails.
pub fn product(
    alloc: Global,
    kept: &Pool<Configuration<ObjectBytes>>,
    stores: &[Access],
    most: usize,
) -> Result<Pool<Configuration<ObjectBytes>>, JudgeFault>
    ensures all { IfOk result
        (λ all. (d : Configuration State) → IsKept all d ↔ IsOfProduct effect kept.now stores.now d) }
    ensures many { result ≡ Err JudgeFault.TooMany → HasMoreThan most (product effect kept.now stores.now) }
    ensures not_full { result ≡ Err JudgeFault.TooManyPending → ⊥ }
{
    let mut all = Pool::new(alloc);
    for place in 0..kept.len() {
        add_after_each(alloc, kept.get(place as u32), stores, &mut all)?;
        if all.len() > most {
            all.distinct();
            return Err(JudgeFault::TooMany);
        }
    }
    Ok(all)
}

/// Adds the configurations after each of the stores alone.
fn add_after_each(
    alloc: Global,
    configuration: &Configuration<ObjectBytes>,
    stores: &[Access],
    all: &mut Pool<Configuration<ObjectBytes>>,
) -> Result<(), AllocError>
    ensures { OnOk result ((d : Configuration State) → IsKept all.new d
        ↔ (IsKept all.old d ⊎ IsAfterOne effect stores.now configuration.now d)) }
{
    for store in stores {
        add_after(alloc, configuration, store, all)?;
    }
    Ok(())
}

/// Adds the configuration after a store, if the store can have its effect.
pub fn add_after(
    alloc: Global,
    configuration: &Configuration<ObjectBytes>,
    store: &Access,
    all: &mut Pool<Configuration<ObjectBytes>>,
) -> Result<(), AllocError>
    ensures { OnOk result ((d : Configuration State) → IsKept all.new d
        ↔ (IsKept all.old d ⊎ IsStored effect store.now configuration.now d)) }
{
    if let Some(state) = ObjectAccesses::effect(alloc, &configuration.state, store)? {
        let done = configuration.done.copied();
        let _number = all.number_of(Configuration { state, done })?;
    }
    Ok(())
}
