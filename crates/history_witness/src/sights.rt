//! The stores whose bytes a load can return.
use crate::slices::{can_return, latest_begin};
use history_reading::{SpeltCommand, TimedCall};
use std::alloc::{AllocError, Global};

/// A call, and the stores whose bytes it can return.
#[derive(Drop)]
pub(crate) struct Sight {
    /// The number of the call.
    pub number: u32,
    /// The numbers of the stores. A store is there once for each byte that the call can return.
    pub stores: Vec<u32>,
}

/// Returns a call with the stores whose bytes it can return. If the call isn't a load, there are none.
pub(crate) fn sight_of(
    alloc: Global,
    calls: &[TimedCall],
    number: u32,
) -> Result<Sight, AllocError> {
    let mut stores = Vec::new(alloc);
    if let Some(call) = calls.get(number as usize)
        && let SpeltCommand::Get(cell, off, len) = &call.entry.command
    {
        for distance in 0..*len {
            let at = off.saturating_add(u64::from(distance));
            add_stores(&mut stores, calls, *cell, at, call)?;
        }
    }
    Ok(Sight { number, stores })
}

/// Appends the numbers of the stores whose byte at this offset the load of the cell's object can return.
fn add_stores(
    stores: &mut Vec<u32>,
    calls: &[TimedCall],
    cell: u32,
    at: u64,
    load: &TimedCall,
) -> Result<(), AllocError> {
    let latest = latest_begin(calls, cell, at, load.begin);
    for (place, store) in calls.iter().enumerate() {
        if can_return(cell, at, load.end, latest, store) {
            stores.push(number_of(place))?;
        }
    }
    Ok(())
}

/// Returns the number of the call at a place. A history has fewer than 2^32 calls.
pub(crate) fn number_of(place: usize) -> u32 {
    u32::try_from(place).unwrap_or(u32::MAX)
}
