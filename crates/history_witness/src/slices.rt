//! The check that calls can be judged without the other calls of their history.
ghost use Rattle.std.specs.Prelude.{◌≡◌, ◌↔◌, ◌≤◌, IsTrue, map, true};
ghost use Rattle.history_reading.specs.CallWords.{plain_call};
ghost use Rattle.text_fields.specs.Commands.{plain_command};
ghost use Rattle.model_intervals.specs.OverlappingCalls.{cell_at, cell_of};
ghost use Rattle.history_witness.specs.Slices.{IsSlice, TakesNewAndFree, TakesStores, TakesStoresAt, begin_before, is_new_or_free, latest_begin, stores_at};
ghost use Rattle.history_witness.specs.TakenLines.{taken_in};

use history_reading::{SpeltCommand, TimedCall};

/// Whether the calls at the places that are `true` in `taken` are a slice of the calls: each load has the stores whose
/// bytes it can return, and each call the `new` and the `free` of its object.
pub fn is_slice(calls: &[TimedCall], taken: &[bool]) -> bool
    ensures { IsTrue result → IsSlice (map plain_call calls.now) (taken_in taken.now) }
{
    for (place, call) in calls.iter().enumerate() {
        if is_taken(taken, place) && !takes_its_calls(calls, taken, call) {
            return false;
        }
    }
    true
}

/// Whether the `new` and the `free` of the call's object are taken, and each store whose byte the call can return.
fn takes_its_calls(calls: &[TimedCall], taken: &[bool], call: &TimedCall) -> bool
    ensures { IsTrue result
        → TakesNewAndFree (map plain_call calls.now) (taken_in taken.now) (cell_at (plain_call call.now))
        × TakesStores (map plain_call calls.now) (taken_in taken.now) (plain_call call.now) }
{
    takes_new_and_free(calls, taken, cell_of(&call.entry.command))
        && takes_stores(calls, taken, call)
}

/// Whether the `new` and the `free` of the cell's object are taken, if they are among the calls.
fn takes_new_and_free(calls: &[TimedCall], taken: &[bool], cell: u32) -> bool
    ensures { IsTrue result → TakesNewAndFree (map plain_call calls.now) (taken_in taken.now) cell }
{
    for (place, call) in calls.iter().enumerate() {
        if is_new_or_free(cell, &call.entry.command) && !is_taken(taken, place) {
            return false;
        }
    }
    true
}

/// Whether the call at this place is taken.
pub(crate) fn is_taken(taken: &[bool], place: usize) -> bool
    ensures { result ≡ taken_in taken.now place }
{
    match taken.get(place) {
        Some(is_taken) => *is_taken,
        None => false,
    }
}

/// Whether the command is the `new` or the `free` of the cell's object.
pub(crate) fn is_new_or_free(cell: u32, command: &SpeltCommand) -> bool
    ensures { result ≡ is_new_or_free cell (plain_command command.now) }
{
    match command {
        SpeltCommand::New(other, _, _) => *other == cell,
        SpeltCommand::Free(other) => *other == cell,
        _ => false,
    }
}

/// Whether each store is taken whose byte the call can return.
fn takes_stores(calls: &[TimedCall], taken: &[bool], call: &TimedCall) -> bool
    ensures { IsTrue result → TakesStores (map plain_call calls.now) (taken_in taken.now) (plain_call call.now) }
{
    let SpeltCommand::Get(cell, off, len) = &call.entry.command else {
        return true;
    };
    for distance in 0..*len {
        let Some(at) = off.checked_add(u64::from(distance)) else {
            return false;
        };
        if !takes_stores_at(calls, taken, *cell, at, call) {
            return false;
        }
    }
    true
}

/// Whether each store is taken whose byte at this offset the load of the cell's object can return.
fn takes_stores_at(
    calls: &[TimedCall],
    taken: &[bool],
    cell: u32,
    at: u64,
    load: &TimedCall,
) -> bool
    ensures { IsTrue result
        → TakesStoresAt (map plain_call calls.now) (taken_in taken.now) cell at (plain_call load.now) }
{
    let latest = latest_begin(calls, cell, at, load.begin);
    for (place, store) in calls.iter().enumerate() {
        if can_return(cell, at, load.end, latest, store) && !is_taken(taken, place) {
            return false;
        }
    }
    true
}

/// Whether a load that ends at this moment can return the byte that the call stores at this offset. `latest` is the
/// greatest begin of the stores of this byte that end before the load begins.
pub(crate) fn can_return(cell: u32, at: u64, end: u128, latest: u64, store: &TimedCall) -> bool
    ensures { IsTrue result ↔ ((stores_at cell at (plain_command store.now.entry.command) ≡ true)
        × (store.now.begin ≤ end) × (latest ≤ store.now.end)) }
{
    stores_at(cell, at, &store.entry.command)
        && u128::from(store.begin) <= end
        && u128::from(latest) <= store.end
}

/// Returns the greatest begin of the calls that store the byte at this offset of the cell's object and end before the
/// moment. Returns 0 if there is none.
pub(crate) fn latest_begin(calls: &[TimedCall], cell: u32, at: u64, moment: u64) -> u64
    ensures { result ≡ latest_begin cell at moment (map plain_call calls.now) }
{
    let mut latest = 0;
    for call in calls {
        latest = begin_before(cell, at, moment, call).max(latest);
    }
    latest
}

/// Returns the begin of the call if it stores the byte at this offset and ends before the moment, and otherwise 0.
fn begin_before(cell: u32, at: u64, moment: u64, call: &TimedCall) -> u64
    ensures { result ≡ begin_before cell at moment (plain_call call.now) }
{
    if stores_at(cell, at, &call.entry.command) && call.end < u128::from(moment) {
        return call.begin;
    }
    0
}

/// Whether the command stores the byte at this offset of the cell's object.
pub(crate) fn stores_at(cell: u32, at: u64, command: &SpeltCommand) -> bool
    ensures { result ≡ stores_at cell at (plain_command command.now) }
{
    match command {
        SpeltCommand::Put(other, off, bytes) => {
            *other == cell && *off <= at && at - *off < bytes.len() as u64
        }
        _ => false,
    }
}

/// Returns the cell that the command names: of two cells the one that is written to, and 0 if it names none.
pub(crate) fn cell_of(command: &SpeltCommand) -> u32
    ensures { result ≡ cell_of (plain_command command.now) }
{
    match command {
        SpeltCommand::New(cell, _, _) => *cell,
        SpeltCommand::Put(cell, _, _) => *cell,
        SpeltCommand::Get(cell, _, _) => *cell,
        SpeltCommand::Free(cell) => *cell,
        SpeltCommand::Alias(to, _) => *to,
        SpeltCommand::Addr(cell) => *cell,
        SpeltCommand::Copy(to, _, _, _, _) => *to,
        _ => 0,
    }
}
