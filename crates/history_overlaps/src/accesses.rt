//! The objects of a history, and the accesses to each of them.
ghost use Rattle.std.specs.Prelude.{◌≡◌, ◌<◌, ◌^◌, ◌&&◌, map, length, nat_eq, option_map, true, false, IfOk, IsNone, MatchOption, OnOk};
ghost use Rattle.std.specs.Ordering.{nat_cmp};
ghost use Rattle.std.specs.BTreeMap.{get};
ghost use Rattle.model_intervals.specs.Objects.{is_access, object_made};
ghost use Rattle.model_intervals.specs.OverlappingCalls.{cell_of};
ghost use Rattle.text_fields.specs.Commands.{plain_command};
ghost use Rattle.text_words.specs.RecordedWords.{plain_reply};
ghost use Rattle.history_reading.specs.CallWords.{plain_call};
ghost use Rattle.history_overlaps.specs.OwnOrders.{AreGrouped, IsAdded, made_of};

use history_reading::{RecordedEntry, RecordedReply, SpeltCommand, TimedCall};
use std::alloc::{AllocError, Global};
use std::collections::BTreeMap;

/// An object that a `new` made.
#[derive(Clone, Copy)]
pub struct Made {
    /// The cell that names the object.
    pub cell: u32,
    /// The length of the object in bytes.
    pub len: u64,
    /// The address of the object.
    pub address: u64,
}

/// Returns the object that a call made, or `None` if the call made no object.
pub fn made_by(entry: &RecordedEntry) -> Option<Made>
    ensures { result
        ≡ option_map made_of (object_made (plain_command entry.now.command) (plain_reply entry.now.reply)) }
{
    match (&entry.command, &entry.reply) {
        (SpeltCommand::New(cell, len, _), RecordedReply::Object(_, address)) => Some(Made {
            cell: *cell,
            len: *len,
            address: *address,
        }),
        _ => None,
    }
}

/// Returns for each cell the numbers of the calls that access its object.
pub fn accesses_by_cell(
    alloc: Global,
    calls: &[TimedCall],
) -> Result<BTreeMap<u32, Vec<u32>>, AllocError>
    requires { length calls.now < 2 ^ 32 }
    ensures { IfOk result (λ accesses. AreGrouped (map plain_call calls.now) (get nat_cmp accesses)) }
{
    let mut accesses = BTreeMap::new(alloc);
    for (number, call) in calls.iter().enumerate() {
        if let Some(cell) = accessed_cell(&call.entry.command) {
            add_access(alloc, &mut accesses, cell, number as u32)?;
        }
    }
    Ok(accesses)
}

/// Returns the cell that a `put`, `get` or `addr` names, or `None` for any other command.
fn accessed_cell(command: &SpeltCommand) -> Option<u32>
    ensures { MatchOption result (is_access (plain_command command.now) ≡ false)
        (λ cell. (is_access (plain_command command.now) ≡ true) × (cell_of (plain_command command.now) ≡ cell)) }
{
    match command {
        SpeltCommand::Put(cell, _, _) => Some(*cell),
        SpeltCommand::Get(cell, _, _) => Some(*cell),
        SpeltCommand::Addr(cell) => Some(*cell),
        _ => None,
    }
}

/// Adds the number of an access to the list of its cell.
fn add_access(
    alloc: Global,
    accesses: &mut BTreeMap<u32, Vec<u32>>,
    cell: u32,
    number: u32,
) -> Result<(), AllocError>
    ensures { OnOk result (IsAdded (get nat_cmp accesses.old) (get nat_cmp accesses.new) cell number) }
{
    if let Some(numbers) = accesses.get_mut(&cell) {
        numbers.push(number)?;
        return Ok(());
    }
    let mut numbers = Vec::new(alloc);
    numbers.push(number)?;
    accesses.insert(cell, numbers)?;
    Ok(())
}
