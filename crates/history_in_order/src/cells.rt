//! `Cells`: the contents of each cell.
ghost use Rattle.std.specs.Prelude.{◌≡◌, ◌≢◌, ◌↔◌, ℕ, IsSome, OnOk, OnErr};
ghost use Rattle.history_number_set.specs.Ranges.{Has};
ghost use Rattle.history_in_order.specs.Cells.{IsFreedAt, IsHeld, IsNew, IsPointed, number_at};

use crate::maps::set;
use history_number_set::NumberSet;
use std::alloc::{AllocError, Global};
use std::collections::BTreeMap;
use std::marker::Model;

/// The content of a cell in which a number was stored.
#[derive(Clone, Copy)]
pub enum Held {
    /// The number of an object, which may have been freed through another cell.
    Number(u32),
    /// The number of an object that was freed through this cell.
    Freed,
}

/// The content of each cell. A cell in which a number was stored is kept in one of two ways: with the number that it
/// holds, or as a cell through which an object was freed.
///
/// Cells through which an object was freed are kept as ranges, so adjacent ones take no more memory than a single one.
#[derive(Drop)]
pub struct Cells {
    // The numbers that cells hold.
    numbers: BTreeMap<u32, u32>,
    // The cells that hold the number of an object that was freed through them.
    freed: NumberSet,
}

impl Model for Cells {
    ghost use Rattle.history_in_order.specs.Cells.{AreEither, CellTable, cells_code};

    ghost Value = { CellTable };

    ghost coded = { cells_code };

    ghost view = { λ s. record { numbers = s.numbers.entries; freed = s.freed } };

    ghost invariant = { λ s. AreEither (record { numbers = s.numbers.entries; freed = s.freed }) };
}

impl Cells {
    /// Returns cells without numbers. Nothing is allocated.
    pub fn new(alloc: Global) -> Cells
        ensures { IsNew result }
    {
        Cells {
            numbers: BTreeMap::new(alloc),
            freed: NumberSet::new(alloc),
        }
    }

    /// Returns the content of a cell, or `None` if no number was stored in the cell.
    pub fn held(&self, cell: u32) -> Option<Held>
        ensures { IsHeld self.now cell result }
    {
        if let Some(number) = self.numbers.get(&cell) {
            return Some(Held::Number(*number));
        }
        if self.freed.contains(cell) {
            return Some(Held::Freed);
        }
        None
    }

    /// Stores a number in a cell. The only error is an allocation failure, after which the cell's content is
    /// unspecified.
    pub fn point(&mut self, cell: u32, number: u32) -> Result<(), AllocError>
        ensures { OnOk result (IsPointed self.old self.new cell number) }
    {
        remove(&mut self.freed, cell)?;
        set(&mut self.numbers, cell, number)?;
        Ok(())
    }

    /// Records that the object whose number a cell holds was freed through this cell.
    pub fn free(&mut self, cell: u32) -> Result<(), AllocError>
        requires { IsSome (number_at self.old cell) }
        ensures { OnOk result (IsFreedAt self.old self.new cell) }
    {
        self.freed.add(cell)?;
        let _number = self.numbers.remove(&cell);
        Ok(())
    }
}

/// Removes a cell, if it is in the set. The only error is an allocation failure, after which the set is unchanged.
fn remove(cells: &mut NumberSet, cell: u32) -> Result<(), AllocError>
    ensures removed { OnOk result ((q : ℕ) → Has cells.new q ↔ (Has cells.old q × (q ≢ cell))) }
    ensures unchanged { OnErr result ((q : ℕ) → Has cells.new q ↔ Has cells.old q) }
{
    if cells.contains(cell) {
        cells.remove(cell)?;
    }
    Ok(())
}
