//! The live objects, and the cells that refer to them.
ghost use Rattle.std.specs.Prelude.{◌≡◌, ℕ, ◌+◌, ◌-◌, ◌<◌, ◌≤◌, ◌^◌, Some, None, IfNone, IfOk, IfSome, OnOk};
ghost use Rattle.savings_replay.specs.Cells.{held_in};
ghost use Rattle.savings_replay.specs.Objects.{IsAliased, IsTakenOut, cell_of, entry_of, number_in};
ghost use Rattle.savings_replay.specs.Followed.{with_at};

use crate::cells::{Cells, Held};
use crate::live::LiveObjects;
use mesh_spans::{Slot, Span};
use std::alloc::{AllocError, Global};
use std::marker::Model;

/// The places of an object in the two heaps.
#[derive(Clone, Copy)]
pub(crate) struct Places {
    pub without: (Span, Slot),
    pub with: (Span, Slot),
}

/// A live object.
#[derive(Clone, Copy)]
pub(crate) enum Object {
    /// An object of up to 2,048 bytes.
    Small(Places),
    /// A larger object of this length. Neither heap has the object.
    Large(u64),
}

/// The live objects by number, and the number of the object to which each cell refers. A cell can refer to an object
/// that is no longer live.
#[derive(Drop)]
pub(crate) struct Objects {
    cells: Cells,
    live: LiveObjects,
}

impl Model for Objects {
    ghost use Rattle.savings_replay.specs.Objects.{AreRight, Objects as Parts};

    ghost Value = { Parts };

    ghost view = { λ o. record { cells = o.cells; live = o.live } };

    ghost invariant = { λ o. AreRight o.cells o.live };
}

impl Objects {
    /// Returns a value without objects, in which all cells are empty.
    pub(crate) fn new(alloc: Global) -> Objects
        ensures cells { (cell : ℕ) → cell_of result cell ≡ None }
        ensures live { (number : ℕ) → entry_of result number ≡ None }
        ensures next { result.live.next ≡ 0 }
    {
        Objects {
            cells: Cells::new(alloc),
            live: LiveObjects::new(alloc),
        }
    }

    /// Returns what a cell holds if it is a live object.
    fn held(&self, cell: u32) -> Option<Held>
        ensures none { IfNone result (number_in self.now cell ≡ None) }
        ensures number { IfSome result (λ held. number_in self.now cell ≡ Some held.number) }
        ensures held { IfSome result (λ held. held_in self.now.cells cell ≡ Some held) }
    {
        let held = self.cells.get(cell)?;
        self.live.get(held)?;
        Some(held)
    }

    /// Adds a live object, and stores its number in the cell. The number must be above those of all objects so far.
    pub(crate) fn add(&mut self, cell: u32, number: u32, object: Object) -> Result<(), AllocError>
        requires next { self.old.live.next ≤ number }
        requires few { number < 2 ^ 32 - 1 }
        ensures cells { OnOk result ((c : ℕ) → cell_of self.new c ≡ with_at cell (Some number) (cell_of self.old) c) }
        ensures live { OnOk result
            ((n : ℕ) → entry_of self.new n ≡ with_at number (Some object) (entry_of self.old) n) }
        ensures next { self.new.live.next ≤ number + 1 }
    {
        let place = self.live.add(number, object)?;
        self.cells.set(cell, Held { place, number })
    }

    /// Copies the number of the live object in the cell `from` to the cell `to`. Returns whether `from` holds a live
    /// object.
    pub(crate) fn alias(&mut self, to: u32, from: u32) -> Result<bool, AllocError>
        ensures aliased { IfOk result (λ done. IsAliased self.old self.new to done (number_in self.old from)) }
        ensures next { self.new.live.next ≡ self.old.live.next }
    {
        let Some(held) = self.held(from) else {
            return Ok(false);
        };
        self.cells.set(to, held)?;
        Ok(true)
    }

    /// Removes the live object that a cell holds, empties the cell, and returns the object with its number. Returns
    /// `None`, and changes nothing, if the cell holds no live object.
    pub(crate) fn take_out(&mut self, cell: u32) -> Option<(u32, Object)>
        ensures some { IfSome result (λ r. IsTakenOut self.old self.new cell r.0 r.1) }
        ensures none { IfNone result ((number_in self.old cell ≡ None) × (self.new ≡ self.old)) }
        ensures next { self.new.live.next ≡ self.old.live.next }
    {
        let held = self.cells.get(cell)?;
        let object = self.live.remove(held)?;
        self.cells.clear(cell);
        Some((held.number, object))
    }
}
