//! `Cells`: what each cell of a recorded program holds.
ghost use Rattle.std.specs.Prelude.{◌≡◌, ℕ, None, Some, OnErr, OnOk};
ghost use Rattle.savings_replay.specs.Followed.{with_at};
ghost use Rattle.savings_replay.specs.Cells.{held_in};

use std::alloc::{AllocError, Global};
use std::collections::HashMap;
use std::marker::Model;

/// How far behind the end of the array a cell may be that makes the array longer.
const NEAR: usize = 16;

/// The object that a cell holds: its place and its number.
#[derive(Clone, Copy)]
pub(crate) struct Held {
    pub place: u32,
    pub number: u32,
}

/// What each cell holds. A cell is any number. Recorded programs use small numbers again, so most cells are in an
/// array.
#[derive(Drop)]
pub(crate) struct Cells {
    // What the cells 0, 1, 2, .. hold.
    near: Vec<Option<Held>>,
    // What the other cells hold. A cell that is empty in `near` may be here, because the array may have become longer.
    far: HashMap<u32, Held>,
}

impl Model for Cells {
    ghost use Rattle.savings_replay.specs.Cells.{Cells as Parts};

    ghost Value = { Parts };

    ghost view = { λ c. record { near = c.near.items; far = c.far.entries } };
}

impl Cells {
    /// Returns cells that are all empty.
    pub(crate) fn new(alloc: Global) -> Cells
        ensures { (cell : ℕ) → held_in result cell ≡ None }
    {
        Cells {
            near: Vec::new(alloc),
            far: HashMap::new(alloc),
        }
    }

    /// Returns what a cell holds, or `None` if it is empty.
    pub(crate) fn get(&self, cell: u32) -> Option<Held>
        ensures { result ≡ held_in self.now cell }
    {
        if let Some(Some(held)) = self.near.get(cell as usize) {
            return Some(*held);
        }
        self.far.get(&cell).copied()
    }

    /// Puts an object into a cell, in place of what it holds.
    pub(crate) fn set(&mut self, cell: u32, held: Held) -> Result<(), AllocError>
        ensures set { OnOk result ((c : ℕ) → held_in self.new c ≡ with_at cell (Some held) (held_in self.old) c) }
        ensures err { OnErr result ((c : ℕ) → held_in self.new c ≡ held_in self.old c) }
    {
        let place = cell as usize;
        self.lengthen(place)?;
        if place < self.near.len() {
            self.near[place] = Some(held);
        } else {
            self.far.insert(cell, held)?;
        }
        Ok(())
    }

    /// Empties a cell.
    pub(crate) fn clear(&mut self, cell: u32)
        ensures { (c : ℕ) → held_in self.new c ≡ with_at cell None (held_in self.old) c }
    {
        if let Some(held) = self.near.get_mut(cell as usize) {
            *held = None;
        }
        if !self.far.is_empty() {
            self.far.remove(&cell);
        }
    }

    /// Makes the array longer for a cell that is at most 16 behind its end.
    fn lengthen(&mut self, place: usize) -> Result<(), AllocError>
        ensures { (c : ℕ) → held_in self.new c ≡ held_in self.old c }
    {
        let len = self.near.len();
        if place.saturating_sub(len) <= NEAR {
            for _ in len..=place {
                self.near.push(None)?;
            }
        }
        Ok(())
    }
}
