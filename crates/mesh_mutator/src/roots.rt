//! The root cells.
ghost use Rattle.std.specs.Prelude.{◌≡◌, ◌<◌, Some, None, length, replicate, slice_index_or, slice_set};
ghost use Rattle.mesh_mutator.specs.Book.{cell_at};

use mesh_steps::Ref;
use std::marker::Model;

/// The number of root cells.
const CELLS: usize = 256;

/// The 256 root cells, shared by all workers. A cell is empty or holds a reference.
#[derive(Drop)]
pub struct Roots {
    cells: [Option<Ref>; CELLS],
}

impl Model for Roots {
    ghost use Rattle.mesh_mutator.specs.Book.{Cells};

    ghost Value = { Cells };

    ghost view = { λ r. r.cells };
}

impl Roots {
    /// All cells empty.
    pub(crate) fn new() -> Roots
        ensures { result ≡ replicate 256 None }
    {
        Roots {
            cells: [None; CELLS],
        }
    }

    /// The content of a cell.
    pub fn get(&self, cell: u8) -> Option<Ref>
        ensures { result ≡ cell_at self.now cell }
    {
        self.cells[usize::from(cell)]
    }

    /// Stores a reference in a cell.
    pub(crate) fn set(&mut self, cell: u8, object: Ref)
        ensures value { self.new ≡ slice_set self.old cell (Some object) }
        ensures length { length self.new ≡ length self.old }
    {
        self.cells[usize::from(cell)] = Some(object);
    }
}
