//! `Pairs`, the pairs of groups that a search finds.
ghost use Rattle.std.specs.Prelude.{◌≡◌, ◌<◌, [], ◌∷◌, ◌++◌, OnOk, Some, length, map, nat_eq, slice_get};
ghost use Rattle.mesh_search.specs.Pairs.{pairing};

use std::alloc::{AllocError, Global};
use std::marker::Model;
use std::ops::Index;

/// Pairs of groups to mesh, in the order in which they were found. A pair has the number of the source, which is meshed
/// into the destination, and then the number of the destination.
#[derive(Drop)]
pub struct Pairs {
    pairs: Vec<(u32, u32)>,
}

impl Model for Pairs {
    ghost use Rattle.std.specs.Prelude.{List, map};
    ghost use Rattle.model_search.specs.Search.{Pairing};
    ghost use Rattle.mesh_search.specs.Pairs.{pairing};

    ghost Value = { List Pairing };

    ghost view = { λ p. map pairing p.pairs.items };
}

impl Pairs {
    pub(crate) fn new(alloc: Global) -> Pairs
        ensures { result ≡ [] }
    {
        Pairs {
            pairs: Vec::new(alloc),
        }
    }

    pub(crate) fn push(&mut self, pair: (u32, u32)) -> Result<(), AllocError>
        ensures { OnOk result (self.new ≡ self.old ++ pairing pair ∷ []) }
    {
        self.pairs.push(pair)?;
        Ok(())
    }

    /// Returns the number of pairs.
    pub fn len(&self) -> usize
        ensures { result ≡ length self.now }
    {
        self.pairs.len()
    }

    /// Whether there is no pair.
    pub fn is_empty(&self) -> bool
        ensures { result ≡ nat_eq (length self.now) 0 }
    {
        self.len() == 0
    }

    /// Returns the pairs in their order.
    pub fn as_slice(&self) -> &[(u32, u32)]
        ensures { map pairing result.now ≡ self.now }
    {
        self.pairs.as_slice()
    }
}

impl Index<usize> for Pairs {
    type Output = (u32, u32);

    ghost can_index = { λ pairs i. i < length pairs };

    ghost index_gives = { λ pairs i pair. slice_get pairs i ≡ Some (pairing pair) };

    fn index(&self, index: usize) -> &(u32, u32) {
        &self.pairs[index]
    }
}
