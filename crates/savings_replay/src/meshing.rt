//! The heap that meshes.
ghost use Rattle.std.specs.Prelude.{◌≡◌, ◌+◌, ◌*◌, ◌<◌, ◌^◌, IfOk, OnOk, length, map};
ghost use Rattle.savings_replay.specs.Records.{KeepsRecords};
ghost use Rattle.mesh_search.specs.Pairs.{pairing};
ghost use Rattle.savings_replay.specs.Mesher.{Fits, IsAsBefore, class_tries, meshing_of, round_tries};
ghost use Rattle.savings_replay.specs.Meshing.{IsAfterPairs, class_meshed, class_sizes, classes_meshed, pair_meshed, pairs_meshed};

use crate::counts::MeshCounts;
use crate::placement::Placement;
use crate::words::draw;
use mesh_class::{Class, all_classes};
use mesh_search::search_one;
use rand_xoshiro::Xoshiro256PlusPlus;
use std::alloc::{AllocError, Global};

/// The heap that meshes, the counts of its meshes, and the generator of the words for shuffles.
#[derive(Drop)]
pub(crate) struct Mesher {
    pub placement: Placement,
    pub counts: MeshCounts,
    pub words: Xoshiro256PlusPlus,
    /// The most members that a mesh may give a group.
    pub members: u32,
}

impl Mesher {
    /// Meshes the group `source` into the group `destination`. If the mesh is refused, counts the refusal instead.
    fn mesh_pair(&mut self, source: u32, destination: u32)
        requires { Fits self.old.counts 1 0 }
        ensures value { meshing_of self.new ≡ pair_meshed (meshing_of self.old) (pairing (source, destination)) }
        ensures counts { IsAfterPairs self.old.counts self.new.counts 1 0 }
        ensures kept { IsAsBefore self.old self.new }
    {
        self.placement.sound();
        match self
            .placement
            .mesh_within(self.members, source, destination)
        {
            Ok(meshed) => {
                self.counts.meshes += 1;
                self.counts.moved += u64::from(meshed.bytes);
            }
            Err(_) => self.counts.refused += 1,
        }
    }

    /// Meshes pairs of a source and a destination, in order.
    fn mesh_pairs(&mut self, pairs: &[(u32, u32)])
        requires { Fits self.old.counts (length pairs.now) 0 }
        ensures value { meshing_of self.new ≡ pairs_meshed (meshing_of self.old) (map pairing pairs.now) }
        ensures counts { IsAfterPairs self.old.counts self.new.counts (length pairs.now) 0 }
        ensures kept { IsAsBefore self.old self.new }
    {
        for pair in pairs {
            let (source, destination) = *pair;
            self.mesh_pair(source, destination);
        }
    }

    /// Searches a class, and meshes the pairs that the search finds.
    fn mesh_class(&mut self, alloc: Global, probe: u32, class: Class) -> Result<(), AllocError>
        requires { Fits self.old.counts 32768 class_tries }
        ensures value { OnOk result (meshing_of self.new ≡ class_meshed probe (meshing_of self.old) class) }
        ensures counts { IsAfterPairs self.old.counts self.new.counts 32768 class_tries }
        ensures kept { IsAsBefore self.old self.new }
    {
        let view = self.placement.view(alloc, class)?;
        let words = draw(alloc, &mut self.words, view.len())?;
        let found = search_one(alloc, &view, words.as_slice(), probe)?;
        self.counts.tries += u128::from(found.probes);
        self.mesh_pairs(found.pairs.as_slice());
        Ok(())
    }

    /// Searches each class, from the smallest to the largest, and meshes the pairs that the searches find.
    pub(crate) fn mesh_classes(&mut self, alloc: Global, probe: u32) -> Result<(), AllocError>
        requires { Fits self.old.counts 327680 round_tries }
        ensures value { OnOk result (meshing_of self.new ≡ classes_meshed probe (meshing_of self.old) class_sizes) }
        ensures counts { IsAfterPairs self.old.counts self.new.counts 327680 round_tries }
        ensures kept { IsAsBefore self.old self.new }
    {
        let classes = all_classes();
        for k in 0..classes.len() {
            self.mesh_class(alloc, probe, classes[k])?;
        }
        Ok(())
    }
}
