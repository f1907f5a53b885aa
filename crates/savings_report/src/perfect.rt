//! The pages of perfect packing, which are kept from call to call.
ghost use Rattle.std.specs.Prelude.{◌≡◌, ◌<◌, ◌≤◌, ◌^◌, replicate, slice_set};
ghost use Rattle.savings_replay.specs.ClassLaws.{FitsPages, pages_needed};
ghost use Rattle.savings_replay.specs.Placement.{table_of};
ghost use Rattle.savings_report.specs.Samples.{perfect_pages};

use crate::table::CLASSES;
use mesh_class::{Class, all_classes};
use savings_replay::Placement;
use std::marker::Model;

/// The pages of perfect packing after a call. The next call changes the number of objects of at most one class, so only
/// this class's pages are computed again.
#[derive(Drop)]
pub(crate) struct Perfect {
    // The number of objects of each class.
    objects: [u32; CLASSES],
    // The number of pages in the fewest spans that can contain them.
    pages: [u32; CLASSES],
}

impl Model for Perfect {
    ghost use Rattle.savings_report.specs.Perfect.{AreNeeded, Perfect as Parts};

    ghost Value = { Parts };

    ghost view = { λ p. record { objects = p.objects; pages = p.pages } };

    ghost invariant = { λ p. AreNeeded p.objects p.pages };
}

impl Perfect {
    /// Returns the pages of perfect packing before the first call.
    pub(crate) fn none() -> Perfect
        ensures { result.objects ≡ replicate 10 0 }
    {
        Perfect {
            objects: [0; CLASSES],
            pages: [0; CLASSES],
        }
    }

    /// Returns for each class the number of pages in the fewest spans that can contain the heap's objects of the class.
    pub(crate) fn of(&mut self, placement: &Placement) -> [u32; CLASSES]
        ensures value { result ≡ perfect_pages (table_of placement.now) }
        ensures fits { FitsPages (table_of placement.now) }
    {
        placement.sound();
        let objects = placement.objects_by_class();
        for k in 0..CLASSES {
            if objects[k] != self.objects[k] {
                self.change(k, objects[k]);
            }
        }
        self.pages
    }

    /// Takes another number of objects of the class at place `k` of the class table.
    fn change(&mut self, k: usize, objects: u32)
        requires place { k < 10 }
        requires few { objects ≤ 2 ^ 24 }
        ensures { self.new.objects ≡ slice_set self.old.objects k objects }
    {
        let classes = all_classes();
        self.objects[k] = objects;
        self.pages[k] = pages_needed(classes[k], objects);
    }
}

/// Returns the number of pages in the fewest spans of a class that can contain `objects` objects.
fn pages_needed(class: Class, objects: u32) -> u32
    requires { objects ≤ 2 ^ 24 }
    ensures { result ≡ pages_needed class objects }
{
    let slots = class.slots();
    (objects + slots - 1) / slots * class.pages()
}
