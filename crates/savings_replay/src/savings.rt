//! `Savings`: the replay on both heaps.
ghost use Rattle.std.specs.Prelude.{◌≡◌, ◌≢◌, ℕ, ◌+◌, ◌≤◌, ◌<◌, ◌-◌, ◌^◌, ◌↔◌, false, None, Some, IfOk, IfSome, IsTrue};
ghost use Rattle.model_words.specs.Classes.{class_for};
ghost use Rattle.savings_replay.specs.Counts.{IsFew};
ghost use Rattle.savings_replay.specs.Placement.{table_of};
ghost use Rattle.savings_replay.specs.Followed.{Followed, aliased, freed, made, object_in, start, step};
ghost use Rattle.savings_replay.specs.Follows.{Follows, HasNumbers, IsTaken};
ghost use Rattle.savings_replay.specs.declared.taken.Taken.TheVariants.{Made};

use crate::calls::Call;
use crate::counts::{Counts, MeshCounts};
use crate::heaps::TwoHeaps;
use crate::objects::{Object, Objects};
use crate::placement::Placement;
use crate::settings::Settings;
use crate::taken::Taken;
use crate::words::{draw_new, seeded};
use mesh_class::{Class, class_of};
use rand_xoshiro::Xoshiro256PlusPlus;
use std::alloc::{AllocError, Global};
use std::marker::Model;

/// A replay of a program's allocations on two heaps: one that meshes and one that doesn't.
pub struct Savings {
    alloc: Global,
    settings: Settings,
    objects: Objects,
    counts: Counts,
    new_words: Xoshiro256PlusPlus,
    heaps: TwoHeaps,
}

impl Model for Savings {
    ghost use Rattle.savings_replay.specs.Follows.{IsCounted, Kept, kept_of};

    ghost Value = { Kept };

    ghost view = { λ s. kept_of s.settings s.objects s.counts s.new_words s.heaps };

    ghost invariant = { λ s. IsCounted (kept_of s.settings s.objects s.counts s.new_words s.heaps) };
}

#[rattlefmt::skip]
impl Drop for Savings {
    fn drop(self) { let Savings { alloc: _, settings: _, objects: _, counts: _, new_words: _, heaps: _ } = self; }
}

impl Savings {
    /// Returns a replay with two empty heaps.
    pub fn new(alloc: Global, settings: Settings) -> Result<Savings, AllocError>
        ensures follows { IfOk result (λ savings. Follows savings (start settings)) }
        ensures settings { IfOk result (λ savings. savings.settings ≡ settings) }
    {
        let seed = settings.words.new_seed();
        let heaps = TwoHeaps::open(alloc, seed.wrapping_add(1), settings.members)?;
        Ok(Savings {
            alloc,
            settings,
            objects: Objects::new(alloc),
            counts: Counts::none(),
            new_words: seeded(seed),
            heaps,
        })
    }

    /// Whether the replay has made 2^32 - 1 calls, so that all numbers of calls are used up. `take` must not be called
    /// then.
    pub fn is_full(&self) -> bool
        ensures left { result ≡ false → HasNumbers self.now }
        ensures full { (f : Followed) → Follows self.now f → (IsTrue result ↔ (f.counts.calls ≡ 2 ^ 32 - 1)) }
    {
        self.counts.calls == u32::MAX || self.heaps.is_full()
    }

    /// Makes the next call of the program in both heaps.
    ///
    /// A call that can't be made changes nothing. The result is `NoObject` for a `free` or an `alias` if the cell holds
    /// no live object. It is `NoAddresses` for a `new` of up to 2,048 bytes if a heap has too few virtual pages left.
    ///
    /// After an error, the state of the heaps is unspecified.
    pub fn take(&mut self, call: &Call) -> Result<Taken, AllocError>
        requires { HasNumbers self.old }
        ensures taken { (f : Followed) → Follows self.old f
            → IfOk result (IsTaken self.new f (step self.old.settings f call.now)) }
        ensures unchanged { IfOk result (λ taken. taken ≢ Made → self.new ≡ self.old) }
        ensures settings { self.new.settings ≡ self.old.settings }
    {
        match *call {
            Call::New(cell, len) => self.new_object(cell, len.max(1)),
            Call::Free(cell) => self.free(cell),
            Call::Alias(to, from) => self.alias(to, from),
        }
    }

    /// Returns the settings of the replay.
    pub fn settings(&self) -> Settings
        ensures { result ≡ self.now.settings }
    {
        self.settings
    }

    /// Returns the counts of the calls so far.
    pub fn counts(&self) -> Counts
        ensures counts { result ≡ self.now.counts }
        ensures few { IsFew result }
        ensures follows { (f : Followed) → Follows self.now f → result ≡ f.counts }
    {
        self.counts
    }

    /// Returns the counts of all meshes so far.
    pub fn mesh_counts(&self) -> MeshCounts
        ensures { (f : Followed) → Follows self.now f → result ≡ f.heaps.meshing.counts }
    {
        self.heaps.mesher.counts
    }

    /// The heap that doesn't mesh.
    pub fn without(&self) -> &Placement
        ensures { (f : Followed) → Follows self.now f → table_of result.now ≡ f.heaps.without }
    {
        &self.heaps.without
    }

    /// The heap that meshes.
    pub fn with(&self) -> &Placement
        ensures { (f : Followed) → Follows self.now f → table_of result.now ≡ f.heaps.meshing.table }
    {
        &self.heaps.mesher.placement
    }

    /// Stores in the cell `to` the reference to the live object that `from` holds. Returns `NoObject` if `from` holds
    /// no live object.
    fn alias(&mut self, to: u32, from: u32) -> Result<Taken, AllocError>
        requires { HasNumbers self.old }
        ensures taken { (f : Followed) → Follows self.old f
            → IfOk result (IsTaken self.new f (aliased f to (object_in f from))) }
        ensures unchanged { IfOk result (λ taken. taken ≢ Made → self.new ≡ self.old) }
        ensures settings { self.new.settings ≡ self.old.settings }
    {
        if !self.objects.alias(to, from)? {
            return Ok(Taken::NoObject);
        }
        self.counts = self.counts.alias();
        Ok(Taken::Made)
    }

    /// Frees the live object that a cell holds, and makes a round if it is due. Returns `NoObject` if the cell holds no
    /// live object.
    fn free(&mut self, cell: u32) -> Result<Taken, AllocError>
        requires { HasNumbers self.old }
        ensures taken { (f : Followed) → Follows self.old f
            → IfOk result (IsTaken self.new f (freed self.old.settings f cell (object_in f cell))) }
        ensures unchanged { IfOk result (λ taken. taken ≢ Made → self.new ≡ self.old) }
        ensures settings { self.new.settings ≡ self.old.settings }
    {
        let Some((_, object)) = self.objects.take_out(cell) else {
            return Ok(Taken::NoObject);
        };
        match object {
            Object::Small(places) => {
                let live = self.heaps.free(places);
                let is_due = self.settings.rounds.is_due(self.counts.since + 1, live);
                self.counts = self.counts.small_free(is_due);
                self.heaps
                    .round_if_due(self.alloc, is_due, self.settings.probe)?;
            }
            Object::Large(len) => self.counts = self.counts.large_free(len),
        }
        Ok(Taken::Made)
    }

    /// Counts an object above 2,048 bytes, which neither heap gets.
    fn new_large(&mut self, cell: u32, len: u64) -> Result<Taken, AllocError>
        requires { HasNumbers self.old }
        ensures taken { (f : Followed) → Follows self.old f
            → IfOk result (IsTaken self.new f (made self.old.settings f cell len None)) }
        ensures unchanged { IfOk result (λ taken. taken ≢ Made → self.new ≡ self.old) }
        ensures settings { self.new.settings ≡ self.old.settings }
    {
        let number = self.counts.made;
        self.counts = self.counts.large_new(len);
        self.objects.add(cell, number, Object::Large(len))?;
        Ok(Taken::Made)
    }

    /// Makes an object of up to 2,048 bytes in both heaps. Returns `NoAddresses` if a heap has no room for the object.
    fn new_small(&mut self, cell: u32, len: u32, class: Class) -> Result<Taken, AllocError>
        requires numbers { HasNumbers self.old }
        requires some { 1 ≤ len }
        requires small { len ≤ 2048 }
        ensures taken { (f : Followed) → Follows self.old f
            → IfOk result (IsTaken self.new f (made self.old.settings f cell len (Some class))) }
        ensures unchanged { IfOk result (λ taken. taken ≢ Made → self.new ≡ self.old) }
        ensures settings { self.new.settings ≡ self.old.settings }
    {
        if !self.heaps.has_room(len) {
            return Ok(Taken::NoAddresses);
        }
        let word = draw_new(self.settings.words, &mut self.new_words);
        let places = self.heaps.new(len, word)?;
        let live = self.heaps.without.totals().objects;
        let number = self.counts.made;
        self.counts = self.counts.small_new(class, live);
        self.objects.add(cell, number, Object::Small(places))?;
        Ok(Taken::Made)
    }

    /// Makes an object of `len` bytes, in both heaps if it has up to 2,048 bytes. The results are those of `take`.
    fn new_object(&mut self, cell: u32, len: u64) -> Result<Taken, AllocError>
        requires numbers { HasNumbers self.old }
        requires some { 1 ≤ len }
        ensures taken { (f : Followed) → Follows self.old f
            → IfOk result (IsTaken self.new f (made self.old.settings f cell len (class_for len))) }
        ensures unchanged { IfOk result (λ taken. taken ≢ Made → self.new ≡ self.old) }
        ensures settings { self.new.settings ≡ self.old.settings }
    {
        match class_within(len) {
            Some(class) => self.new_small(cell, len as u32, class),
            None => self.new_large(cell, len),
        }
    }
}

/// Returns the class of an object of `len` bytes, at least 1. Returns `None` if `len` is above 2,048.
fn class_within(len: u64) -> Option<Class>
    requires { 1 ≤ len }
    ensures class { result ≡ class_for len }
    ensures small { IfSome result (λ _. len ≤ 2048) }
{
    let len = u32::try_from(len).ok()?;
    class_of(len).ok()
}
