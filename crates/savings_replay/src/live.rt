//! `LiveObjects`: the live objects, each at a place.
ghost use Rattle.std.specs.Prelude.{◌≡◌, ◌≢◌, ℕ, ◌+◌, ◌-◌, ◌^◌, ◌<◌, ◌≤◌, None, Some, IfNone, IfOk, IfSome, OnErr};
ghost use Rattle.savings_replay.specs.Followed.{with_at};
ghost use Rattle.savings_replay.specs.LiveObjects.{at, found};

use crate::cells::Held;
use crate::objects::Object;
use std::alloc::{AllocError, Global};
use std::marker::Model;

/// A place of the list of objects.
#[derive(Clone, Copy)]
pub(crate) enum Place {
    /// No object. The number is the place that became vacant before this one.
    Vacant(u32),
    /// The live object with this number.
    Full(u32, Object),
}

/// The live objects by place. A place is used again after its object was freed.
#[derive(Drop)]
pub(crate) struct LiveObjects {
    list: Vec<Place>,
    // The place that became vacant last.
    vacant: u32,
    // All objects so far have lower numbers.
    next: u32,
}

impl Model for LiveObjects {
    ghost use Rattle.savings_replay.specs.LiveObjects.{IsSound, LiveObjects as Parts};

    ghost Value = { Parts };

    ghost view = { λ l. record { list = l.list.items; next = l.next } };

    ghost invariant = { λ l. IsSound l.list.items l.next };
}

impl LiveObjects {
    /// Returns a list without objects.
    pub(crate) fn new(alloc: Global) -> LiveObjects
        ensures none { (number : ℕ) → found number result.list ≡ None }
        ensures next { result.next ≡ 0 }
    {
        LiveObjects {
            list: Vec::new(alloc),
            vacant: 0,
            next: 0,
        }
    }

    /// Returns the object that a cell holds, or `None` if it isn't live.
    pub(crate) fn get(&self, held: Held) -> Option<Object>
        ensures { result ≡ at held.place held.number self.now.list }
    {
        match self.list.get(held.place as usize) {
            Some(Place::Full(number, object)) if *number == held.number => Some(*object),
            _ => None,
        }
    }

    /// Adds an object with this number, which must be above all numbers so far, and returns its place.
    pub(crate) fn add(&mut self, number: u32, object: Object) -> Result<u32, AllocError>
        requires next { self.old.next ≤ number }
        requires few { number < 2 ^ 32 - 1 }
        ensures found { IfOk result (λ _. (n : ℕ) → found n self.new.list
            ≡ with_at number (Some object) (λ m. found m self.old.list) n) }
        ensures place { IfOk result (λ place. at place number self.new.list ≡ Some object) }
        ensures others { IfOk result (λ _. (p n : ℕ) → n ≢ number
            → at p n self.old.list ≡ found n self.old.list → at p n self.new.list ≡ found n self.new.list) }
        ensures next { IfOk result (λ _. self.new.next ≡ number + 1) }
        ensures err { OnErr result (self.new ≡ self.old) }
    {
        let last = self.vacant;
        if let Some(Place::Vacant(before)) = self.list.get(last as usize) {
            self.vacant = *before;
            self.next = number + 1;
            self.list[last as usize] = Place::Full(number, object);
            return Ok(last);
        }
        let place = self.list.len() as u32;
        self.list.push(Place::Full(number, object))?;
        self.next = number + 1;
        Ok(place)
    }

    /// Removes the object that a cell holds, and returns it. Returns `None`, and changes nothing, if it isn't live.
    pub(crate) fn remove(&mut self, held: Held) -> Option<Object>
        ensures object { result ≡ at held.place held.number self.old.list }
        ensures found { IfSome result (λ _. (n : ℕ) → found n self.new.list
            ≡ with_at held.number None (λ m. found m self.old.list) n) }
        ensures others { IfSome result (λ _. (p n : ℕ)
            → at p n self.old.list ≡ found n self.old.list → at p n self.new.list ≡ found n self.new.list) }
        ensures next { self.new.next ≡ self.old.next }
        ensures none { IfNone result (self.new ≡ self.old) }
    {
        let object = self.get(held)?;
        self.list[held.place as usize] = Place::Vacant(self.vacant);
        self.vacant = held.place;
        Some(object)
    }
}
