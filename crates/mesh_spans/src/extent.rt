//! `Extent`, the location of one span.
ghost use Rattle.std.specs.Prelude.{◌≡◌, ℕ, ◌+◌, ◌*◌, ◌<◌, ◌≤◌, Some, IfSome};
ghost use Rattle.mesh_class.specs.Classes.{pages_of, slots_of};
ghost use Rattle.mesh_spans.specs.Changes.{in_group};
ghost use Rattle.mesh_spans.specs.Index.{IsSpan, address_in, new_span};

use crate::Slot;
use mesh_class::Class;
use std::marker::Model;

/// The number of bytes of a page, for arithmetic on addresses.
pub(crate) const PAGE_BYTES: u32 = 4096;

/// The first virtual page, the size class and the group of one span.
#[derive(Drop)]
pub(crate) struct Extent {
    // The first virtual page.
    first: u32,
    class: Class,
    // The number of the group.
    group: u32,
}

impl Model for Extent {
    ghost use Rattle.mesh_spans.specs.Index.{SpanEntry, IsSpan};

    ghost Value = { SpanEntry };

    ghost view = { λ s. record { first = s.first; class = s.class; group = s.group } };

    ghost invariant = { λ s. IsSpan (record { first = s.first; class = s.class; group = s.group }) };
}

impl Extent {
    /// Returns a span with the first virtual page `first`, the size class `class` and the group `group`.
    pub fn new(first: u32, class: Class, group: u32) -> Extent
        requires first { 1 ≤ first }
        requires last { first + pages_of class ≤ 65536 }
        ensures { result ≡ new_span first class group }
    {
        let _pages = class.pages();
        Extent {
            first,
            class,
            group,
        }
    }

    /// Returns the first virtual page of the span.
    pub fn first(&self) -> u32
        ensures value { result ≡ self.now.first }
        ensures sound { IsSpan self.now }
    {
        self.first
    }

    /// Returns the number of the span's group.
    pub fn group(&self) -> u32
        ensures { result ≡ self.now.group }
    {
        self.group
    }

    /// Returns the size class of the span.
    pub fn class(&self) -> Class
        ensures value { result ≡ self.now.class }
        ensures sound { IsSpan self.now }
    {
        self.class
    }

    /// Sets the span's group to `group`.
    pub fn join(&mut self, group: u32)
        ensures { self.new ≡ in_group group self.old }
    {
        self.group = group;
    }

    /// Returns the slot that contains an address, and the offset of the address in the slot. Returns `None` if the
    /// address is outside the span.
    pub fn find(&self, addr: u32) -> Option<(Slot, u32)>
        ensures slot { IfSome result (λ r. r.0 < slots_of self.now.class) }
        ensures offset { IfSome result (λ r. r.1 < self.now.class) }
        ensures address { IfSome result (λ r. address_in self.now r.0 + r.1 ≡ addr) }
        ensures found { (k o : ℕ) → k < slots_of self.now.class → o < self.now.class → address_in self.now k + o ≡ addr
            → result ≡ Some (k, o) }
        ensures sound { IsSpan self.now }
    {
        let from_start = addr.checked_sub(self.first * PAGE_BYTES)?;
        let size = self.class.size();
        let slot = from_start / size;
        if slot >= self.class.slots() {
            return None;
        }
        Some((Slot::numbered(slot), from_start % size))
    }

    /// Returns the address of a slot.
    pub fn address(&self, slot: Slot) -> u32
        requires { slot < slots_of self.now.class }
        ensures value { result ≡ address_in self.now slot }
        ensures sound { IsSpan self.now }
    {
        self.first * PAGE_BYTES + slot.number() * self.class.size()
    }
}
