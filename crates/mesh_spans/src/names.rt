//! The numbers that name spans and slots.
ghost use Rattle.std.specs.Prelude.{◌≡◌, ◌*◌, ◌<◌, ◌^◌};

use std::marker::Model;

/// The number of a span, from 0, in the order in which spans are made. A group has the number of its first span.
#[derive(Clone, Copy, Default, PartialEq, Eq)]
pub struct Span(u32);

impl Model for Span {
    ghost use Rattle.std.specs.Prelude.{ℕ};

    ghost Value = { ℕ };

    ghost view = { λ span. span.0 };

    ghost inverse = { λ number. record { 0 = number } };
}

impl Span {
    /// Returns the span's place in a list of all spans.
    pub(crate) fn index(self) -> usize
        ensures { result ≡ self }
    {
        self.0 as usize
    }

    /// Returns the span with this number.
    pub fn numbered(number: u32) -> Span
        ensures { result ≡ number }
    {
        Span(number)
    }
}

/// The number of a slot in its span, from 0.
#[derive(Clone, Copy, PartialEq, Eq)]
pub struct Slot(u32);

impl Model for Slot {
    ghost use Rattle.std.specs.Prelude.{ℕ};

    ghost Value = { ℕ };

    ghost view = { λ slot. slot.0 };

    ghost inverse = { λ number. record { 0 = number } };
}

impl Slot {
    /// Returns the slot with this number.
    pub fn numbered(number: u32) -> Slot
        ensures { result ≡ number }
    {
        Slot(number)
    }

    /// Returns the slot's number.
    pub fn number(self) -> u32
        ensures { result ≡ self }
    {
        self.0
    }
}
