//! `Occupant`, the object in a slot.
use std::marker::Model;

/// An object in a slot: the member that contains the object's address, the object's serial and its length.
#[derive(Clone, Copy, PartialEq, Eq)]
pub struct Occupant {
    /// The first virtual page of the member that contains the object's address.
    pub member: u32,
    /// The object's serial.
    pub serial: u32,
    /// The object's length in bytes.
    pub len: u32,
}

impl Model for Occupant {
    ghost use Rattle.model_heap.specs.Table.{Slot};

    ghost Value = { Slot };

    ghost view = { λ o. record { member = o.member; serial = o.serial; len = o.len } };

    ghost inverse = { λ s. record { member = s.member; serial = s.serial; len = s.len } };
}
