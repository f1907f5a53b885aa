//! `Stored`, a live object.
ghost use Rattle.std.specs.Prelude.{◌≡◌, ◌+◌, ◌-◌, ◌^◌, ◌<◌, ◌≤◌, true, nat_lt, length, slice_index};
ghost use Rattle.model_memory.specs.Memory.{has_address};
ghost use Rattle.model_memory.specs.Plain.{ends_outside};
ghost use Rattle.history_in_order.specs.Stands.{addresses_from};

use crate::reasons::AddressRange;
use crate::sparse::SparseBytes;
use std::marker::Model;

/// A live object: its serial, the line that made it, its address and its bytes.
#[derive(Drop)]
pub struct Stored {
    /// The serial.
    pub serial: u32,
    /// The line of the `new` that made the object.
    pub made_at: u32,
    /// The address.
    pub address: u64,
    /// The bytes.
    pub bytes: SparseBytes,
}

impl Model for Stored {
    ghost use Rattle.history_in_order.specs.Objects.{LiveObject, live_code};

    ghost Value = { LiveObject };

    ghost coded = { live_code };

    ghost view = { λ s.
        record { object = record { address = s.address; bytes = s.bytes }; serial = s.serial; made_at = s.made_at } };
}

impl Stored {
    /// Whether the object has the address in its range.
    pub fn has_address(&self, address: u64) -> bool
        ensures { result ≡ has_address self.now.object address }
    {
        self.address <= address && address - self.address < self.bytes.len()
    }

    /// Returns the object's addresses. The end is exact if it is less than 2^64, as it is for each object of a history.
    pub fn range(&self) -> AddressRange
        ensures from { result.from ≡ self.now.object.address }
        ensures range { self.now.object.address + length self.now.object.bytes < 2 ^ 64
            → result ≡ addresses_from self.now.object.address (length self.now.object.bytes) }
    {
        AddressRange {
            from: self.address,
            to: self.address.saturating_add(self.bytes.len()),
        }
    }

    /// Whether the end of the object's range is above an address. The end itself is outside the range.
    pub fn ends_behind(&self, address: u64) -> bool
        ensures { result ≡ nat_lt address (self.now.object.address + length self.now.object.bytes) }
    {
        self.address > address || self.has_address(address)
    }

    /// The offset of an address in the object's range.
    pub fn offset_of(&self, address: u64) -> u64
        requires { has_address self.now.object address ≡ true }
        ensures value { result ≡ address - self.now.object.address }
        ensures within { result < length self.now.object.bytes }
        ensures from { self.now.object.address ≤ address }
    {
        address - self.address
    }

    /// Whether the `len` bytes that begin at `off` end past the object.
    pub fn ends_outside(&self, off: u64, len: u32) -> bool
        ensures { result ≡ ends_outside self.now.object off len }
    {
        let room = self.bytes.len();
        room < off || room - off < u64::from(len)
    }

    /// The byte at an offset.
    pub fn byte(&self, off: u64) -> u8
        requires { off < length self.now.object.bytes }
        ensures { result ≡ slice_index self.now.object.bytes off }
    {
        self.bytes.byte(off)
    }
}
