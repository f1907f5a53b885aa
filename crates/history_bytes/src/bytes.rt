//! `RecordedBytes`, a list of at most 4,096 bytes.
ghost use Rattle.std.specs.Prelude.{◌≡◌, ◌+◌, ◌<◌, ◌≤◌, ◌∷◌, ◌++◌, ◌==◌, [], length, replicate, IfOk, IsOk, OnOk};
ghost use Rattle.arrayvec.specs.ArrayVec.{array_vec_len};

use smallvec::SmallVec;
use std::alloc::{AllocError, Global};
use std::marker::Model;

/// The greatest number of bytes of one access.
pub const MOST_BYTES: usize = 4096;

/// The number of bytes that need no allocation.
const INLINE_BYTES: usize = 32;

/// At most 4,096 bytes.
#[derive(Drop)]
pub struct RecordedBytes {
    bytes: SmallVec<u8, INLINE_BYTES>,
}

impl Model for RecordedBytes {
    ghost use Rattle.std.specs.Prelude.{◌≤◌, ℕ, length};
    ghost use Rattle.std.specs.Coded.{coded_ℕ};
    ghost use Rattle.arrayvec.specs.ArrayVec.{ArrayVec as Items, array_vec_code};

    ghost Value = { Items ℕ };

    ghost coded = { array_vec_code coded_ℕ };

    ghost view = { λ s. record { items = s.bytes.items } };

    ghost invariant = { λ s. (length s.bytes.items ≤ 4096) × (32 ≤ s.bytes.capacity) };
}

impl RecordedBytes {
    /// Returns an empty list. It allocates nothing.
    pub fn new(alloc: Global) -> RecordedBytes
        ensures { result.items ≡ [] }
    {
        RecordedBytes {
            bytes: SmallVec::new(alloc),
        }
    }

    /// Returns an empty list with room for `len` bytes. It allocates nothing for up to 32 bytes.
    pub fn with_capacity(alloc: Global, len: usize) -> Result<RecordedBytes, AllocError>
        ensures empty { IfOk result (λ made. made.items ≡ []) }
        ensures inline { len ≤ 32 → IsOk result }
    {
        Ok(RecordedBytes {
            bytes: SmallVec::with_capacity(alloc, len)?,
        })
    }

    /// Returns a list of `len` zeros. It allocates nothing for up to 32 bytes.
    pub fn zeros(alloc: Global, len: usize) -> Result<RecordedBytes, AllocError>
        requires { len ≤ 4096 }
        ensures zeros { IfOk result (λ made. made.items ≡ replicate len 0) }
        ensures inline { len ≤ 32 → IsOk result }
    {
        Ok(RecordedBytes {
            bytes: SmallVec::from_elem(alloc, 0, len)?,
        })
    }

    /// Returns a list of these bytes. It allocates nothing for up to 32 bytes.
    pub fn from_slice(alloc: Global, bytes: &[u8]) -> Result<RecordedBytes, AllocError>
        requires { length bytes.now ≤ 4096 }
        ensures bytes { IfOk result (λ made. made.items ≡ bytes.now) }
        ensures inline { length bytes.now ≤ 32 → IsOk result }
    {
        let mut made = RecordedBytes::new(alloc);
        made.extend(bytes)?;
        Ok(made)
    }

    /// Returns the number of bytes.
    pub fn len(&self) -> usize
        ensures value { result ≡ array_vec_len self.now }
        ensures most { result ≤ 4096 }
    {
        self.bytes.len()
    }

    /// Whether there is no byte.
    pub fn is_empty(&self) -> bool
        ensures { result ≡ (array_vec_len self.now == 0) }
    {
        self.bytes.is_empty()
    }

    /// Returns the bytes.
    pub fn as_slice(&self) -> &[u8]
        ensures value { result.now ≡ self.now.items }
        ensures most { length result.now ≤ 4096 }
    {
        self.bytes.as_slice()
    }

    /// Appends a byte. It allocates nothing if there were fewer than 32 bytes.
    pub fn push(&mut self, byte: u8) -> Result<(), AllocError>
        requires { array_vec_len self.old < 4096 }
        ensures bytes { OnOk result (self.new.items ≡ self.old.items ++ byte ∷ []) }
        ensures inline { array_vec_len self.old < 32 → IsOk result }
    {
        self.bytes.extend_from_slice(&[byte])
    }

    /// Appends bytes. It allocates nothing if there are at most 32 bytes afterwards.
    pub fn extend(&mut self, bytes: &[u8]) -> Result<(), AllocError>
        requires { array_vec_len self.old + length bytes.now ≤ 4096 }
        ensures bytes { OnOk result (self.new.items ≡ self.old.items ++ bytes.now) }
        ensures inline { array_vec_len self.old + length bytes.now ≤ 32 → IsOk result }
    {
        self.bytes.extend_from_slice(bytes)
    }
}

impl Clone for RecordedBytes {
    ghost is_clone = { λ bytes copy. copy ≡ bytes };

    ghost is_infallible = { λ bytes. length bytes.items ≤ 32 };

    /// Returns a copy. It allocates nothing for up to 32 bytes.
    fn clone(&self) -> Result<RecordedBytes, AllocError> {
        RecordedBytes::from_slice(*self.bytes.allocator(), self.as_slice())
    }
}

/// Two lists are equal if they have the same bytes.
impl PartialEq for RecordedBytes {
    ghost use Rattle.std.specs.Prelude.{nat_eq};
    ghost use Rattle.std.specs.Cmp.{on_per, partial_equiv_from_equiv};
    ghost use Rattle.std.specs.Cmp.Lexicographic.{nat_list_eq_equiv, pointwise};

    ghost eq = { λ x y. pointwise nat_eq x.items y.items };

    ghost laws = { on_per (λ x. x.items) (partial_equiv_from_equiv nat_list_eq_equiv) };

    fn eq(&self, other: &RecordedBytes) -> bool {
        self.as_slice() == other.as_slice()
    }
}

impl Eq for RecordedBytes {
    ghost use Rattle.std.specs.Cmp.{on_equiv};
    ghost use Rattle.std.specs.Cmp.Lexicographic.{nat_list_eq_equiv};

    ghost laws = { on_equiv (λ x. x.items) nat_list_eq_equiv };
}
