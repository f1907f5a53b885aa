//! The bytes of one object: made, loaded, stored and copied.
ghost use Rattle.std.specs.Prelude.{◌≡◌, ◌+◌, ◌≤◌, IfOk, length, replicate, slice_range};
ghost use Rattle.model_memory.specs.Memory.{overwritten};

use arrayvec::ArrayVec;
use model_words::MAX_BYTES;
use std::alloc::{AllocError, Global};

/// Returns `len` zeros. The only error is an allocation failure.
pub fn zeros(alloc: Global, len: usize) -> Result<Vec<u8>, AllocError>
    ensures { IfOk result (λ bytes. bytes.items ≡ replicate len 0) }
{
    vec![in alloc; 0u8; len]
}

/// Returns the `len` bytes that begin at index `start`.
pub fn loaded(all: &[u8], start: usize, len: usize) -> ArrayVec<u8, MAX_BYTES>
    requires fits { start + len ≤ length all.now }
    requires few { len ≤ 32 }
    ensures { result.items ≡ slice_range all.now start (start + len) }
{
    let mut bytes = ArrayVec::from([0; MAX_BYTES]);
    bytes.truncate(len);
    bytes.copy_from_slice(&all[start..start + len]);
    bytes
}

/// Overwrites the bytes that begin at index `start`.
pub fn store_at(all: &mut Vec<u8>, start: usize, bytes: &[u8])
    requires { start + length bytes.now ≤ length all.old.items }
    ensures { all.new.items ≡ overwritten all.old.items start bytes.now }
{
    all[start..start + bytes.len()].copy_from_slice(bytes);
}

/// Copies `len` bytes from index `from` to index `to`. If the two ranges overlap, the copied bytes are those that the
/// source range had before the copy.
pub fn copy_within(all: &mut Vec<u8>, to: usize, from: usize, len: usize)
    requires target { to + len ≤ length all.old.items }
    requires source { from + len ≤ length all.old.items }
    ensures { all.new.items ≡ overwritten all.old.items to (slice_range all.old.items from (from + len)) }
{
    all.copy_within(from..from + len, to);
}
