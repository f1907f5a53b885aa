//! A list in blocks. Removing an element moves only elements of one block.
ghost use Rattle.std.specs.Prelude.{◌≡◌, ◌+◌, ◌<◌, ◌++◌, length, slice_index, slice_index_or, take, IfOk, OnOk};
ghost use Rattle.std.specs.List.{flat_map, remove};
ghost use Rattle.std.specs.Vec.{vec_items};

use std::alloc::{AllocError, Global};

/// The greatest number of elements of a block. Removing an element moves fewer than this number of elements. A list of
/// 4,096 elements has 16 blocks.
const BLOCK: usize = 256;

/// Copies a list into consecutive blocks. The only error is an allocation failure.
pub(crate) fn blocks_of(alloc: Global, list: &[u32]) -> Result<Vec<Vec<u32>>, AllocError>
    ensures { IfOk result (λ blocks. flat_map vec_items blocks.items ≡ list.now) }
{
    let mut blocks = Vec::new(alloc);
    let mut from = 0;
    while from < list.len() {
        let size = BLOCK.min(list.len() - from);
        blocks.push(list[from..from + size].to_vec(alloc)?)?;
        from += size;
    }
    Ok(blocks)
}

/// Returns the index of the block that contains the list's element at `place`, and the element's place in that block.
fn block_at(blocks: &[Vec<u32>], place: usize) -> (usize, usize)
    requires { place < length (flat_map vec_items blocks.now) }
    ensures block { result.0 < length blocks.now }
    ensures within { (d : _) → result.1 < length (vec_items (slice_index_or blocks.now result.0 d)) }
    ensures place { length (flat_map vec_items (take result.0 blocks.now)) + result.1 ≡ place }
{
    let mut k = 0;
    let mut left = place;
    while left >= blocks[k].len() {
        left -= blocks[k].len();
        k += 1;
    }
    (k, left)
}

/// Removes the list's element at `place` from its block, and returns the element.
pub(crate) fn take_out(blocks: &mut Vec<Vec<u32>>, place: usize) -> u32
    requires { place < length (flat_map vec_items blocks.old.items) }
    ensures element { result ≡ slice_index (flat_map vec_items blocks.old.items) place }
    ensures rest { flat_map vec_items blocks.new.items ≡ remove (flat_map vec_items blocks.old.items) place }
{
    let (k, within) = block_at(blocks.as_slice(), place);
    blocks[k].remove(within)
}

/// Appends the elements of all blocks to `order`. The only error is an allocation failure.
pub(crate) fn add_blocks(order: &mut Vec<u32>, blocks: &[Vec<u32>]) -> Result<(), AllocError>
    ensures { OnOk result (order.new.items ≡ order.old.items ++ flat_map vec_items blocks.now) }
{
    for block in blocks {
        order.extend_from_slice(block.as_slice())?;
    }
    Ok(())
}
