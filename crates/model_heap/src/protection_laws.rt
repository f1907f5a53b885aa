//! Laws of read-only pages: which pages the steps of a mesh protect, and which stores these pages block. Each law is
//! the contract of a function that does nothing.
ghost use Rattle.model_heap.specs.ProtectionLaws.{StartsWritable, ProtectsNext, HoldsWhileCopying, UnprotectsNext, ReleasesWritable, CancelHolds, UnwindsNext, UnwoundIsWritable, ReadOnlyByMeshes, BlockedByPages};

/// No page is read-only before the first step or after the last unprotect. A protect makes one page read-only, and an
/// unprotect makes one page writable, in the order of the protects. Copies, remaps and a cancel change no protection.
pub fn read_only_by_steps()
    ensures starts { StartsWritable }
    ensures protects { ProtectsNext }
    ensures holds { HoldsWhileCopying }
    ensures unprotects { UnprotectsNext }
    ensures releases { ReleasesWritable }
    ensures cancel { CancelHolds }
    ensures unwinds { UnwindsNext }
    ensures unwound { UnwoundIsWritable }
{}

/// A virtual page is read-only if and only if it is a page of the source of a running mesh, and this mesh's progress
/// makes the page read-only. A store is blocked if and only if one of its addresses is in a read-only page.
pub fn stores_are_blocked_by_pages()
    ensures pages { ReadOnlyByMeshes }
    ensures blocked { BlockedByPages }
{}
