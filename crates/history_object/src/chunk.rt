//! `Chunk`, 64 bytes of an object.

/// The number of bytes of a chunk. This project's own choice.
pub(crate) const CHUNK_BYTES: usize = 64;

/// The contracts write 64, so `CHUNK_BYTES` must be 64.
const _: () = prove!(CHUNK_BYTES == 64);

/// 64 zeros, the bytes of each chunk that isn't kept.
pub(crate) static ZEROS: [u8; CHUNK_BYTES] = [0; CHUNK_BYTES];

/// The 64 bytes of an object that begin at offset 64 times `number`.
#[derive(Clone, Copy, PartialEq, Eq)]
pub(crate) struct Chunk {
    /// The number of the chunk.
    pub number: u64,
    /// The bytes.
    pub bytes: [u8; CHUNK_BYTES],
}
