//! Bytes for the accesses of the tests.
use history_bytes::{MOST_BYTES, RecordedBytes};
use std::alloc::Global;

/// Returns these bytes as those of an access. Returns `None` if there are more than 4,096, or if an allocation fails.
pub(crate) fn bytes_of(alloc: Global, some: &[u8]) -> Option<RecordedBytes> {
    if some.len() > MOST_BYTES {
        return None;
    }
    RecordedBytes::from_slice(alloc, some).ok()
}
