//! The bytes that an access of a recorded history stores or loads: at most 4,096.
//!
//! Up to 32 bytes are in the value itself. More bytes are in an allocation. Every `AllocError` means that this
//! allocation failed.
#![tactic(auto)]

mod bytes;

pub use bytes::{MOST_BYTES, RecordedBytes};
