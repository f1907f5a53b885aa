//! `Access`, the record of an access to an object.
use history_bytes::RecordedBytes;

/// The record of an access to an object: what it did, and what it answered.
#[derive(Clone, Drop)]
pub enum Access {
    /// A store of these bytes, starting at an offset.
    Store(u64, RecordedBytes),
    /// A load, starting at an offset: the number of bytes asked for, and the bytes that the load returned.
    Load(u64, u32, RecordedBytes),
    /// An access that reads and changes no byte and whose answer was right.
    Nothing,
    /// A request for the object's address that was answered with this other address. No order of effects explains it.
    Elsewhere(u64),
}
