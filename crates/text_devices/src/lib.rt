//! Reads texts from devices, whole or line by line, and writes texts to devices.
//!
//! In contracts, a device is a `Source` or a `Sink`. The contracts are about the bytes that can still be read from a
//! source or that a sink has accepted, as far as these bytes are known. They are also about whether a call of the
//! device has failed.
//!
//! - `read_some` makes one call. `read_all` and `write_all` make calls until the whole text is read or written.
//! - A `LineInput` returns the lines of a history one by one, whatever their format. It consists of a `BegunLine`, the
//!   beginning of a line whose end hasn't been read yet, and of `Pending` bytes, the unused bytes of the last read.
//! - `TextSource` is a text in memory as a source.
//! - `ReplayError` is the reason for which a run that reads a text from one device and writes to another device stops
//!   before its end.
//!
//! An `AllocError` means that an allocation failed.
#![tactic(auto)]

mod begun;
mod devices;
mod faults;
mod lines;
mod pending;
mod reading;
mod text;
mod transfer;

pub use begun::BegunLine;
pub use devices::{DeviceFault, Input, Output, Sink, Source};
pub use faults::ReplayError;
pub use lines::{LineInput, end_fault, fault_at, long_line};
pub use pending::Pending;
pub use reading::read_all;
pub use text::TextSource;
pub use transfer::{read_some, write_all, write_lines};
