//! The faults of a job's text.
ghost use Rattle.std.specs.Prelude.{◌≡◌};
ghost use Rattle.model_words.specs.Faults.{kind_name_of};

use thiserror::Error;

/// The kind of a fault in a line of a job's text.
///
/// Only the first line with a fault is reported. If several kinds apply to that line, the first of them in this list is
/// reported. The order is this project's own choice.
#[derive(Clone, Copy, Debug, PartialEq, Eq, Error)]
#[error("{}", self.name())]
pub enum FaultKind {
    /// The file has more than 1,048,576 bytes. The line is then 0.
    TooLong,
    /// A byte follows the line end after `end`. The reported line is the line after `end`.
    Trailing,
    /// The line is longer than its format allows: 1,024 bytes, or 16,384 bytes in a recorded history.
    LongLine,
    /// The input ends within a line, or before the line `end`.
    Cut,
    /// A byte outside the range 0x20 to 0x7e.
    Byte,
    /// An empty field, a first field that isn't allowed in this place, or a wrong number of fields.
    Word,
    /// A number or an address that is misspelt or out of its range.
    Number,
    /// Bytes that are misspelt or have a wrong length.
    Hex,
}

impl FaultKind {
    /// Returns the name that a fault line prints, in upper case.
    pub fn name(self) -> &'static str
        ensures { result.now ≡ kind_name_of self }
    {
        match self {
            FaultKind::TooLong => "TOO_LONG",
            FaultKind::Trailing => "TRAILING",
            FaultKind::LongLine => "LONG_LINE",
            FaultKind::Cut => "CUT",
            FaultKind::Byte => "BYTE",
            FaultKind::Word => "WORD",
            FaultKind::Number => "NUMBER",
            FaultKind::Hex => "HEX",
        }
    }
}

/// The first fault of a job's text: the line, numbered from 1, and the kind.
#[derive(Clone, Copy, Debug, PartialEq, Eq, Error)]
#[error("line {line}: {kind}")]
pub struct TextFault {
    /// The number of the line, from 1. 0 if the whole file is too long.
    pub line: u32,
    /// The kind of the fault.
    pub kind: FaultKind,
}
