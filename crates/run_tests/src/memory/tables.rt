//! Tables of test cases, each table written as one text.

use crate::memory::files::FAULTS;

/// The separator between two rows of a table that is written as one text.
///
/// A table in one text is proved about as fast as one string. For an array of strings the proof time grows with the
/// square of the number of strings.
pub const ROW_END: char = '#';

/// Returns the first three fields of a row of a table. A missing field is empty.
pub fn fields(row: &str) -> (&str, &str, &str) {
    let mut fields = row.split('|');
    (
        fields.next().unwrap_or(""),
        fields.next().unwrap_or(""),
        fields.next().unwrap_or(""),
    )
}

/// Returns the table of the files that are no jobs. Each row has the name, the text and the line of the fault. Tests
/// get the table only from this function, so that it is part of one proof only.
pub fn faulty_files() -> &'static str {
    FAULTS
}
