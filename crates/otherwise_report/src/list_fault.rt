//! Why a text is no list of steps.

/// Why a text is no list of steps. Words are counted from 1.
#[derive(Clone, Copy, Debug, PartialEq, Eq)]
pub enum ListFault {
    /// The text doesn't have 1 to 12 phases, with one space between two words.
    WordCount,
    /// The word of this number names no step, or the step can't have its options.
    NoStep(u32),
    /// The word of this number joins steps that can't be made together.
    NotJoined(u32),
    /// The word of this number is between `(` and `)`, and its steps can't be made page by page.
    NotByPage(u32),
    /// The word of this number is a `(` behind another one, a `)` without a `(`, or a `)` behind a `(`.
    Parenthesis(u32),
    /// A `(` has no `)`.
    Unclosed,
}
