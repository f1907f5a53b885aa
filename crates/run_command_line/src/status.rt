//! The exit statuses.

/// The exit status if the program has done everything, or help was asked for.
pub const DONE: u8 = 0;

/// The exit status after a failure of a device or of an allocation.
pub const FAILED: u8 = 1;

/// The exit status if the command line or the text that was read has an error.
pub const FAULTY: u8 = 2;

/// The exit status of a negative verdict.
pub const NEGATIVE: u8 = 3;

/// The exit status if a question isn't decided: there are too many states or configurations, or a heap's addresses are
/// used up.
pub const UNDECIDED: u8 = 4;
