//! The request of a command line, with what its arguments don't contain.

use crate::{Args, Conditions};

/// The request of a command line. The conditions of a verdict are a separate field because no variant of an enum may
/// contain them.
#[derive(Clone, Copy)]
pub struct Request<'a> {
    /// The subcommand with its arguments.
    pub args: Args<'a>,
    /// The conditions of a verdict. There are none if the words don't ask for an exploration.
    pub conditions: Conditions<'a>,
    /// Whether a second line on standard error explains a fault of a text.
    pub explains: bool,
}
