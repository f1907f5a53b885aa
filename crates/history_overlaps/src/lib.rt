//! Judges histories of overlapping calls: whether some order of effect explains all calls, and which.
//!
//! - `check_calls` (`checks`) reads a text of `history 2` from a device and returns a `CallVerdict`. A `Timeline`
//!   handles the starts and ends of calls in the order of time (`begins`, `ends`), and reads no text.
//! - `linearize` (`orders`) returns an order of effects that explains calls, as the numbers of the calls.
//!   `own_orders` finds an order of the accesses to each object (`accesses`), `points` gives each call a moment of
//!   effect, `keys` sorts the calls by these moments, and `certificates` checks the order.
//! - `written_in_order` (`texts`) writes the calls in an order as a `history 1`.
//!
//! An `AllocError` means that an allocation failed.
#![tactic(auto)]

mod accesses;
mod begins;
mod certificates;
mod checks;
mod ends;
mod flaws;
mod keys;
mod life;
mod misuses;
mod objects;
mod orders;
mod own_orders;
mod pending;
mod points;
mod possible;
mod stops;
mod texts;
mod timeline;
mod verdicts;

pub use begins::access_of;
pub use checks::check_calls;
pub use flaws::Flaw;
pub use misuses::{Misuse, Misused, NotBegun};
pub use objects::NewObject;
pub use orders::linearize;
pub use possible::{Loads, Possible, Unexplained};
pub use stops::{Found, Stop};
pub use texts::written_in_order;
pub use timeline::Timeline;
pub use verdicts::CallVerdict;
