//! The intervals of the measured calls, with the numbers of the calls.
ghost use Rattle.std.specs.Prelude.{◌≡◌, ◌+◌, min};

use crate::plot::spans::Interval;
use crate::table::Moment;

/// The intervals of the measured calls, with the numbers of the calls, which are counted from 1.
#[derive(Clone, Copy)]
pub struct Course<'a> {
    pub intervals: &'a [Interval],
    /// The number of calls in a full interval.
    pub width: u32,
    /// The number of calls before the first measured call.
    pub before: u32,
    /// The number of the last measured call, or `before` if no call was measured.
    pub last: u32,
    /// The first measured call after which meshing saves the most pages, or `None` if no call was measured.
    pub most_saved: Option<Moment>,
}

impl Course<'_> {
    /// Returns the number of the last call of an interval that begins after call number `done`.
    pub fn end_after(&self, done: u32) -> u32
        ensures { result ≡ min (done + self.now.width) self.now.last }
    {
        done.saturating_add(self.width).min(self.last)
    }
}
