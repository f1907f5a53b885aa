//! The name of a physical page.
ghost use Rattle.std.specs.Prelude.{◌≡◌};

use std::marker::Model;

/// The number of a physical page, counted from 0.
///
/// A page comes from an arena's `take`. The default, page 0, only fills places that are not in use.
#[derive(Clone, Copy, Default, PartialEq, Eq)]
pub struct Page(u16);

impl Model for Page {
    ghost use Rattle.std.specs.Prelude.{ℕ};

    ghost Value = { ℕ };

    ghost view = { λ page. page.0 };

    ghost inverse = { λ number. record { 0 = number } };
}

impl Page {
    /// Returns the page with this number.
    pub(crate) fn numbered(number: u16) -> Page
        ensures { result ≡ number }
    {
        Page(number)
    }

    /// The page's number.
    pub fn number(self) -> u32
        ensures { result ≡ self }
    {
        u32::from(self.0)
    }

    /// Returns the place of the page in the arena's list of frames.
    pub(crate) fn index(self) -> usize
        ensures { result ≡ self }
    {
        usize::from(self.0)
    }
}
