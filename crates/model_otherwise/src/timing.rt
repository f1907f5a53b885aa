//! In how many moves accesses are made.

/// How an access is made.
#[derive(Clone, Copy, Debug, PartialEq, Eq)]
pub enum Making {
    /// In one move.
    Whole,
    /// In two moves: first the protection is checked, and later the access is made through the page map as it is then.
    Split,
    /// In two moves: first the page is looked up, and later the access is made on the physical page that was found.
    Stale,
}

/// How loads, stores and frees are made. A free in two moves first looks the group of its object up.
#[derive(Clone, Copy, Debug, PartialEq, Eq)]
pub struct Timing {
    /// How loads are made.
    pub loads: Making,
    /// How stores are made.
    pub stores: Making,
    /// How frees are made.
    pub frees: Making,
}
