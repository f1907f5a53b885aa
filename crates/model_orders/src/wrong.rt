//! Why a list of steps isn't safe.
use thiserror::Error;

/// The first wrong step of a list, and the reason.
#[derive(Clone, Copy, Debug, PartialEq, Eq, Error)]
#[error("place {place}: {reason}")]
pub struct Wrong {
    /// The place of the step in the list, counted from 0. If only the end of the list is wrong, the list's length.
    pub place: usize,
    /// The reason.
    pub reason: Reason,
}

/// The reason why a step, or the end of a list, is wrong.
#[derive(Clone, Copy, Debug, PartialEq, Eq, Error)]
pub enum Reason {
    /// A copy, but only the destination's physical page has the right bytes.
    #[error("copy: the source's bytes are no longer right")]
    CopiesOldBytes,
    /// A release, but the virtual pages are mapped to the source.
    #[error("release: the source is still mapped")]
    ReleasesMapped,
    /// A release, but only the source's physical page has the right bytes.
    #[error("release: the only right bytes are in the source")]
    ReleasesOnlyBytes,
    /// A release after a release.
    #[error("release: the pages were released before")]
    ReleasesAgain,
    /// Stores are allowed after this step, but the virtual page isn't mapped to the only physical page with the right
    /// bytes.
    #[error("after this step stores are allowed, but the right bytes are elsewhere")]
    StoresElsewhere,
    /// Only loads are allowed after this step, and the virtual page isn't mapped to a physical page with the right
    /// bytes.
    #[error("a load after this step finds old bytes")]
    LoadsOldBytes,
    /// The list ends, but the pages are mapped to the source.
    #[error("the steps end before the pages are mapped to the destination")]
    EndsMapped,
    /// The list ends, but stores are blocked.
    #[error("the steps end before stores are allowed again")]
    EndsBlocked,
    /// The list ends, but no step has released the source's pages.
    #[error("the steps end before the source's pages are released")]
    EndsUnreleased,
}
