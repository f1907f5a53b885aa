//! The versions of job files.

/// The version of a job file. The version determines the allowed lines, and how many meshes may run at once.
#[derive(Clone, Copy, Debug, PartialEq, Eq)]
pub enum Version {
    /// `mesh 1`: at most one mesh runs, and `step` and `cancel` apply to it.
    One,
    /// `mesh 2`: at most one mesh of each class runs, `step` and `cancel` name the class, and `copy` is allowed.
    Two,
}
