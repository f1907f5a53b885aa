//! The options of a report.

use crate::table::Window;
use savings_replay::Settings;

/// How a history is replayed, which of its calls are measured, and how the measurements are shown.
#[derive(Clone, Copy, Debug)]
pub struct SavingsOptions {
    /// The settings of the replay.
    pub settings: Settings,
    /// The calls that are measured.
    pub window: Window,
    /// How the measurements are shown.
    pub form: Form,
}

/// The form of a report.
#[derive(Clone, Copy, Debug, PartialEq, Eq)]
pub enum Form {
    /// The table of what meshing saves.
    Table,
    /// The plot of the pages of both heaps over the calls, as an SVG file.
    Plot,
    /// The numbers of each interval, as comma-separated values.
    Csv,
}
