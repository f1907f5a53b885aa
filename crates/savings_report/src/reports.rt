//! The result of a report.

/// What meshing saves, as a table, as a plot or as comma-separated values.
#[derive(Drop)]
pub struct Report {
    /// The table or the comma-separated values, which end with a line end, or the plot, as an SVG file.
    pub text: Vec<u8>,
    /// The number, counted from 1, of the call for which a heap had too few virtual pages left. In that case the text
    /// shows only the calls before that call. `None` if the text shows all calls.
    pub used_up_at: Option<u32>,
}
