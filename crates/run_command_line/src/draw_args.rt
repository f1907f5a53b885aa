//! The arguments of `draw`.
ghost use Rattle.run_command_line.specs.DrawArgs.{AreInRange};

/// The arguments of `draw` other than its file. The type guarantees that `from`, `to` and `columns` are in their
/// ranges.
#[derive(Clone, Copy)]
pub struct DrawArgs {
    /// The first line of the plan that is drawn, 1 to 1,048,576.
    pub from: u32,
    /// The last line of the plan that is drawn, 1 to 1,048,576. Lines past the plan's end are ignored.
    pub to: u32,
    /// The number of columns of the picture, 0 to 64. If it is 0, the picture has the greatest number of columns that
    /// fits.
    pub columns: u32,
    pub ghost ranges: { AreInRange from to columns },
}
