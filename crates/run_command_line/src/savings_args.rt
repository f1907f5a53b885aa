//! The arguments of `savings`.
ghost use Rattle.run_command_line.specs.SavingsArgs.{AreInRange};

/// When a round of meshing follows the free of an object of up to 2,048 bytes.
#[derive(Clone, Copy)]
pub enum RoundsAsked {
    /// After this many frees since the last round, 1 or more.
    Every(u32),
    /// After at least 64 frees since the last round, if their number, times this one, is at least the number of live
    /// objects of up to 2,048 bytes. It is 1 to 1000.
    Share(u32),
}

/// The form in which figures are printed.
#[derive(Clone, Copy)]
pub enum FiguresForm {
    /// A table.
    Table,
    /// A plot, as an SVG picture.
    Plot,
    /// The numbers of each interval of the plot, as comma-separated values.
    Csv,
}

/// The arguments of `savings` other than its file. The type guarantees that `members`, `probe`, `from` and `to` are in
/// their ranges.
#[derive(Clone, Copy)]
pub struct SavingsArgs {
    /// When rounds of meshing are made.
    pub rounds: RoundsAsked,
    /// The most members that a mesh may give a group, 1 to 8.
    pub members: u32,
    /// The greatest number of rounds in a split search, 0 to 64.
    pub probe: u32,
    /// The seed of the objects' words. If it is `None`, all words are 0, and each object gets the first free slot.
    pub seed: Option<u64>,
    /// The first call of the history for which figures are printed, counted from 1.
    pub from: u32,
    /// The last call of the history for which figures are printed. It is not before the first.
    pub to: u32,
    /// The form in which the figures are printed.
    pub form: FiguresForm,
    pub ghost ranges: { AreInRange members probe from to },
}
