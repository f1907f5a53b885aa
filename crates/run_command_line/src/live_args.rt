//! The arguments of `live`.
ghost use Rattle.run_command_line.specs.LiveArgs.{AreFairSizes};

/// The sizes of a live session, as in the header of a job file. The type guarantees that all three are in their ranges.
#[derive(Clone, Copy)]
pub struct LiveArgs {
    /// The number of physical pages of the arena, 1 to 4,096.
    pub pages: u32,
    /// The capacity of the journal, in entries, 0 to 65,536.
    pub history: u32,
    /// The number of workers, 1 to 64.
    pub workers: u32,
    pub ghost ranges: { AreFairSizes pages history workers },
}
