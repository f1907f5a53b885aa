//! The arguments of `threads`.
ghost use Rattle.run_command_line.specs.ThreadsArgs.{AreInRange};

/// The arguments of `threads` other than its file. The type guarantees that `probe`, `rounds`, `workers` and `meshers`
/// are in their ranges.
#[derive(Clone, Copy)]
pub struct ThreadsArgs {
    /// The greatest number of rounds in a split search, 0 to 64.
    pub probe: u32,
    /// The number of times that each mesher searches its classes and meshes the found pairs, 0 to 1,000.
    pub rounds: u32,
    /// The number of threads that run each round of a search, 1 to 16.
    pub workers: u32,
    /// The seed of the words that shuffle the candidates.
    pub seed: u64,
    /// The number of mesher threads, 1 to 10.
    pub meshers: u32,
    pub ghost ranges: { AreInRange probe rounds workers meshers },
}

/// The arguments of `threads` with the pace of the workers.
#[derive(Clone, Copy)]
pub struct PacedArgs {
    /// The arguments other than the pace.
    pub args: ThreadsArgs,
    /// The number of calls behind which a worker waits until a mesher has made a call, 1 to 65,536. `None` if workers
    /// don't wait.
    pub pace: Option<u32>,
}
