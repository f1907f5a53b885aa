//! The arguments of `check`.
ghost use Rattle.run_command_line.specs.CheckArgs.{IsInRange};

/// The arguments of `check` other than its file. The type guarantees that `configurations` is in its range.
#[derive(Clone, Copy)]
pub struct CheckArgs {
    /// The greatest number of configurations of an object, 1 or more. It applies to a history of overlapping calls.
    pub configurations: u32,
    /// Whether an order of effects that explains the calls is printed instead of the verdict.
    pub is_ordered: bool,
    /// Whether a witness of a wrong answer is printed instead of the verdict.
    pub is_witnessed: bool,
    pub ghost range: { IsInRange configurations },
}
