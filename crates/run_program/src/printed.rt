//! What a run prints.

/// What a run of scripts in threads prints.
#[derive(Clone, Copy, PartialEq, Eq)]
pub(crate) enum Printed {
    /// The answers of each worker.
    Answers,
    /// The journal, as a recorded history.
    History,
    /// The answers, and behind them what each mesher and each worker did, and the heap's report.
    Report,
}
