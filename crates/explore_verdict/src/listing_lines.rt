//! The lines of a listing.
ghost use Rattle.std.specs.Prelude.{◌≡◌};
ghost use Rattle.explore_verdict.specs.ListingLines.{is_answer_line, is_command_line, is_end_line, is_free_line, is_outcome_line, is_plan_line, is_worker_line};

/// Whether this is the line of a worker's answers in an outcome.
pub(crate) fn is_worker_line(line: &[u8]) -> bool
    ensures { result ≡ is_worker_line line.now }
{
    line.starts_with(b"  worker ")
}

/// Whether this is the first line of an outcome.
pub(crate) fn is_outcome_line(line: &[u8]) -> bool
    ensures { result ≡ is_outcome_line line.now }
{
    line.starts_with(b"outcome")
}

/// Whether this is the line of an outcome's end.
pub(crate) fn is_end_line(line: &[u8]) -> bool
    ensures { result ≡ is_end_line line.now }
{
    line.starts_with(b"  end:")
}

/// Whether this is the line of an outcome's plan.
pub(crate) fn is_plan_line(line: &[u8]) -> bool
    ensures { result ≡ is_plan_line line.now }
{
    line.starts_with(b"  plan:")
}

/// Whether this is the line of a command.
pub(crate) fn is_command_line(line: &[u8]) -> bool
    ensures { result ≡ is_command_line line.now }
{
    line.starts_with(b"worker ")
}

/// Whether this is the line of an answer to a command: any other line that begins with two spaces.
pub(crate) fn is_answer_line(line: &[u8]) -> bool
    ensures { result ≡ is_answer_line line.now }
{
    line.starts_with(b"  ") && !(is_worker_line(line) || is_end_line(line) || is_plan_line(line))
}

/// Whether this line belongs to neither a command nor an outcome: an empty line, or the one with the counts.
pub(crate) fn is_free_line(line: &[u8]) -> bool
    ensures { result ≡ is_free_line line.now }
{
    line.is_empty() || line.starts_with(b"interleavings ")
}
