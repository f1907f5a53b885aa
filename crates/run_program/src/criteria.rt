//! The criteria for the outcomes of an exploration.
ghost use Rattle.std.specs.Prelude.{◌≡◌, ◌≤◌, length};
ghost use Rattle.std.specs.Option.{option_copied};
ghost use Rattle.run_command_line.specs.Conditions.{conditions_of};
ghost use Rattle.run_program.specs.Criteria.{condition_texts};

use crate::Conditions;

/// The criteria that the outcomes of an exploration should meet, if a verdict is asked for.
#[derive(Clone, Copy)]
pub struct Criteria<'a> {
    /// The text that lists all outcomes, if there is one.
    pub expected: Option<&'a [u8]>,
    /// The texts of the conditions that no outcome may match: at most ten.
    pub never: &'a [&'a str],
    /// The texts of the conditions that each outcome must match: at most ten.
    pub always: &'a [&'a str],
    /// The texts of the conditions that some outcome must match: at most ten.
    pub exists: &'a [&'a str],
}

impl<'a> Criteria<'a> {
    /// Returns the criteria of these conditions, with this text of the expected outcomes.
    pub fn new(expected: Option<&'a [u8]>, conditions: &'a Conditions<'a>) -> Criteria<'a>
        ensures expected { option_copied result.expected ≡ option_copied expected.entry }
        ensures conditions { condition_texts result ≡ conditions_of conditions.now }
        ensures never { length result.never.now ≤ 10 }
        ensures always { length result.always.now ≤ 10 }
        ensures exists { length result.exists.now ≤ 10 }
    {
        Criteria {
            expected,
            never: conditions.never.as_slice(),
            always: conditions.always.as_slice(),
            exists: conditions.exists.as_slice(),
        }
    }
}
