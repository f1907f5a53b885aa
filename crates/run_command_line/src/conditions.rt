//! The conditions of a verdict: `--never`, `--always` and `--exists`.
ghost use Rattle.std.specs.Prelude.{◌≡◌, ◌≤◌, length, map, option_map};
ghost use Rattle.clap.specs.Words.{found_of, rows_of};
ghost use Rattle.run_command_line.specs.Conditions.{conditions_of, has_condition, texts_of};
ghost use Rattle.run_command_line.specs.CommandLine.{conditions_in, texts_in};

use crate::Texts;
use crate::options::{ALWAYS, EXISTS, NEVER};
use crate::texts::MOST_TEXTS;
use clap::ArgMatches;

/// The conditions of a verdict on the outcomes of a job, as texts.
#[derive(Clone, Copy)]
pub struct Conditions<'a> {
    /// The conditions that no outcome may match.
    pub never: Texts<'a>,
    /// The conditions that each outcome must match.
    pub always: Texts<'a>,
    /// The conditions that some outcome must match.
    pub exists: Texts<'a>,
}

impl Conditions<'_> {
    /// Whether a condition is given.
    pub(crate) fn has_condition(&self) -> bool
        ensures { result ≡ has_condition (conditions_of self.now) }
    {
        !self.never.as_slice().is_empty()
            || !self.always.as_slice().is_empty()
            || !self.exists.as_slice().is_empty()
    }
}

/// Returns the conditions that are given. Returns `None` if an option is given more than ten times.
pub(crate) fn given_conditions<'a>(matches: &ArgMatches<'a>) -> Option<Conditions<'a>>
    ensures { option_map conditions_of result ≡ conditions_in (rows_of (found_of matches.now)) }
{
    let never = texts(matches, NEVER)?;
    let always = texts(matches, ALWAYS)?;
    let exists = texts(matches, EXISTS)?;
    Some(Conditions {
        never,
        always,
        exists,
    })
}

/// Returns the texts of an option. Returns `None` if the option is given more than ten times.
pub(crate) fn texts<'a>(matches: &ArgMatches<'a>, name: &str) -> Option<Texts<'a>>
    ensures { option_map texts_of result ≡ texts_in name.now (rows_of (found_of matches.now)) }
{
    let Some(texts) = matches.get_strs(name) else {
        return Some(Texts::none());
    };
    if MOST_TEXTS < texts.len() {
        return None;
    }
    Some(texts_among(texts))
}

/// Returns a list of these texts.
fn texts_among<'a>(texts: &[&'a str]) -> Texts<'a>
    requires { length texts.now ≤ 10 }
    ensures { texts_of result ≡ map (λ text. text.now) texts.now }
{
    let mut list = Texts::none();
    let mut rest = texts;
    while let [text, behind @ ..] = rest {
        list.add(text);
        rest = behind;
    }
    list
}
