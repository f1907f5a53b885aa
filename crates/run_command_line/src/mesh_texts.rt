//! The meshes of `--mesh`.
ghost use Rattle.std.specs.Prelude.{◌≡◌, ◌≤◌, IfSome, find, length, map, option_map};
ghost use Rattle.clap.specs.Words.{found_of, rows_of};
ghost use Rattle.run_command_line.specs.Meshes.{pairs_of};
ghost use Rattle.run_command_line.specs.CommandLine.{group_of, is_no_pair, meshes_in, pair_of, pairs_in};

use crate::Meshes;
use crate::meshes::MOST_MESHES;
use crate::options::MESH;
use crate::values::{BETWEEN, spelt_number};
use clap::ArgMatches;
use explore_interleavings::MeshPair;

/// The greatest number of a group in an option.
const LAST_GROUP: u64 = 65535;

/// Returns the meshes that are given: one to ten pairs of groups. Returns `None` if there are none or more than ten, or
/// if one can't be read.
pub(crate) fn meshes<'a>(matches: &ArgMatches<'a>) -> Option<Meshes>
    ensures value { option_map pairs_of result ≡ meshes_in (rows_of (found_of matches.now)) }
    ensures some { IfSome result (λ meshes. 1 ≤ meshes.count) }
{
    let texts = matches.get_strs(MESH)?;
    if texts.is_empty() || MOST_MESHES < texts.len() {
        return None;
    }
    pairs(texts)
}

/// Returns the pairs of groups with these texts, or `None` if one of the texts is no pair of groups.
fn pairs(texts: &[&str]) -> Option<Meshes>
    requires { length texts.now ≤ 10 }
    ensures pairs { option_map pairs_of result ≡ pairs_in (map (λ text. text.now) texts.now) }
    ensures all { IfSome result (λ meshes. meshes.count ≡ length texts.now) }
{
    let mut meshes = Meshes::none();
    let mut rest = texts;
    while let [text, behind @ ..] = rest {
        meshes.add(pair(text)?);
        rest = behind;
    }
    Some(meshes)
}

/// Returns the first of these texts that is no pair of groups, or `None` if each is a pair of groups.
pub(crate) fn first_unread<'t>(texts: &[&'t str]) -> Option<&'t str>
    ensures { option_map (λ text. text.now) result ≡ find is_no_pair (map (λ text. text.now) texts.now) }
{
    let mut rest = texts;
    while let [text, behind @ ..] = rest {
        if pair(text).is_none() {
            return Some(text);
        }
        rest = behind;
    }
    None
}

/// Returns the pair of groups in a text: two numbers with a colon between them. Returns `None` if the text has another
/// form.
pub(crate) fn pair(text: &str) -> Option<MeshPair>
    ensures { result ≡ pair_of text.now }
{
    let (source, behind) = text.split_once(BETWEEN)?;
    Some(MeshPair {
        source: group(source)?,
        destination: group(behind)?,
    })
}

/// Reads the number of a group, 0 to 65535, in the form of a number option of `clap`. Returns `None` if the text is no
/// such number.
fn group(text: &str) -> Option<u32>
    ensures { result ≡ group_of text.now }
{
    spelt_number(text, 0, LAST_GROUP)
}
