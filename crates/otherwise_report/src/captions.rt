//! The captions of a plan's moves: the words of a move, and its answer.
ghost use Rattle.std.specs.Prelude.{◌≡◌, ◌++◌, OnOk};
ghost use Rattle.explore_otherwise.specs.Settings.{setting_of};
ghost use Rattle.otherwise_report.specs.Captions.{command_words, move_answer, move_words};

use crate::plan_text::{add_asker, add_mesher, add_tried};
use explore_otherwise::{Setting, StateAt};
use std::alloc::{AllocError, Global};
use text_words::add_command;

/// Adds a move in a state: the command, or the name of a mesh's move.
pub(crate) fn add_move_words(
    text: &mut Vec<u8>,
    setting: &Setting<'_>,
    at: &StateAt<'_>,
    number: usize,
) -> Result<(), AllocError>
    requires { at.now.setting ≡ setting_of setting.now }
    ensures { OnOk result (text.new.items ≡ text.old.items ++ move_words (setting_of setting.now) at.now.state number) }
{
    let asks = setting.asking.count();
    if number < asks {
        add_command_words(text, setting, at, number)
    } else {
        add_mesher(text, setting, at, number - asks)
    }
}

/// Adds the command of a move, and who gives it.
fn add_command_words(
    text: &mut Vec<u8>,
    setting: &Setting<'_>,
    at: &StateAt<'_>,
    number: usize,
) -> Result<(), AllocError>
    requires { at.now.setting ≡ setting_of setting.now }
    ensures { OnOk result
        (text.new.items ≡ text.old.items ++ command_words (setting_of setting.now) at.now.state number) }
{
    add_asker(text, &setting.asking, number)?;
    text.extend_from_slice(b": ")?;
    match at.command(number) {
        Some(command) => add_command(text, &command),
        None => Ok(()),
    }
}

/// Adds what becomes of a move: the answer to the command, or that a mesh has made the move.
pub(crate) fn add_move_answer(
    alloc: Global,
    text: &mut Vec<u8>,
    setting: &Setting<'_>,
    at: &StateAt<'_>,
    number: usize,
) -> Result<(), AllocError>
    requires { at.now.setting ≡ setting_of setting.now }
    ensures { OnOk result
        (text.new.items ≡ text.old.items ++ move_answer (setting_of setting.now) at.now.state number) }
{
    if setting.asking.count() <= number {
        return text.extend_from_slice(b"done");
    }
    match at.tried(alloc, number)? {
        Some(tried) => add_tried(text, &tried),
        None => Ok(()),
    }
}
