//! The text of the moves that lead to a state.
ghost use Rattle.std.specs.Prelude.{◌≡◌, ℕ, ◌+◌, ◌-◌, ◌++◌, ◌∷◌, Bool, OnOk, codes, length, map, slice_get};
ghost use Rattle.std.specs.List.{flat_map};
ghost use Rattle.model_jobs.specs.Texts.{field};
ghost use Rattle.model_otherwise.specs.States.{asked, tried_at};
ghost use Rattle.model_words.specs.Commands.{IsInRange};
ghost use Rattle.explore_otherwise.specs.Settings.{asking_of, pair_of, setting_of};
ghost use Rattle.explore_otherwise.specs.Stages.{stage_of};
ghost use Rattle.otherwise_report.specs.PlanTexts.{asker_text, attempt_text, mesher_text, move_line, move_name, move_text, pair_text, plan_text, stage_text, text_if, tried_text, words_of};
ghost use Rattle.otherwise_report.specs.StepWords.{step_name};

use crate::step_words::name_of;
use explore_otherwise::{
    Asking, Explorer, Pair, Phase, Setting, Stage, StateAt, move_count, number_on,
};
use explore_pages::Mesh;
use model_otherwise::{Step, Tried};
use states_reach::{Origin, Reached};
use std::alloc::{AllocError, Global};
use text_words::{add_address, add_command, add_decimal, add_reply};

/// Adds a line for each of these moves.
pub(crate) fn add_plan(
    alloc: Global,
    text: &mut Vec<u8>,
    setting: &Setting<'_>,
    reached: &Reached<Explorer<'_>>,
    moves: &[Origin],
) -> Result<(), AllocError>
    requires { reached.now.system.setting ≡ setting_of setting.now }
    ensures { OnOk result (text.new.items
        ≡ text.old.items ++ plan_text (setting_of setting.now) reached.now.system.states moves.now) }
{
    for origin in moves {
        add_move_line(alloc, text, setting, reached, *origin)?;
    }
    Ok(())
}

/// Adds the line of a move.
pub(crate) fn add_move_line(
    alloc: Global,
    text: &mut Vec<u8>,
    setting: &Setting<'_>,
    reached: &Reached<Explorer<'_>>,
    origin: Origin,
) -> Result<(), AllocError>
    requires { reached.now.system.setting ≡ setting_of setting.now }
    ensures { OnOk result (text.new.items
        ≡ text.old.items ++ move_line (setting_of setting.now) reached.now.system.states origin) }
{
    text.extend_from_slice(b"    ")?;
    if let Some(at) = reached.system.at(origin.state as usize) {
        add_move(alloc, text, setting, &at, origin.number as usize)?;
    }
    text.extend_from_slice(b"\n")
}

/// Adds a move in a state.
fn add_move(
    alloc: Global,
    text: &mut Vec<u8>,
    setting: &Setting<'_>,
    at: &StateAt<'_>,
    number: usize,
) -> Result<(), AllocError>
    requires { at.now.setting ≡ setting_of setting.now }
    ensures { OnOk result (text.new.items ≡ text.old.items ++ move_text (setting_of setting.now) at.now.state number) }
{
    let asks = setting.asking.count();
    if number < asks {
        add_attempt(alloc, text, setting, at, number)
    } else {
        add_mesher(text, setting, at, number - asks)
    }
}

/// Adds the command of a move, and what becomes of it.
pub(crate) fn add_attempt(
    alloc: Global,
    text: &mut Vec<u8>,
    setting: &Setting<'_>,
    at: &StateAt<'_>,
    number: usize,
) -> Result<(), AllocError>
    requires { at.now.setting ≡ setting_of setting.now }
    ensures { OnOk result (text.new.items
        ≡ text.old.items ++ attempt_text (setting_of setting.now) at.now.state number) }
{
    add_asker(text, &setting.asking, number)?;
    text.extend_from_slice(b": ")?;
    if let Some(command) = at.command(number) {
        add_command(text, &command)?;
    }
    text.extend_from_slice(b" -> ")?;
    match at.tried(alloc, number)? {
        Some(tried) => add_tried(text, &tried),
        None => Ok(()),
    }
}

/// Adds who gives the command of a move.
pub(crate) fn add_asker(
    text: &mut Vec<u8>,
    asking: &Asking<'_>,
    number: usize,
) -> Result<(), AllocError>
    ensures { OnOk result (text.new.items ≡ text.old.items ++ asker_text (asking_of asking.now) number) }
{
    match asking {
        Asking::Scripts(_) => {
            text.extend_from_slice(b"worker ")?;
            add_decimal(text, number as u64)
        }
        Asking::Client(_) => text.extend_from_slice(b"client"),
    }
}

/// Adds what becomes of a command.
pub(crate) fn add_tried(text: &mut Vec<u8>, tried: &Tried) -> Result<(), AllocError>
    ensures { OnOk result (text.new.items ≡ text.old.items ++ tried_text tried.now) }
{
    match tried {
        Tried::Answered(reply) | Tried::Ended(reply) => add_reply(text, reply),
        Tried::Begun => text.extend_from_slice(b"begins"),
        Tried::Held => text.extend_from_slice(b"blocked"),
        Tried::Waits => text.extend_from_slice(b"waits"),
        Tried::NoPage => text.extend_from_slice(b"no page"),
        Tried::Wrong(got, _) => add_reply(text, got),
        Tried::Overlaps(address) => {
            text.extend_from_slice(b"at ")?;
            add_address(text, u64::from(*address))
        }
        Tried::GroupGone(group) => {
            text.extend_from_slice(b"group ")?;
            add_decimal(text, u64::from(*group))?;
            text.extend_from_slice(b" is gone")
        }
    }
}

/// Adds the next move of a mesher.
pub(crate) fn add_mesher(
    text: &mut Vec<u8>,
    setting: &Setting<'_>,
    at: &StateAt<'_>,
    mesher: usize,
) -> Result<(), AllocError>
    ensures { OnOk result (text.new.items
        ≡ text.old.items ++ mesher_text (setting_of setting.now) at.now.state mesher) }
{
    if let Some(pair) = setting.pairs.get(mesher) {
        add_pair(text, *pair)?;
    }
    text.push(b' ')?;
    match at.stages().of(mesher) {
        Some(stage) => add_stage(text, setting.phases, stage),
        None => Ok(()),
    }
}

/// Adds the two groups of a mesh.
pub(crate) fn add_pair(text: &mut Vec<u8>, pair: Pair) -> Result<(), AllocError>
    ensures { OnOk result (text.new.items ≡ text.old.items ++ pair_text (pair_of pair)) }
{
    text.extend_from_slice(b"mesh ")?;
    add_decimal(text, u64::from(pair.source))?;
    text.push(b':')?;
    add_decimal(text, u64::from(pair.destination))
}

/// Adds the next move of a mesher at this stage.
fn add_stage(text: &mut Vec<u8>, phases: &[Phase], stage: &Stage) -> Result<(), AllocError>
    ensures { OnOk result (text.new.items ≡ text.old.items ++ stage_text phases.now (stage_of stage.now)) }
{
    match stage {
        Stage::Before => text.extend_from_slice(b"begin"),
        Stage::Running(mesh) => add_move_name(text, phases, mesh),
        Stage::Refused | Stage::Over => Ok(()),
    }
}

/// Adds the name of the next move of a mesh.
fn add_move_name(text: &mut Vec<u8>, phases: &[Phase], mesh: &Mesh) -> Result<(), AllocError>
    ensures { OnOk result (text.new.items
        ≡ text.old.items ++ move_name phases.now mesh.now.class (length mesh.now.members) mesh.now.made) }
{
    let members = mesh.members.len();
    let mut left = mesh.made;
    for phase in phases {
        let count = move_count(mesh.class, members, phase)?;
        if left < count {
            let number = number_on(mesh.class.pages(), phase.page, left)?;
            add_words(text, phase.steps.as_slice())?;
            text.push(b' ')?;
            return add_decimal(text, u64::from(number) + 1);
        }
        left -= count;
    }
    Ok(())
}

/// Adds the names of steps that are made together, with `+` between them.
fn add_words(text: &mut Vec<u8>, steps: &[Step]) -> Result<(), AllocError>
    ensures { OnOk result (text.new.items ≡ text.old.items ++ words_of steps.now) }
{
    match steps {
        [first, others @ ..] => {
            text.extend_from_slice(name_of(*first))?;
            add_others(text, others)
        }
        _ => Ok(()),
    }
}

/// Adds the names of steps, each behind a `+`.
fn add_others(text: &mut Vec<u8>, steps: &[Step]) -> Result<(), AllocError>
    ensures { OnOk result (text.new.items
        ≡ text.old.items ++ flat_map (λ other. 43 ∷ step_name other) steps.now) }
{
    for step in steps {
        text.push(b'+')?;
        text.extend_from_slice(name_of(*step))?;
    }
    Ok(())
}
