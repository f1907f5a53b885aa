//! How commands are made, and what of it happens in no interleaving.
ghost use Rattle.std.specs.Prelude.{◌≡◌, ◌++◌, IfOk, OnOk, Some, is_some, slice_get};
ghost use Rattle.std.specs.List.{list_any, range_with_len};
ghost use Rattle.explore_otherwise.specs.Fences.{waits_at_fence};
ghost use Rattle.explore_otherwise.specs.Settings.{setting_of};
ghost use Rattle.model_otherwise.specs.Moves.{is_fence};
ghost use Rattle.model_otherwise.specs.States.{State};
ghost use Rattle.otherwise_report.specs.Timings.{are_begun, between_text, fence_text, has_fence, has_waiting, is_waiting, making_text, timing_text};

use explore_otherwise::{Explorer, Phase, Setting, StateAt};
use explore_pages::is_plain;
use model_otherwise::{Making, Step, Timing};
use states_reach::Reached;
use std::alloc::{AllocError, Global};

/// Adds a line for each kind of commands of which each is made in two moves.
pub(crate) fn add_timing(text: &mut Vec<u8>, timing: Timing) -> Result<(), AllocError>
    ensures { OnOk result (text.new.items ≡ text.old.items ++ timing_text timing) }
{
    add_making(text, b"store", timing.stores)?;
    add_making(text, b"load", timing.loads)?;
    add_making(text, b"free", timing.frees)
}

/// Adds the line on a kind of commands, unless each of them is one move.
fn add_making(text: &mut Vec<u8>, name: &[u8], making: Making) -> Result<(), AllocError>
    ensures { OnOk result (text.new.items ≡ text.old.items ++ making_text name.now making) }
{
    match making {
        Making::Whole => Ok(()),
        Making::Split => add_line(text, name, b" split\n"),
        Making::Stale => add_line(text, name, b" stale\n"),
    }
}

/// Adds a name, and what is behind it.
fn add_line(text: &mut Vec<u8>, name: &[u8], behind: &[u8]) -> Result<(), AllocError>
    ensures { OnOk result (text.new.items ≡ text.old.items ++ name.now ++ behind.now) }
{
    text.extend_from_slice(name)?;
    text.extend_from_slice(behind)
}

/// Adds a line if commands may be made in two moves, and none is between its moves in a reached state.
pub(crate) fn add_between(
    text: &mut Vec<u8>,
    timing: Timing,
    reached: &Reached<Explorer<'_>>,
) -> Result<(), AllocError>
    ensures { OnOk result (text.new.items ≡ text.old.items ++ between_text timing reached.now.system.states) }
{
    if is_plain(timing) || are_begun(reached) {
        return Ok(());
    }
    text.extend_from_slice(b"no interleaving has a command between its moves\n")
}

/// Whether a command is between its moves in one of the reached states.
fn are_begun(reached: &Reached<Explorer<'_>>) -> bool
    ensures { result ≡ are_begun reached.now.system.states }
{
    for place in 0..reached.system.len() {
        if is_begun_at(reached, place) {
            return true;
        }
    }
    false
}

/// Whether a command is between its moves in the state at a place.
fn is_begun_at(reached: &Reached<Explorer<'_>>, place: usize) -> bool
    ensures { (s : State) → slice_get reached.now.system.states place ≡ Some s → result ≡ is_some s.heap.flight }
{
    match reached.system.at(place) {
        Some(at) => at.heap().flight.is_some(),
        None => false,
    }
}

/// Adds a line if the list has a fence, and no mesh waits at one in a reached state. Also returns an error if the
/// number of a mesh's moves needs more than 32 bits.
pub(crate) fn add_fences(
    alloc: Global,
    text: &mut Vec<u8>,
    setting: &Setting<'_>,
    reached: &Reached<Explorer<'_>>,
) -> Result<(), AllocError>
    requires { reached.now.system.setting ≡ setting_of setting.now }
    ensures { OnOk result
        (text.new.items ≡ text.old.items ++ fence_text (setting_of setting.now) reached.now.system.states) }
{
    if !has_fence(setting.phases) || has_waiting(alloc, reached, setting.pairs.len())? {
        return Ok(());
    }
    text.extend_from_slice(b"no interleaving has a mesh wait at a fence\n")
}

/// Whether one of the steps is a fence.
fn has_fence(phases: &[Phase]) -> bool
    ensures { result ≡ has_fence phases.now }
{
    phases.iter().any(|phase| phase_has_fence(phase))
}

/// Whether one of the steps of a phase is a fence.
fn phase_has_fence(phase: &Phase) -> bool
    ensures { result ≡ list_any is_fence phase.now.steps }
{
    phase.steps.as_slice().iter().any(|step| is_fence(*step))
}

/// Whether the step is a fence.
fn is_fence(step: Step) -> bool
    ensures { result ≡ is_fence step }
{
    matches!(step, Step::Fence)
}

/// Whether one of the first `meshers` meshes waits at a fence in one of the reached states. Also returns an error if
/// the number of a mesh's moves needs more than 32 bits.
fn has_waiting(
    alloc: Global,
    reached: &Reached<Explorer<'_>>,
    meshers: usize,
) -> Result<bool, AllocError>
    ensures { IfOk result (λ waits. waits ≡ has_waiting reached.now.system.setting meshers reached.now.system.states) }
{
    for place in 0..reached.system.len() {
        if is_waiting_at(alloc, reached, meshers, place)? {
            return Ok(true);
        }
    }
    Ok(false)
}

/// Whether one of the first `meshers` meshes waits at a fence in the state at a place. Also returns an error if the
/// number of a mesh's moves needs more than 32 bits.
fn is_waiting_at(
    alloc: Global,
    reached: &Reached<Explorer<'_>>,
    meshers: usize,
    place: usize,
) -> Result<bool, AllocError>
    ensures { IfOk result (λ waits. (s : State) → slice_get reached.now.system.states place ≡ Some s
        → waits ≡ is_waiting reached.now.system.setting meshers s) }
{
    match reached.system.at(place) {
        Some(at) => is_waiting(alloc, &at, meshers),
        None => Ok(false),
    }
}

/// Whether one of the first `meshers` meshes waits at a fence in a state. Also returns an error if the number of a
/// mesh's moves needs more than 32 bits.
fn is_waiting(alloc: Global, at: &StateAt<'_>, meshers: usize) -> Result<bool, AllocError>
    ensures { IfOk result (λ waits. waits ≡ is_waiting at.now.setting meshers at.now.state) }
{
    for mesher in 0..meshers {
        if at.waits_at_fence(alloc, mesher)? {
            return Ok(true);
        }
    }
    Ok(false)
}
