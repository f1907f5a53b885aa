//! Finds the meshes that begin in no interleaving.
ghost use Rattle.std.specs.Prelude.{◌≡◌, ◌++◌, IfOk, OnOk};
ghost use Rattle.explore_verdict.specs.Begun.{BegunMeshesAreListed, begins_in, has_begun, is_begun_at, unbegun_at, unbegun_line, unbegun_text};

use explore_interleavings::MeshPair;
use explore_report::{LastStep, PhaseAt};
use std::alloc::{AllocError, Global};
use text_words::add_decimal;

/// Returns a line for each mesh that begins in no interleaving, in the order of the meshers. `phases` are the phases of
/// a listing.
pub fn unbegun_text(
    alloc: Global,
    phases: &[PhaseAt],
    meshes: &[MeshPair],
) -> Result<Vec<u8>, AllocError>
    ensures { IfOk result (λ text. text.items ≡ unbegun_text phases.now meshes.now) }
{
    let mut text = Vec::new(alloc);
    let mut mesher = 0;
    let mut rest = meshes;
    while let [pair, behind @ ..] = rest {
        add_unbegun(&mut text, phases, mesher, *pair)?;
        mesher += 1;
        rest = behind;
    }
    Ok(text)
}

/// Adds the line of a mesh that begins in no interleaving. Adds nothing for another mesh.
fn add_unbegun(
    text: &mut Vec<u8>,
    phases: &[PhaseAt],
    mesher: usize,
    pair: MeshPair,
) -> Result<(), AllocError>
    ensures { OnOk result (text.new.items ≡ text.old.items ++ unbegun_at phases.now mesher pair) }
{
    if begins_in(phases, mesher) {
        return Ok(());
    }
    add_line(text, pair)
}

/// Adds the line of a mesh that never begins.
fn add_line(text: &mut Vec<u8>, pair: MeshPair) -> Result<(), AllocError>
    ensures { OnOk result (text.new.items ≡ text.old.items ++ unbegun_line pair) }
{
    text.extend_from_slice(b"no interleaving begins mesh ")?;
    add_decimal(text, u64::from(pair.source))?;
    text.push(b':')?;
    add_decimal(text, u64::from(pair.destination))?;
    text.push(b'\n')?;
    Ok(())
}

/// Whether the mesh of a mesher has begun in one of the phases.
fn begins_in(phases: &[PhaseAt], mesher: usize) -> bool
    ensures { result ≡ begins_in phases.now mesher }
{
    for at in phases {
        if is_begun_at(mesher, *at) {
            return true;
        }
    }
    false
}

/// Whether this is a phase of the mesher in which its mesh has begun.
fn is_begun_at(mesher: usize, at: PhaseAt) -> bool
    ensures { result ≡ is_begun_at mesher at }
{
    at.mesher == mesher && has_begun(at.phase)
}

/// Whether a mesh in this phase has begun.
fn has_begun(phase: LastStep) -> bool
    ensures { result ≡ has_begun phase }
{
    !matches!(phase, LastStep::Before | LastStep::Refused)
}

/// The phases of a complete listing have a mesh that has begun if and only if some interleaving begins this mesh. This
/// is a law: the contract of a function that does nothing.
pub fn begun_meshes_are_listed()
    ensures { BegunMeshesAreListed }
{}
