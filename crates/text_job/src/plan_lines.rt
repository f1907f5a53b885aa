//! The lines of a plan: the fields of each line, from left to right.
ghost use Rattle.std.specs.Prelude.{◌≡◌, ◌≤◌, ◌↔◌, ℕ, false, true, codes, Ok, Err, IfOk, IfErr, IsTrue, IsSome};
ghost use Rattle.model_words.specs.Classes.{row_of};
ghost use Rattle.model_jobs.specs.JobFiles.{are_same, class_in, groups_in, line_in, of_class_in, of_groups_in, of_mesh_in, pair_in, run_in, sweep_in, words_in};
ghost use Rattle.model_jobs.specs.Jobs.{Line, BeginMesh, CancelMesh, CancelClass, StepMesh, StepClass, WholeMesh};
ghost use Rattle.text_fields.specs.Lines.{texts};
ghost use Rattle.text_job.specs.Plan.{line_of, line_of_mesh, read_line, search_in};
ghost use Rattle.text_job.specs.Reading.{IsFaultOfStep};
ghost use Rattle.text_job.specs.declared.faults.LineError.{LineError};

use crate::faults::LineError;
use crate::{PlanLine, Search};
use mesh_class::{Class, class_of};
use model_words::{FaultKind, Version};
use std::alloc::Global;
use text_fields::lines::{is_word, no_field, one_field, two_fields};
use text_fields::numbers::{number, number32};

/// The greatest number of a group.
const MAX_GROUP: u32 = 65_535;

/// The greatest number of rounds of a search.
const MAX_ROUNDS: u32 = 64;

/// The greatest number of words of a search.
const MAX_WORDS: usize = 32;

/// Reads the line of a plan with this word and these fields, in a job of `workers` workers.
///
/// The error is one of the following:
///
/// - WORD, if the version has no line with this word, or if the number of fields is wrong. A `pair` has at most 32
///   words.
/// - NUMBER, if a field is misspelt or out of its range. A worker's number is below `workers`, and a group's number is
///   at most 65,535. A class is named by its size. A search has at most 64 rounds.
/// - `Memory`, if an allocation for the search of a `pair` fails.
pub fn plan_line(
    alloc: Global,
    version: Version,
    workers: u32,
    word: &[u8],
    fields: &[&[u8]],
) -> Result<PlanLine, LineError>
    requires { 1 ≤ workers }
    ensures ok { IfOk result (λ line. line_in version workers word.now (texts fields.now) ≡ Ok (line_of line)) }
    ensures err { IfErr result (IsFaultOfStep (line_in version workers word.now (texts fields.now))) }
    ensures memory { result ≡ Err LineError.Memory → are_same word.now (codes "pair") ≡ true }
{
    if is_word(word, b"pair") {
        return pair_of(alloc, fields);
    }
    let line = short_line(version, workers, word, fields)?;
    Ok(line)
}

/// Does the same as `plan_line`, for each line except a `pair`. The argument `word` must not be `pair`.
fn short_line(
    version: Version,
    workers: u32,
    word: &[u8],
    fields: &[&[u8]],
) -> Result<PlanLine, FaultKind>
    requires workers { 1 ≤ workers }
    requires word { are_same word.now (codes "pair") ≡ false }
    ensures { read_line result ≡ line_in version workers word.now (texts fields.now) }
{
    if is_word(word, b"run") {
        run_of(workers, fields)
    } else if is_word(word, b"begin") {
        let (source, destination) = groups_of(fields)?;
        Ok(PlanLine::Begin {
            source,
            destination,
        })
    } else if is_word(word, b"step") {
        step_of(version, fields)
    } else if is_word(word, b"cancel") {
        cancel_of(version, fields)
    } else if is_word(word, b"whole") {
        let (source, destination) = groups_of(fields)?;
        Ok(PlanLine::Whole {
            source,
            destination,
        })
    } else if is_word(word, b"sweep") {
        sweep_of(fields)
    } else if is_word(word, b"report") {
        no_field(fields)?;
        Ok(PlanLine::Report)
    } else {
        Err(FaultKind::Word)
    }
}

/// `run W`
fn run_of(workers: u32, fields: &[&[u8]]) -> Result<PlanLine, FaultKind>
    requires { 1 ≤ workers }
    ensures { read_line result ≡ run_in workers (texts fields.now) }
{
    let worker = one_field(fields)?;
    let worker = number32(worker, 0, workers - 1)?;
    Ok(PlanLine::Run(worker))
}

/// Reads `SRC DST`, the two groups of a mesh.
fn groups_of(fields: &[&[u8]]) -> Result<(u32, u32), FaultKind>
    ensures { result ≡ groups_in (texts fields.now) }
{
    let (source, destination) = two_fields(fields)?;
    let source = number32(source, 0, MAX_GROUP)?;
    let destination = number32(destination, 0, MAX_GROUP)?;
    Ok((source, destination))
}

/// `sweep GROUP`
fn sweep_of(fields: &[&[u8]]) -> Result<PlanLine, FaultKind>
    ensures { read_line result ≡ sweep_in (texts fields.now) }
{
    let group = one_field(fields)?;
    let group = number32(group, 0, MAX_GROUP)?;
    Ok(PlanLine::Sweep(group))
}

/// `step` in version 1, and `step CLASS` in version 2.
fn step_of(version: Version, fields: &[&[u8]]) -> Result<PlanLine, FaultKind>
    ensures { read_line result ≡ of_mesh_in version StepMesh StepClass (texts fields.now) }
{
    Ok(mesh_class(version, fields)?.map_or(PlanLine::Step, PlanLine::StepClass))
}

/// `cancel` in version 1, and `cancel CLASS` in version 2.
fn cancel_of(version: Version, fields: &[&[u8]]) -> Result<PlanLine, FaultKind>
    ensures { read_line result ≡ of_mesh_in version CancelMesh CancelClass (texts fields.now) }
{
    Ok(mesh_class(version, fields)?.map_or(PlanLine::Cancel, PlanLine::CancelClass))
}

/// Returns the class that a `step` or `cancel` line names in its one field in version 2. Returns `None` in version 1,
/// in which the line has no field. The error is WORD if the number of fields is wrong, and NUMBER if the field isn't
/// the size of a class.
fn mesh_class(version: Version, fields: &[&[u8]]) -> Result<Option<Class>, FaultKind>
    ensures ok { IfOk result
        (λ class. (bare : Line) (line : ℕ → Line)
        → of_mesh_in version bare line (texts fields.now) ≡ Ok (line_of_mesh bare line class)) }
    ensures err { IfErr result
        (λ kind. (bare : Line) (line : ℕ → Line) → of_mesh_in version bare line (texts fields.now) ≡ Err kind) }
{
    match version {
        Version::One => {
            no_field(fields)?;
            Ok(None)
        }
        Version::Two => Ok(Some(class_field(fields)?)),
    }
}

/// Returns the class whose size is the one field of a line. The error is WORD if the number of fields isn't one, and
/// NUMBER if the field isn't the size of a class.
fn class_field(fields: &[&[u8]]) -> Result<Class, FaultKind>
    ensures ok { IfOk result (λ class. (line : ℕ → Line) → of_class_in line (texts fields.now) ≡ Ok (line class)) }
    ensures err { IfErr result (λ kind. (line : ℕ → Line) → of_class_in line (texts fields.now) ≡ Err kind) }
{
    let size = one_field(fields)?;
    class(size)
}

/// `pair CLASS T WORD ..`
fn pair_of(alloc: Global, fields: &[&[u8]]) -> Result<PlanLine, LineError>
    ensures ok { IfOk result (λ line. pair_in (texts fields.now) ≡ Ok (line_of line)) }
    ensures err { IfErr result (IsFaultOfStep (pair_in (texts fields.now))) }
{
    let [size, rounds, words @ ..] = fields else {
        return Err(LineError::Kind(FaultKind::Word));
    };
    if words.len() > MAX_WORDS {
        return Err(LineError::Kind(FaultKind::Word));
    }
    search_of(alloc, *size, *rounds, words)
}

/// Returns the search with these fields: the size of its class, its greatest number of rounds, and its words.
fn search_of(
    alloc: Global,
    size: &[u8],
    rounds: &[u8],
    words: &[&[u8]],
) -> Result<PlanLine, LineError>
    ensures ok { IfOk result (λ line. search_in size.now rounds.now (texts words.now) ≡ Ok (line_of line)) }
    ensures err { IfErr result (IsFaultOfStep (search_in size.now rounds.now (texts words.now))) }
{
    let class = class(size)?;
    let rounds = number32(rounds, 0, MAX_ROUNDS)?;
    let words = search_words(alloc, words)?;
    let search = Search {
        class,
        rounds,
        words,
    };
    let asked = Box::new(alloc, search).map_err(|_| LineError::Memory)?;
    Ok(PlanLine::Pair(asked))
}

/// Returns the class whose size the field spells. The error is NUMBER if the field doesn't spell the size of a class.
fn class(field: &[u8]) -> Result<Class, FaultKind>
    ensures { result ≡ class_in field.now }
{
    let size = number(field, 0, u64::MAX)?;
    if !is_class(size) {
        return Err(FaultKind::Number);
    }
    class_of(size as u32).map_err(|_| FaultKind::Number)
}

/// Whether some class has this size.
pub(crate) fn is_class(size: u64) -> bool
    ensures { IsTrue result ↔ IsSome (row_of size) }
{
    match size {
        16 | 32 | 64 | 128 | 256 | 384 | 512 | 1024 | 1536 | 2048 => true,
        _ => false,
    }
}

/// Reads the words of a search. The error is a fault of the fields, or an allocation failure.
fn search_words(alloc: Global, fields: &[&[u8]]) -> Result<Vec<u64>, LineError>
    ensures ok { IfOk result (λ words. words_in (texts fields.now) ≡ Ok words.items) }
    ensures err { IfErr result (IsFaultOfStep (words_in (texts fields.now))) }
{
    let mut words = Vec::with_capacity(alloc, fields.len())?;
    let mut rest = fields;
    while let [field, behind @ ..] = rest {
        let word = number(*field, 0, u64::MAX)?;
        words.push(word).map_err(|_| LineError::Memory)?;
        rest = behind;
    }
    Ok(words)
}
