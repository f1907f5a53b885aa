//! The program's report on meshes that are made by a list of steps.
ghost use Rattle.std.specs.Prelude.{◌≡◌, ◌+◌, ◌-◌, ◌≤◌, ◌++◌, [], false, IfErr, IfOk, OnOk, is_some, length, map, slice_index_or};
ghost use Rattle.model_jobs.specs.Texts.{ended};
ghost use Rattle.otherwise_report.specs.Runs.{is_picture};
ghost use Rattle.run_program.specs.Runs.{HasTold, IsSound};
ghost use Rattle.run_program.specs.Steps.{EndsSteps, HasFailedSteps, HasReportedBy, HasStoppedSteps, list_fault_text, list_text, pair_asked, steps_status, steps_text, word_shown, word_text};
ghost use Rattle.text_fields.specs.Lines.{line_fields};

use crate::fault_line::{line_of, number_line};
use crate::runs::{status_of, tell};
use crate::{Devices, ExploreArgs, MeshPair, StepsArgs};
use arrayvec::ArrayVec;
use explore_otherwise::Pair;
use itoa::Buffer;
use otherwise_report::{Form, ListFault, PictureOptions, StepsError, StepsOptions, explore_steps};
use run_command_line::status::{DONE, FAULTY, NEGATIVE, UNDECIDED};
use states_reach::Watch;
use std::alloc::{AllocError, Global};
use text_devices::{Sink, Source};
use text_fields::lines::cut;

/// The list of the steps of the heap's own meshes.
const RIGHT_STEPS: &str = "protect copy remap unprotect release";

/// The greatest number of bytes of a word that a fault shows.
const SHOWN_BYTES: usize = 40;

/// The bytes of a line about a list of steps, with room for the longest.
type WordLine = ArrayVec<u8, 128>;

/// Explores the job in the input with meshes that are made by the list of steps that is asked for, writes the report or
/// the picture that is asked for to the output or a fault to `errors`, and returns the exit status.
pub(crate) fn steps_run<I: Source, O: Sink, E: Sink, W: Watch>(
    alloc: Global,
    args: &ExploreArgs<'_>,
    asked: &StepsArgs<'_>,
    devices: &mut Devices<I, O, E>,
    watch: &mut W,
) -> u8
    requires { IsSound devices.old }
    ensures { EndsSteps args.now asked.now devices.old devices.new result }
{
    match write_report(
        alloc,
        args,
        asked,
        &mut devices.input,
        &mut devices.output,
        watch,
    ) {
        Ok(true) => DONE,
        Ok(false) => NEGATIVE,
        Err(error) => {
            tell_stopped(&mut devices.errors, error, list_of(asked), args.states);
            steps_status_of(error)
        }
    }
}

/// Writes the report, and returns whether nothing is wrong and each mesh that must begin does so. If a picture is asked
/// for, writes it instead, and returns true.
fn write_report<I: Source, O: Sink, W: Watch>(
    alloc: Global,
    args: &ExploreArgs<'_>,
    asked: &StepsArgs<'_>,
    input: &mut I,
    output: &mut O,
    watch: &mut W,
) -> Result<bool, StepsError>
    requires input { I.has_failed input.old ≡ false }
    requires output { O.has_failed output.old ≡ false }
    ensures ok { OnOk result ((I.has_failed input.new ≡ false) × (O.has_failed output.new ≡ false)) }
    ensures reported { IfOk result (λ well. HasReportedBy args.now asked.now well
        (I.remaining input.old) (I.remaining input.new) (O.written output.old) (O.written output.new)) }
    ensures stopped { IfErr result (HasStoppedSteps args.now asked.now
        (I.remaining input.old) (I.remaining input.new) (O.written output.old) (O.written output.new)) }
    ensures failed { IfErr result (HasFailedSteps (I.has_failed input.new) (O.has_failed output.new)) }
{
    let meshes = pairs_of(alloc, args.meshes.as_slice())?;
    let options = StepsOptions {
        steps: list_of(asked),
        meshes: meshes.as_slice(),
        commands: asked.commands,
        timing: asked.timing,
        states: args.states,
        must_begin: !args.allows_no_mesh,
        form: form_of(asked),
    };
    explore_steps(alloc, input, output, &options, watch)
}

/// Returns the pairs of groups as an exploration with a list of steps has them.
fn pairs_of(alloc: Global, meshes: &[MeshPair]) -> Result<Vec<Pair>, AllocError>
    ensures { IfOk result (λ pairs. pairs.items ≡ map pair_asked meshes.now) }
{
    let mut pairs = Vec::new(alloc);
    for mesh in meshes {
        pairs.push(Pair {
            source: mesh.source,
            destination: mesh.destination,
        })?;
    }
    Ok(pairs)
}

/// Returns what is asked for: a report, or a picture whose title is the list of steps.
fn form_of<'a>(asked: &StepsArgs<'a>) -> Form<'a>
    ensures { is_picture result ≡ is_some asked.now.picture }
{
    match asked.picture {
        Some(columns) => Form::Picture(PictureOptions {
            title: title_of(asked),
            columns,
        }),
        None => Form::Report,
    }
}

/// Returns the text of the list of steps that is asked for.
fn list_of<'a>(asked: &StepsArgs<'a>) -> &'a [u8]
    ensures { result.now ≡ list_text asked.now }
{
    title_of(asked).as_bytes()
}

/// Returns the list of steps that is asked for.
fn title_of<'a>(asked: &StepsArgs<'a>) -> &'a str
    ensures { result.now ≡ list_text asked.now }
{
    match asked.list {
        Some(list) => list,
        None => RIGHT_STEPS,
    }
}

/// Writes the line of an error of an exploration with this list of steps and at most this number of states.
fn tell_stopped<E: Sink>(errors: &mut E, error: StepsError, list: &[u8], states: u32)
    ensures { HasTold (E.has_failed errors.new) (E.written errors.old) (E.written errors.new)
        (ended (steps_text list.now states error)) }
{
    match error {
        StepsError::Replay(error) => tell(errors, line_of(error).as_slice()),
        StepsError::TooManyStates => {
            let behind = b"; --states raises the limit";
            let line = number_line(b"too many states: more than ", states, behind);
            tell(errors, line.as_slice());
        }
        StepsError::Steps(fault) => tell(errors, list_fault_line(list, fault).as_slice()),
        StepsError::PlanLine(number) => {
            let behind = b": neither an answered run nor a whole mesh";
            tell(
                errors,
                number_line(b"plan line ", number, behind).as_slice(),
            );
        }
        StepsError::NothingWrong => {
            let line = whole_line(b"nothing is wrong: there is no plan to draw");
            tell(errors, line.as_slice());
        }
    }
}

/// The line for a text that is no list of steps, with a line end.
fn list_fault_line(list: &[u8], fault: ListFault) -> WordLine
    ensures { result.items ≡ ended (list_fault_text list.now fault) }
{
    match fault {
        ListFault::WordCount => {
            whole_line(b"--steps: 1 to 12 phases with one space between words")
        }
        ListFault::NoStep(number) => word_line(list, number, b"no step"),
        ListFault::NotJoined(number) => word_line(list, number, b"steps that can't be joined"),
        ListFault::NotByPage(number) => word_line(list, number, b"not made page by page"),
        ListFault::Parenthesis(number) => word_line(list, number, b"parenthesis out of place"),
        ListFault::Unclosed => whole_line(b"--steps: ( without )"),
    }
}

/// A line of these bytes, with a line end.
fn whole_line(bytes: &[u8]) -> WordLine
    requires { length bytes.now ≤ 100 }
    ensures { result.items ≡ ended bytes.now }
{
    let mut line = WordLine::new();
    add(&mut line, bytes);
    add(&mut line, b"\n");
    line
}

/// The line about the word of this number, with a line end.
fn word_line(list: &[u8], number: u32, what: &[u8]) -> WordLine
    requires { length what.now ≤ 26 }
    ensures { result.items ≡ ended (word_text list.now number what.now) }
{
    let mut digits = Buffer::new();
    let mut line = WordLine::new();
    add(&mut line, b"--steps: word ");
    add(&mut line, digits.format(number).as_bytes());
    add(&mut line, b" '");
    add(&mut line, word_shown(list, number));
    add(&mut line, b"': ");
    add(&mut line, what);
    add(&mut line, b"\n");
    line
}

/// Adds bytes; there must be room for them.
fn add(line: &mut WordLine, bytes: &[u8])
    requires { length line.old.items + length bytes.now ≤ 128 }
    ensures { line.new.items ≡ line.old.items ++ bytes.now }
{
    line.try_extend_from_slice(bytes).unwrap();
}

/// Returns the word of a list that has this number, as far as it is shown.
fn word_shown(list: &[u8], number: u32) -> &[u8]
    ensures word { result.now ≡ word_shown list.now number }
    ensures short { length result.now ≤ 40 }
{
    let word = word_of(list, number);
    &word[..word.len().min(SHOWN_BYTES)]
}

/// Returns the word of a list that has this number, counted from 1, or nothing if there are fewer words.
fn word_of(list: &[u8], number: u32) -> &[u8]
    ensures { result.now ≡ slice_index_or (line_fields list.now) (number - 1) [] }
{
    let mut rest = list;
    let mut left = number.saturating_sub(1);
    while left > 0 {
        let Some((_, behind)) = cut(rest, b' ') else {
            return b"";
        };
        rest = behind;
        left -= 1;
    }
    match cut(rest, b' ') {
        Some((word, _)) => word,
        None => rest,
    }
}

/// The exit status of a report that stopped.
fn steps_status_of(error: StepsError) -> u8
    ensures { result ≡ steps_status error }
{
    match error {
        StepsError::Replay(error) => status_of(error),
        StepsError::TooManyStates => UNDECIDED,
        StepsError::Steps(_) | StepsError::PlanLine(_) => FAULTY,
        StepsError::NothingWrong => NEGATIVE,
    }
}
