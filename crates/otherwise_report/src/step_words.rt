//! The words of steps, and the phase that a word of a list of steps spells.
ghost use Rattle.std.specs.Prelude.{◌≡◌, IfErr, IfOk, Ok, Some, find, map, option_map};
ghost use Rattle.std.specs.List.{list_all};
ghost use Rattle.otherwise_report.specs.Errors.{IsUnspelt};
ghost use Rattle.otherwise_report.specs.StepWords.{are_joined, as_step, bare, is_alike, is_named, is_of_pages, is_release, is_same_limit, option_added, options_added, parts_between, phase_in, phase_of, step_in, step_name, step_named, steps_in, with_dirty, with_limit, with_number, with_once, with_one, with_page};

use crate::errors::StepsError;
use crate::list_fault::ListFault;
use explore_otherwise::Phase;
use model_otherwise::Step;
use std::alloc::{AllocError, Global};
use text_fields::lines::{cut, is_word};
use text_fields::numbers::number32;

/// Each step without options once.
const STEPS: [Step; 11] = [
    Step::Protect,
    Step::Hide,
    Step::Copy,
    Step::Remap,
    Step::Unmap,
    Step::Unprotect,
    Step::Release,
    Step::Merge,
    Step::Open,
    Step::Fence,
    Step::Look,
];

/// A step as a word spells it.
#[derive(Clone, Copy, Debug, PartialEq, Eq)]
pub struct StepWord {
    /// The step.
    pub step: Step,
    /// The greatest number of pages for which the step is made, if there is a limit.
    pub most: Option<u32>,
    /// Whether the step is made for all numbers at once.
    pub is_once: bool,
}

/// Returns the phase that a word spells. The word has this number in its list.
pub(crate) fn phase_in(alloc: Global, number: u32, word: &[u8]) -> Result<Phase, StepsError>
    ensures ok { IfOk result (λ phase. phase_in number word.now ≡ Ok phase) }
    ensures fault { IfErr result (IsUnspelt (phase_in number word.now)) }
{
    let Some(words) = steps_in(alloc, word)? else {
        return Err(StepsError::Steps(ListFault::NoStep(number)));
    };
    phase_of(alloc, number, words.as_slice())
}

/// Returns the steps between the bytes `+` of a word, or `None` if one of the parts is no step.
fn steps_in(alloc: Global, word: &[u8]) -> Result<Option<Vec<StepWord>>, AllocError>
    ensures { IfOk result (λ steps. option_map (λ s. s.items) steps ≡ steps_in (parts_between 43 word.now)) }
{
    let mut steps = Vec::new(alloc);
    let mut rest = word;
    while let Some((part, behind)) = cut(rest, b'+') {
        let Some(step) = step_in(part) else {
            return Ok(None);
        };
        steps.push(step)?;
        rest = behind;
    }
    let Some(step) = step_in(rest) else {
        return Ok(None);
    };
    steps.push(step)?;
    Ok(Some(steps))
}

/// Returns the phase of steps that are made together. Its word has this number.
fn phase_of(alloc: Global, number: u32, words: &[StepWord]) -> Result<Phase, StepsError>
    ensures ok { IfOk result (λ phase. phase_of number (Some words.now) ≡ Ok phase) }
    ensures fault { IfErr result (IsUnspelt (phase_of number (Some words.now))) }
{
    let [first, others @ ..] = words else {
        return Err(StepsError::Steps(ListFault::NoStep(number)));
    };
    if !are_joined(first, others) {
        return Err(StepsError::Steps(ListFault::NotJoined(number)));
    }
    Ok(Phase {
        steps: steps_of(alloc, words)?,
        most: first.most,
        page: None,
        is_once: first.is_once,
    })
}

/// Returns the steps without what is said of each.
fn steps_of(alloc: Global, words: &[StepWord]) -> Result<Vec<Step>, AllocError>
    ensures { IfOk result (λ steps. steps.items ≡ map (λ word. word.step) words.now) }
{
    let mut steps = Vec::new(alloc);
    for word in words {
        steps.push(word.step)?;
    }
    Ok(steps)
}

/// Whether the first step is made together with the others.
fn are_joined(first: &StepWord, others: &[StepWord]) -> bool
    ensures { result ≡ are_joined first.now others.now }
{
    if others.is_empty() {
        return true;
    }
    is_of_pages(first.step) && are_of_pages(others) && are_alike(first, others)
}

/// Whether each step is made for each virtual page of the source.
fn are_of_pages(words: &[StepWord]) -> bool
    ensures { result ≡ list_all (λ word. is_of_pages word.step) words.now }
{
    words.iter().all(|word| is_of_pages(word.step))
}

/// Whether each step is made for the same numbers as the first.
fn are_alike(first: &StepWord, words: &[StepWord]) -> bool
    ensures { result ≡ list_all (is_alike first.now) words.now }
{
    words.iter().all(|word| is_alike(first, word))
}

/// Whether both steps are made for the same numbers.
fn is_alike(first: &StepWord, word: &StepWord) -> bool
    ensures { result ≡ is_alike first.now word.now }
{
    first.is_once == word.is_once && is_same_limit(first.most, word.most)
}

/// Whether both limits are the same.
fn is_same_limit(most: Option<u32>, other: Option<u32>) -> bool
    ensures { result ≡ is_same_limit most other }
{
    match (most, other) {
        (Some(most), Some(other)) => most == other,
        (None, None) => true,
        _ => false,
    }
}

/// Whether the step is made for each virtual page of the source.
pub(crate) fn is_of_pages(step: Step) -> bool
    ensures { result ≡ is_of_pages step }
{
    matches!(
        step,
        Step::Protect | Step::Hide | Step::Remap | Step::Unmap | Step::Unprotect
    )
}

/// Whether the step is a release.
pub(crate) fn is_release(step: Step) -> bool
    ensures { result ≡ is_release step }
{
    matches!(step, Step::Release | Step::ReleaseDirty)
}

/// Returns a step without options.
fn bare(step: Step) -> StepWord
    ensures { result ≡ bare step }
{
    StepWord {
        step,
        most: None,
        is_once: false,
    }
}

/// Returns the step with another kind.
fn as_step(step: Step, word: StepWord) -> StepWord
    ensures { result ≡ as_step step word }
{
    StepWord { step, ..word }
}

/// Returns the step made for all numbers at once, unless it is already.
fn with_once(word: StepWord) -> Option<StepWord>
    ensures { result ≡ with_once word }
{
    if word.is_once {
        return None;
    }
    Some(StepWord {
        is_once: true,
        ..word
    })
}

/// Returns the copy that copies page by page, if the step is a copy of slots.
fn with_page(word: StepWord) -> Option<StepWord>
    ensures { result ≡ with_page word word.step }
{
    match word.step {
        Step::Copy => Some(as_step(Step::CopyPage, word)),
        _ => None,
    }
}

/// Returns the release that keeps the bytes, if the step is a release that doesn't.
fn with_dirty(word: StepWord) -> Option<StepWord>
    ensures { result ≡ with_dirty word word.step }
{
    match word.step {
        Step::Release => Some(as_step(Step::ReleaseDirty, word)),
        _ => None,
    }
}

/// Returns the opening of one group, if the step opens both.
fn with_one(one: Step, word: StepWord) -> Option<StepWord>
    ensures { result ≡ with_one one word word.step }
{
    match word.step {
        Step::Open => Some(as_step(one, word)),
        _ => None,
    }
}

/// Returns the step for so many pages at most, if it is made for pages and has no limit yet.
fn with_limit(number: u32, word: StepWord) -> Option<StepWord>
    ensures { result ≡ with_limit number word word.most }
{
    match word.most {
        Some(_) => None,
        None if is_of_pages(word.step) || is_release(word.step) => Some(StepWord {
            most: Some(number),
            ..word
        }),
        None => None,
    }
}

/// Returns the step with a number behind it: the bytes of a piece, or a limit.
fn with_number(number: u32, word: StepWord) -> Option<StepWord>
    ensures { result ≡ with_number number word word.step }
{
    match word.step {
        Step::Copy => Some(as_step(Step::CopyPiece(number), word)),
        _ => with_limit(number, word),
    }
}

/// Returns the step with an option, if it may have it.
fn option_added(word: StepWord, option: &[u8]) -> Option<StepWord>
    ensures { result ≡ option_added option.now word }
{
    if is_word(option, b"once") {
        return with_once(word);
    }
    if is_word(option, b"page") {
        return with_page(word);
    }
    if is_word(option, b"dirty") {
        return with_dirty(word);
    }
    if is_word(option, b"src") {
        return with_one(Step::OpenSource, word);
    }
    if is_word(option, b"dst") {
        return with_one(Step::OpenDestination, word);
    }
    match number32(option, 1, u32::MAX) {
        Ok(number) => with_number(number, word),
        Err(_) => None,
    }
}

/// Returns the step with the options between the bytes `:` of a text, if it may have them.
fn options_added(word: StepWord, options: &[u8]) -> Option<StepWord>
    ensures { result ≡ options_added (parts_between 58 options.now) word }
{
    let mut word = word;
    let mut rest = options;
    while let Some((option, behind)) = cut(rest, b':') {
        word = option_added(word, option)?;
        rest = behind;
    }
    option_added(word, rest)
}

/// Returns the step that a word spells, if it spells one.
fn step_in(word: &[u8]) -> Option<StepWord>
    ensures { result ≡ step_in word.now }
{
    match cut(word, b':') {
        Some((name, options)) => options_added(bare(step_named(name)?), options),
        None => Some(bare(step_named(word)?)),
    }
}

/// Returns the step of a name, if there is one.
fn step_named(word: &[u8]) -> Option<Step>
    ensures { result ≡ step_named word.now }
{
    step_among(&STEPS, word)
}

/// Returns the first of these steps that has a name, if one has it.
fn step_among(steps: &[Step], word: &[u8]) -> Option<Step>
    ensures { result ≡ find (is_named word.now) steps.now }
{
    for step in steps {
        if is_word(word, name_of(*step)) {
            return Some(*step);
        }
    }
    None
}

/// Returns the name of a step.
pub(crate) fn name_of(step: Step) -> &'static [u8]
    ensures { result.now ≡ step_name step }
{
    match step {
        Step::Protect => b"protect",
        Step::Hide => b"hide",
        Step::Copy | Step::CopyPiece(_) | Step::CopyPage => b"copy",
        Step::Remap => b"remap",
        Step::Unmap => b"unmap",
        Step::Unprotect => b"unprotect",
        Step::Release | Step::ReleaseDirty => b"release",
        Step::Merge => b"merge",
        Step::Open | Step::OpenSource | Step::OpenDestination => b"open",
        Step::Fence => b"fence",
        Step::Look => b"look",
    }
}
