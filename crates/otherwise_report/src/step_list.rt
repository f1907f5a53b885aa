//! The lists of steps that a text spells.
ghost use Rattle.std.specs.Prelude.{◌≡◌, ◌-◌, ◌^◌, ◌<◌, ◌++◌, ◌∷◌, [], IfErr, IfOk, Ok, OnOk, length, map};
ghost use Rattle.std.specs.List.{list_all};
ghost use Rattle.model_otherwise.specs.Moves.{on_page, page_by_page};
ghost use Rattle.text_fields.specs.Lines.{texts};
ghost use Rattle.otherwise_report.specs.Errors.{IsUnspelt};
ghost use Rattle.otherwise_report.specs.StepLists.{closed, finished, goes_by_page, is_by_page, list_of, list_of_words, no_words, opened, phase_added, unchecked, word_added};

use crate::errors::StepsError;
use crate::list_fault::ListFault;
use crate::step_words::{is_of_pages, is_release, phase_in};
use explore_otherwise::Phase;
use model_otherwise::Step;
use std::alloc::{AllocError, Global};
use std::marker::Model;
use text_fields::lines::{fields_up_to, is_word};

/// The greatest number of phases of a list.
const MAX_PHASES: u32 = 12;

/// The greatest number of words of a list: each phase may stand between `(` and `)`, behind `begin:unchecked`.
const MAX_WORDS: usize = 37;

/// A list of steps.
#[derive(Drop)]
pub(crate) struct StepList {
    /// The phases of each mesh.
    pub phases: Vec<Phase>,
    /// Whether a mesh is refused whose groups have a common occupied slot.
    pub checked: bool,
}

impl Model for StepList {
    ghost use Rattle.otherwise_report.specs.StepLists.{StepList as ListParts};

    ghost Value = { ListParts };

    ghost view = { λ l. record { phases = l.phases.items; checked = l.checked } };
}

/// What the words of a list have spelled so far.
#[derive(Drop)]
struct Draft {
    // How many phases were spelled.
    count: u32,
    // The phases of the list.
    phases: Vec<Phase>,
    // The phases behind a `(` that isn't closed yet.
    inside: Vec<Phase>,
    // Whether there is such a `(`.
    is_inside: bool,
    // Whether meshes are checked.
    checked: bool,
}

impl Model for Draft {
    ghost use Rattle.otherwise_report.specs.StepLists.{Draft as DraftParts};

    ghost Value = { DraftParts };

    ghost view = { λ d. record {
      count = d.count;
      phases = d.phases.items;
      inside = d.inside.items;
      is_inside = d.is_inside;
      checked = d.checked;
    } };
}

impl Draft {
    /// Returns the draft of no words.
    fn new(alloc: Global) -> Draft
        ensures { result ≡ no_words }
    {
        Draft {
            count: 0,
            phases: Vec::new(alloc),
            inside: Vec::new(alloc),
            is_inside: false,
            checked: true,
        }
    }

    /// Returns the draft with a `(`, the word of this number.
    fn opened(self, number: u32) -> Result<Draft, ListFault>
        ensures { result ≡ opened number self }
    {
        if self.is_inside {
            return Err(ListFault::Parenthesis(number));
        }
        Ok(Draft {
            is_inside: true,
            ..self
        })
    }

    /// Returns the draft with a `)`, the word of this number.
    fn closed(self, alloc: Global, number: u32) -> Result<Draft, StepsError>
        ensures ok { IfOk result (λ draft. closed number self ≡ Ok draft) }
        ensures fault { IfErr result (IsUnspelt (closed number self)) }
    {
        if !self.is_inside || self.inside.is_empty() {
            return Err(StepsError::Steps(ListFault::Parenthesis(number)));
        }
        let mut draft = self;
        add_page_by_page(alloc, &mut draft.phases, draft.inside.as_slice())?;
        draft.inside = Vec::new(alloc);
        draft.is_inside = false;
        Ok(draft)
    }

    /// Returns the draft with `begin:unchecked`, the word of this number.
    fn unchecked(self, number: u32) -> Result<Draft, ListFault>
        ensures { result ≡ unchecked number self }
    {
        if number != 1 {
            return Err(ListFault::NoStep(number));
        }
        Ok(Draft {
            checked: false,
            ..self
        })
    }

    /// Returns the draft with a phase, the word of this number. Also returns an error if the number of phases needs
    /// more than 32 bits.
    fn with_phase(self, number: u32, phase: Phase) -> Result<Draft, StepsError>
        ensures ok { IfOk result (λ draft. phase_added number self phase ≡ Ok draft) }
        ensures fault { IfErr result (IsUnspelt (phase_added number self phase)) }
    {
        let mut draft = self;
        let Some(count) = draft.count.checked_add(1) else {
            return Err(AllocError.into());
        };
        if !draft.is_inside {
            add_phase(&mut draft.phases, phase)?;
        } else if goes_by_page(&phase) {
            add_phase(&mut draft.inside, phase)?;
        } else {
            return Err(StepsError::Steps(ListFault::NotByPage(number)));
        }
        draft.count = count;
        Ok(draft)
    }

    /// Returns the list, if it has 1 to 12 phases and each `(` is closed.
    fn finished(self) -> Result<StepList, ListFault>
        ensures { result ≡ finished self }
    {
        if self.is_inside {
            return Err(ListFault::Unclosed);
        }
        if self.count == 0 || self.count > MAX_PHASES {
            return Err(ListFault::WordCount);
        }
        Ok(StepList {
            phases: self.phases,
            checked: self.checked,
        })
    }
}

/// Returns the list that a text spells.
pub(crate) fn list_of(alloc: Global, text: &[u8]) -> Result<StepList, StepsError>
    ensures ok { IfOk result (λ list. list_of text.now ≡ Ok list) }
    ensures fault { IfErr result (IsUnspelt (list_of text.now)) }
{
    let Ok(words) = fields_up_to::<MAX_WORDS>(text) else {
        return Err(StepsError::Steps(ListFault::WordCount));
    };
    list_of_words(alloc, words.as_slice())
}

/// Returns the list that words spell.
fn list_of_words(alloc: Global, words: &[&[u8]]) -> Result<StepList, StepsError>
    requires { length words.now < 2 ^ 32 - 1 }
    ensures ok { IfOk result (λ list. list_of_words (texts words.now) ≡ Ok list) }
    ensures fault { IfErr result (IsUnspelt (list_of_words (texts words.now))) }
{
    let mut draft = Draft::new(alloc);
    for number in 0..words.len() {
        draft = word_added(alloc, number as u32 + 1, draft, words[number])?;
    }
    finished(draft)
}

/// Returns the list of a draft.
fn finished(draft: Draft) -> Result<StepList, StepsError>
    ensures ok { IfOk result (λ list. finished draft ≡ Ok list) }
    ensures fault { IfErr result (IsUnspelt (finished draft)) }
{
    draft.finished().map_err(StepsError::Steps)
}

/// Returns the draft with a word, which has this number.
fn word_added(alloc: Global, number: u32, draft: Draft, word: &[u8]) -> Result<Draft, StepsError>
    ensures ok { IfOk result (λ next. word_added number draft word.now ≡ Ok next) }
    ensures fault { IfErr result (IsUnspelt (word_added number draft word.now)) }
{
    if is_word(word, b"(") {
        return draft.opened(number).map_err(StepsError::Steps);
    }
    if is_word(word, b")") {
        return draft.closed(alloc, number);
    }
    if is_word(word, b"begin:unchecked") {
        return draft.unchecked(number).map_err(StepsError::Steps);
    }
    draft.with_phase(number, phase_in(alloc, number, word)?)
}

/// Appends a phase.
fn add_phase(phases: &mut Vec<Phase>, phase: Phase) -> Result<(), AllocError>
    ensures { OnOk result (phases.new.items ≡ phases.old.items ++ phase ∷ []) }
{
    phases.push(phase)?;
    Ok(())
}

/// Appends phases that are made page by page.
fn add_page_by_page(
    alloc: Global,
    phases: &mut Vec<Phase>,
    inside: &[Phase],
) -> Result<(), AllocError>
    ensures { OnOk result (phases.new.items ≡ phases.old.items ++ page_by_page inside.now) }
{
    add_on_page(alloc, phases, inside, 0)?;
    add_on_page(alloc, phases, inside, 1)?;
    add_on_page(alloc, phases, inside, 2)
}

/// Appends phases for one page of the span alone.
fn add_on_page(
    alloc: Global,
    phases: &mut Vec<Phase>,
    inside: &[Phase],
    page: u32,
) -> Result<(), AllocError>
    ensures { OnOk result (phases.new.items ≡ phases.old.items ++ map (on_page page) inside.now) }
{
    for phase in inside {
        phases.push(on_page(alloc, phase, page)?)?;
    }
    Ok(())
}

/// Returns a phase for one page of the span alone.
fn on_page(alloc: Global, phase: &Phase, page: u32) -> Result<Phase, AllocError>
    ensures { IfOk result (λ made. made ≡ on_page page phase.now) }
{
    Ok(Phase {
        steps: phase.steps.as_slice().to_vec(alloc)?,
        most: phase.most,
        page: Some(page),
        is_once: phase.is_once,
    })
}

/// Whether a phase can be made page by page.
fn goes_by_page(phase: &Phase) -> bool
    ensures { result ≡ goes_by_page phase.now }
{
    !phase.is_once && are_by_page(phase.steps.as_slice())
}

/// Whether a move of each step is of one page of the span.
fn are_by_page(steps: &[Step]) -> bool
    ensures { result ≡ list_all is_by_page steps.now }
{
    steps.iter().all(|step| is_by_page(*step))
}

/// Whether a move of the step is of one page of the span.
fn is_by_page(step: Step) -> bool
    ensures { result ≡ is_by_page step }
{
    is_of_pages(step) || is_release(step) || matches!(step, Step::CopyPage)
}
