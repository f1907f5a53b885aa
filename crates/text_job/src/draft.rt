//! The part of a job that was already read, line by line.
ghost use Rattle.std.specs.Prelude.{◌≡◌, true, false, Ok, Err, OnOk, IfErr};
ghost use Rattle.std.specs.List.{list_any};
ghost use Rattle.model_jobs.specs.JobFiles.{blank_draft, has_ended, is_empty, job_of, plan_line, script_line, take_fields, take_in, version_of};
ghost use Rattle.text_fields.specs.Lines.{texts};
ghost use Rattle.text_job.specs.Draft.{IsDraft, draft_of, is_behind_sizes, is_in_header, is_in_script, number_field_in, section_of};
ghost use Rattle.text_job.specs.Takes.{HasTakenLine, HasTakenQuickLine, IsMadeBy, IsMadeInPlaceBy};

use crate::plan_lines::plan_line;
use crate::quick::{quick_command, quick_line};
use crate::script::{close_script, push_line};
use crate::{Job, LineError, Plan, PlanLine, Script, Scripts};
use model_jobs::text_laws::lines_read_back;
use model_words::{FaultKind, Version};
use std::alloc::{AllocError, Global};
use text_fields::lines::{
    FewFields, few_fields, fields_of, header, is_word, next_line, no_field, one_field,
};
use text_fields::numbers::number32;

/// The greatest number of pages of an arena.
const MAX_PAGES: u32 = 4096;

const MAX_HISTORY: u32 = 65_536;

/// The greatest number of workers of a job.
const MAX_WORKERS: u32 = 64;

/// The section of a job file that the next line belongs to.
#[derive(Clone, Copy)]
enum Section {
    /// The next line must be `mesh 1` or `mesh 2`.
    Version,
    /// The next line must be `pages P`.
    Pages,
    /// The next line must be `history H`.
    History,
    /// The next line must be `workers N`.
    Workers,
    /// The next line must be `worker 0`.
    FirstWorker,
    /// The commands of the worker with this number.
    Worker(u32),
    /// The lines of the plan.
    Plan,
    /// The file after the line `end`, which must be empty.
    Ended,
}

/// A job that is being read.
pub(crate) struct Draft {
    alloc: Global,
    section: Section,
    version: Version,
    pages: u32,
    history: u32,
    workers: u32,
    /// The scripts of the workers whose sections have ended.
    scripts: Vec<Script>,
    /// The script of the section that is being read.
    script: Script,
    plan: Vec<PlanLine>,
}

#[rattlefmt::skip]
impl Drop for Draft {
    fn drop(self) { let Draft { alloc: _, section: _, version: _, pages: _, history: _, workers: _, scripts: _, script: _, plan: _ } = self; }
}

impl Draft {
    /// Returns a draft into which no line was read.
    pub(crate) fn new(alloc: Global) -> Self
        ensures draft { IsDraft result }
        ensures blank { draft_of result ≡ blank_draft }
    {
        Draft {
            alloc,
            section: Section::Version,
            version: Version::One,
            pages: 0,
            history: 0,
            workers: 0,
            scripts: Vec::new(alloc),
            script: Script::new(alloc),
            plan: Vec::new(alloc),
        }
    }

    /// Whether the line `end` was read.
    pub(crate) fn has_ended(&self) -> bool
        ensures { result ≡ has_ended (draft_of self.now).section }
    {
        match self.section {
            Section::Ended => true,
            _ => false,
        }
    }

    /// Reads the next line of the text into the draft, and returns the bytes after that line. If the text contains no
    /// whole line and has at most 1,024 bytes, returns `None` and reads nothing. The error is the first fault of the
    /// line, or an allocation failure.
    pub(crate) fn take_line<'a>(&mut self, text: &'a [u8]) -> Result<Option<&'a [u8]>, LineError>
        requires draft { IsDraft self.old }
        requires going { has_ended (draft_of self.old).section ≡ false }
        ensures { HasTakenLine self.old self.new text.now result }
    {
        if let Some(rest) = self.take_quick_line(text)? {
            return Ok(Some(rest));
        }
        self.take_few_fields(text)
    }

    /// Does the same as `take_line`, but always splits the line into fields.
    fn take_few_fields<'a>(&mut self, text: &'a [u8]) -> Result<Option<&'a [u8]>, LineError>
        requires draft { IsDraft self.old }
        requires going { has_ended (draft_of self.old).section ≡ false }
        ensures { HasTakenLine self.old self.new text.now result }
    {
        let mut few = FewFields::new();
        if let Some(rest) = few_fields(text, &mut few) {
            self.take(few.as_slice())?;
            return Ok(Some(rest));
        }
        self.take_all_fields(text)
    }

    /// Does the same as `take_few_fields`, in more than one scan of the line.
    fn take_all_fields<'a>(&mut self, text: &'a [u8]) -> Result<Option<&'a [u8]>, LineError>
        requires draft { IsDraft self.old }
        requires going { has_ended (draft_of self.old).section ≡ false }
        ensures { HasTakenLine self.old self.new text.now result }
    {
        let Some((line, rest)) = next_line(text)? else {
            return Ok(None);
        };
        let fields = fields_of(line)?;
        self.take(fields.as_slice())?;
        Ok(Some(rest))
    }

    /// If the next line of the text has a frequent form, reads the line into the draft and returns the bytes after the
    /// line. Otherwise returns `None` and reads nothing.
    #[inline]
    fn take_quick_line<'a>(&mut self, text: &'a [u8]) -> Result<Option<&'a [u8]>, AllocError>
        requires draft { IsDraft self.old }
        ensures { HasTakenQuickLine self.old self.new text.now result }
    {
        match self.section {
            Section::Worker(_) => self.take_quick_command(text),
            Section::Plan => self.take_quick_call(text),
            _ => Ok(None),
        }
    }

    /// Does the same as `take_quick_line`, in the section of a worker.
    #[inline]
    fn take_quick_command<'a>(&mut self, text: &'a [u8]) -> Result<Option<&'a [u8]>, AllocError>
        requires draft { IsDraft self.old }
        requires section { is_in_script self.old.section ≡ true }
        ensures { HasTakenQuickLine self.old self.new text.now result }
    {
        lines_read_back();
        let Some((command, rest)) = quick_command(text) else {
            return Ok(None);
        };
        self.script.push(&command)?;
        Ok(Some(rest))
    }

    /// Does the same as `take_quick_line`, in the section of the plan.
    #[inline]
    fn take_quick_call<'a>(&mut self, text: &'a [u8]) -> Result<Option<&'a [u8]>, AllocError>
        requires draft { IsDraft self.old }
        requires section { self.old.section ≡ Section.Plan }
        ensures { HasTakenQuickLine self.old self.new text.now result }
    {
        lines_read_back();
        let Some((line, rest)) = quick_line(text, self.version, self.workers) else {
            return Ok(None);
        };
        self.plan.push(line)?;
        Ok(Some(rest))
    }

    /// Reads the next line, split into these fields, into the draft. The error is the first fault of the line, or an
    /// allocation failure.
    fn take(&mut self, fields: &[&[u8]]) -> Result<(), LineError>
        requires draft { IsDraft self.old }
        requires filled { list_any is_empty (texts fields.now) ≡ false }
        ensures { IsMadeBy (take_fields (draft_of self.old) (texts fields.now)) self.new result }
    {
        let [word, fields @ ..] = fields else {
            return Err(LineError::Kind(FaultKind::Word));
        };
        match self.section {
            Section::Worker(worker) => self.take_in_script(worker, *word, fields),
            Section::Plan => self.take_in_plan(*word, fields),
            _ => Ok(self.take_header(*word, fields)?),
        }
    }

    /// Reads a line of the header into the draft. A line after the line `end` is a fault.
    fn take_header(&mut self, word: &[u8], fields: &[&[u8]]) -> Result<(), FaultKind>
        requires draft { IsDraft self.old }
        requires section { is_in_header self.old.section ≡ true }
        ensures { IsMadeInPlaceBy
            (take_in (section_of self.old.section) (draft_of self.old) word.now (texts fields.now)) self.new result }
    {
        match self.section {
            Section::Version => {
                self.version = version_of(header(word, fields, b"mesh", 1, 2)?);
                self.section = Section::Pages;
            }
            Section::Pages => {
                self.pages = header(word, fields, b"pages", 1, MAX_PAGES)?;
                self.section = Section::History;
            }
            Section::History => {
                self.history = header(word, fields, b"history", 0, MAX_HISTORY)?;
                self.section = Section::Workers;
            }
            _ => return self.take_workers(word, fields),
        }
        Ok(())
    }

    /// Reads the line `workers` or the line `worker 0` into the draft. A line after the line `end` is a fault.
    fn take_workers(&mut self, word: &[u8], fields: &[&[u8]]) -> Result<(), FaultKind>
        requires draft { IsDraft self.old }
        requires section { is_behind_sizes self.old.section ≡ true }
        ensures { IsMadeInPlaceBy
            (take_in (section_of self.old.section) (draft_of self.old) word.now (texts fields.now)) self.new result }
    {
        match self.section {
            Section::Workers => {
                self.workers = header(word, fields, b"workers", 1, MAX_WORKERS)?;
                self.section = Section::FirstWorker;
            }
            Section::FirstWorker => {
                header(word, fields, b"worker", 0, 0)?;
                self.section = Section::Worker(0);
            }
            _ => return Err(FaultKind::Trailing),
        }
        Ok(())
    }

    /// Reads a line in the section of a worker: a command, the heading of the next worker, or the heading of the plan.
    fn take_in_script(
        &mut self,
        worker: u32,
        word: &[u8],
        fields: &[&[u8]],
    ) -> Result<(), LineError>
        requires section { self.old.section ≡ Section.Worker worker }
        requires draft { IsDraft self.old }
        ensures { IsMadeBy (script_line (draft_of self.old) worker word.now (texts fields.now)) self.new result }
    {
        let next = worker + 1;
        if is_word(word, b"worker") && next < self.workers {
            check_number(fields, next)?;
            close_script(self.alloc, &mut self.script, &mut self.scripts)?;
            self.section = Section::Worker(next);
        } else if is_word(word, b"plan") && next == self.workers {
            no_field(fields)?;
            close_script(self.alloc, &mut self.script, &mut self.scripts)?;
            self.section = Section::Plan;
        } else {
            push_line(self.alloc, &mut self.script, self.version, word, fields)?;
        }
        Ok(())
    }

    /// Reads a line in the section of the plan: a line of the plan, or the line `end`.
    fn take_in_plan(&mut self, word: &[u8], fields: &[&[u8]]) -> Result<(), LineError>
        requires section { self.old.section ≡ Section.Plan }
        requires draft { IsDraft self.old }
        ensures { IsMadeBy (plan_line (draft_of self.old) word.now (texts fields.now)) self.new result }
    {
        if is_word(word, b"end") {
            no_field(fields)?;
            self.section = Section::Ended;
        } else {
            let line = plan_line(self.alloc, self.version, self.workers, word, fields)?;
            self.plan.push(line).map_err(|_| LineError::Memory)?;
        }
        Ok(())
    }

    /// Returns the job. The line `end` must have been read.
    pub(crate) fn finish(self) -> Job
        requires draft { IsDraft self }
        requires ended { has_ended (draft_of self).section ≡ true }
        ensures { result ≡ job_of (draft_of self) }
    {
        let Draft {
            alloc: _,
            section: _,
            version,
            pages,
            history,
            workers: _,
            scripts,
            script: _,
            plan,
        } = self;
        Job {
            version,
            pages,
            history,
            scripts: Scripts::new(scripts),
            plan: Plan::new(plan),
        }
    }
}

/// Checks that the line has one field after its word, and that this field is `number`. The error is WORD if the number
/// of fields isn't one, and NUMBER if the one field isn't `number`.
fn check_number(fields: &[&[u8]], number: u32) -> Result<(), FaultKind>
    ensures ok { OnOk result (number_field_in number (texts fields.now) ≡ Ok number) }
    ensures err { IfErr result (λ kind. number_field_in number (texts fields.now) ≡ Err kind) }
{
    let field = one_field(fields)?;
    number32(field, number, number)?;
    Ok(())
}

/// Returns the version with this number.
fn version_of(number: u32) -> Version
    ensures { result ≡ version_of number }
{
    if number == 2 {
        Version::Two
    } else {
        Version::One
    }
}
