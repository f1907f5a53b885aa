//! `OpenBlock`: the outcome that a list has begun.
ghost use Rattle.std.specs.Prelude.{◌≡◌, ◌++◌, ◌≤◌, IfOk, OnOk, length};
ghost use Rattle.model_jobs.specs.JobFiles.{number_in};
ghost use Rattle.explore_verdict.specs.OpenBlocks.{block_text, joined, number_or_zero, opened_block, over, place_above, with_end, with_line, with_worker, worker_of};

use crate::block::Block;
use std::alloc::{AllocError, Global};
use std::marker::Model;
use text_fields::lines::cut;
use text_fields::numbers::number32;

/// The length of the beginning of a worker's line.
const BEHIND_WORKER: usize = 9;

/// The outcome that a list has begun.
#[derive(Drop)]
pub(crate) struct OpenBlock {
    // The lines of workers, each with a line end, in the order of the workers.
    workers: Vec<Block>,
    // The lines of the end.
    end: Block,
    is_over: bool,
    alloc: Global,
}

impl Model for OpenBlock {
    ghost use Rattle.explore_verdict.specs.OpenBlocks.{Opened};

    ghost Value = { Opened };

    ghost view = { λ b. record { workers = b.workers.items; end = b.end; is_over = b.is_over } };
}

impl OpenBlock {
    /// Returns an outcome without lines. Nothing is allocated.
    pub(crate) fn new(alloc: Global) -> OpenBlock
        ensures { result ≡ opened_block }
    {
        OpenBlock {
            workers: Vec::new(alloc),
            end: Block::new(alloc),
            is_over: false,
            alloc,
        }
    }

    /// Whether the lines of the workers are over.
    pub(crate) fn is_over(&self) -> bool
        ensures { result ≡ self.now.is_over }
    {
        self.is_over
    }

    /// Adds the line of a worker.
    pub(crate) fn add_worker(&mut self, line: &[u8]) -> Result<(), AllocError>
        ensures { OnOk result (self.new ≡ with_worker line.now self.old) }
    {
        let mut block = Block::new(self.alloc);
        block.add_line(line)?;
        insert_line(&mut self.workers, block)
    }

    /// Adds the line of the end.
    pub(crate) fn add_end(&mut self, line: &[u8]) -> Result<(), AllocError>
        ensures { OnOk result (self.new ≡ with_end line.now self.old) }
    {
        self.is_over = true;
        self.end.add_line(line)
    }

    /// Ends the lines of the workers.
    pub(crate) fn end_workers(&mut self)
        ensures { self.new ≡ over self.old }
    {
        self.is_over = true;
    }

    /// Returns the text of the outcome: the lines of the workers, and the lines of the end.
    pub(crate) fn into_text(self) -> Result<Block, AllocError>
        ensures { IfOk result (λ text. text ≡ block_text self) }
    {
        let mut text = joined(self.alloc, self.workers.as_slice())?;
        text.add(self.end.as_slice())?;
        Ok(text)
    }
}

/// Adds a line before the first line of a worker above its own.
fn insert_line(lines: &mut Vec<Block>, line: Block) -> Result<(), AllocError>
    ensures { OnOk result (lines.new.items ≡ with_line line lines.old.items) }
{
    let place = place_above(lines.as_slice(), worker_of(line.as_slice()));
    lines.insert(place, line)?;
    Ok(())
}

/// The place of the first line of a worker above this one, or the number of lines.
fn place_above(lines: &[Block], worker: u32) -> usize
    ensures place { result ≡ place_above worker lines.now }
    ensures within { result ≤ length lines.now }
{
    let mut place = 0;
    let mut rest = lines;
    while let [line, behind @ ..] = rest {
        if worker < worker_of(line.as_slice()) {
            return place;
        }
        place += 1;
        rest = behind;
    }
    place
}

/// The worker of a line of a worker: the number before the first colon, or 0 if there is none.
fn worker_of(line: &[u8]) -> u32
    ensures { result ≡ worker_of line.now }
{
    let behind = line.get(BEHIND_WORKER..).unwrap_or(&[]);
    match cut(behind, b':') {
        Some((number, _)) => number_or_zero(number),
        None => number_or_zero(behind),
    }
}

/// The number of a worker that a text spells, or 0.
fn number_or_zero(text: &[u8]) -> u32
    ensures { result ≡ number_or_zero (number_in 0 63 text.now) }
{
    match number32(text, 0, 63) {
        Ok(number) => number,
        Err(_) => 0,
    }
}

/// The texts one behind another.
fn joined(alloc: Global, texts: &[Block]) -> Result<Block, AllocError>
    ensures { IfOk result (λ text. text ≡ joined texts.now) }
{
    let mut all = Block::new(alloc);
    let mut rest = texts;
    while let [text, behind @ ..] = rest {
        all.add(text.as_slice())?;
        rest = behind;
    }
    Ok(all)
}
