//! The outcomes that a text lists.
ghost use Rattle.std.specs.Prelude.{◌≡◌, ◌++◌, ◌∷◌, [], ℕ, List, None, Some, IfOk, OnOk, if◌then◌else◌, option_map, unwrap_or};
ghost use Rattle.explore_verdict.specs.Expected.{begun_with, blocks_from, blocks_of, continues, is_over, of_begun};
ghost use Rattle.explore_verdict.specs.OpenBlocks.{opened_block, over, with_end, with_worker};

use crate::block::Block;
use crate::listing_lines::{is_end_line, is_outcome_line, is_plan_line, is_worker_line};
use crate::open_block::OpenBlock;
use std::alloc::{AllocError, Global};
use text_fields::lines::cut;

/// The outcomes that were read so far, and the outcome that has begun.
#[derive(Drop)]
struct Read {
    done: Vec<Block>,
    begun: Option<OpenBlock>,
    alloc: Global,
}

/// Returns the texts of the outcomes of a text, in order.
pub(crate) fn blocks(alloc: Global, text: &[u8]) -> Result<Vec<Block>, AllocError>
    ensures { IfOk result (λ blocks. blocks.items ≡ blocks_of text.now) }
{
    let mut read = Read {
        done: Vec::new(alloc),
        begun: None,
        alloc,
    };
    let mut rest = text;
    while let Some((line, behind)) = cut(rest, b'\n') {
        read.take(line)?;
        rest = behind;
    }
    read.take(rest)?;
    read.close()?;
    let Read {
        done,
        begun: _,
        alloc: _,
    } = read;
    Ok(done)
}

impl Read {
    /// Reads one more line.
    fn take(&mut self, line: &[u8]) -> Result<(), AllocError>
        ensures { OnOk result ((lines : List (List ℕ)) → self.new.done.items ++ blocks_from self.new.begun lines
            ≡ self.old.done.items ++ blocks_from self.old.begun (line.now ∷ lines)) }
    {
        if !self.continues(line) {
            self.close()?;
        }
        self.go_on(line)
    }

    /// Whether a line continues the outcome that has begun.
    fn continues(&self, line: &[u8]) -> bool
        ensures { result ≡ continues line.now self.now.begun }
    {
        (is_worker_line(line) && !self.is_over()) || is_end_line(line) || is_plan_line(line)
    }

    /// Whether an outcome has begun whose workers' lines are over.
    fn is_over(&self) -> bool
        ensures { result ≡ is_over self.now.begun }
    {
        match &self.begun {
            Some(block) => block.is_over(),
            None => false,
        }
    }

    /// Adds a line to the outcome that goes on, or begins one.
    fn go_on(&mut self, line: &[u8]) -> Result<(), AllocError>
        ensures done { OnOk result (self.new.done.items ≡ self.old.done.items) }
        ensures begun { OnOk result (self.new.begun ≡ begun_with line.now self.old.begun) }
    {
        if is_worker_line(line) {
            return self.add_worker(line);
        }
        if is_end_line(line) {
            return self.add_end(line);
        }
        if is_plan_line(line) {
            self.end_workers();
            return Ok(());
        }
        self.begun = if is_outcome_line(line) {
            Some(OpenBlock::new(self.alloc))
        } else {
            None
        };
        Ok(())
    }

    /// Adds the line of a worker to the outcome that has begun, or to a new one.
    fn add_worker(&mut self, line: &[u8]) -> Result<(), AllocError>
        ensures done { OnOk result (self.new.done.items ≡ self.old.done.items) }
        ensures begun { OnOk result
            (self.new.begun ≡ Some (with_worker line.now (unwrap_or self.old.begun opened_block))) }
    {
        let mut block = match self.begun.take() {
            Some(block) => block,
            None => OpenBlock::new(self.alloc),
        };
        block.add_worker(line)?;
        self.begun = Some(block);
        Ok(())
    }

    /// Adds the line of the end to the outcome that has begun, if there is one.
    fn add_end(&mut self, line: &[u8]) -> Result<(), AllocError>
        ensures done { OnOk result (self.new.done.items ≡ self.old.done.items) }
        ensures begun { OnOk result (self.new.begun ≡ option_map (with_end line.now) self.old.begun) }
    {
        if let Some(mut block) = self.begun.take() {
            block.add_end(line)?;
            self.begun = Some(block);
        }
        Ok(())
    }

    /// Ends the workers' lines of the outcome that has begun, if there is one.
    fn end_workers(&mut self)
        ensures done { self.new.done.items ≡ self.old.done.items }
        ensures begun { self.new.begun ≡ option_map over self.old.begun }
    {
        if let Some(mut block) = self.begun.take() {
            block.end_workers();
            self.begun = Some(block);
        }
    }

    /// Ends the outcome that has begun, if there is one.
    fn close(&mut self) -> Result<(), AllocError>
        ensures done { OnOk result (self.new.done.items ≡ self.old.done.items ++ of_begun self.old.begun) }
        ensures begun { OnOk result (self.new.begun ≡ None) }
    {
        if let Some(block) = self.begun.take() {
            self.done.push(block.into_text()?)?;
        }
        Ok(())
    }
}
