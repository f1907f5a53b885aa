//! The answers to commands that a text lists.
ghost use Rattle.std.specs.Prelude.{◌≡◌, ◌++◌, ◌∷◌, [], ℕ, List, None, Some, IfOk, OnOk, option_map};
ghost use Rattle.explore_verdict.specs.Answers.{added_by, answer_to, answered, answers_from, answers_of, command_behind, lone, opened_command};

use crate::block::Block;
use crate::listing_lines::{is_answer_line, is_command_line};
use std::alloc::{AllocError, Global};
use std::marker::Model;
use text_fields::lines::cut;

/// The command that a list has begun.
#[derive(Drop)]
struct CommandRead {
    // The line of the command, with a line end.
    line: Block,
    // Whether the list has an answer to the command.
    is_answered: bool,
}

impl Model for CommandRead {
    ghost use Rattle.explore_verdict.specs.Answers.{OpenCommand};

    ghost Value = { OpenCommand };

    ghost view = { λ c. record { line = c.line; is_answered = c.is_answered } };
}

/// The answers that were read so far, and the command that has begun.
#[derive(Drop)]
struct AnswersRead {
    done: Vec<Block>,
    begun: Option<CommandRead>,
    alloc: Global,
}

/// Returns the answers of a text, in order.
pub(crate) fn answers(alloc: Global, text: &[u8]) -> Result<Vec<Block>, AllocError>
    ensures { IfOk result (λ answers. answers.items ≡ answers_of text.now) }
{
    let mut read = AnswersRead {
        done: Vec::new(alloc),
        begun: None,
        alloc,
    };
    let mut rest = text;
    while let Some((line, behind)) = cut(rest, b'\n') {
        read.take(line)?;
        rest = behind;
    }
    read.take(rest)?;
    read.close()?;
    let AnswersRead {
        done,
        begun: _,
        alloc: _,
    } = read;
    Ok(done)
}

impl AnswersRead {
    /// Reads one more line.
    fn take(&mut self, line: &[u8]) -> Result<(), AllocError>
        ensures { OnOk result ((lines : List (List ℕ)) → self.new.done.items ++ answers_from self.new.begun lines
            ≡ self.old.done.items ++ answers_from self.old.begun (line.now ∷ lines)) }
    {
        if is_answer_line(line) {
            return self.add_answer(line);
        }
        self.close()?;
        if is_command_line(line) {
            self.begun = Some(opened(self.alloc, line)?);
        }
        Ok(())
    }

    /// Adds an answer to the command that has begun, if there is one.
    fn add_answer(&mut self, line: &[u8]) -> Result<(), AllocError>
        ensures done { OnOk result
            (self.new.done.items ≡ self.old.done.items ++ answer_to line.now self.old.begun) }
        ensures begun { OnOk result (self.new.begun ≡ option_map answered self.old.begun) }
    {
        if let Some(mut command) = self.begun.take() {
            self.done.push(command.answer(line)?)?;
            self.begun = Some(command);
        }
        Ok(())
    }

    /// Ends the command that has begun, if there is one.
    fn close(&mut self) -> Result<(), AllocError>
        ensures done { OnOk result (self.new.done.items ≡ self.old.done.items ++ lone self.old.begun) }
        ensures begun { OnOk result (self.new.begun ≡ None) }
    {
        if let Some(command) = self.begun.take() {
            if !command.is_answered {
                self.done.push(command.line)?;
            }
        }
        Ok(())
    }
}

impl CommandRead {
    /// Returns the line of the command and the line of an answer to it.
    fn answer(&mut self, line: &[u8]) -> Result<Block, AllocError>
        ensures answer { IfOk result (λ text. answer_to line.now (Some self.old) ≡ text ∷ []) }
        ensures answered { OnOk result (self.new ≡ answered self.old) }
    {
        self.is_answered = true;
        let mut text = self.line.copied()?;
        text.add_line(line)?;
        Ok(text)
    }
}

/// Returns a command without answers.
fn opened(alloc: Global, line: &[u8]) -> Result<CommandRead, AllocError>
    ensures { IfOk result (λ command. command ≡ opened_command line.now) }
{
    let mut block = Block::new(alloc);
    block.add_line(line)?;
    Ok(CommandRead {
        line: block,
        is_answered: false,
    })
}
