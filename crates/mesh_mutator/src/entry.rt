//! `Entry`, one answered command.
ghost use Rattle.std.specs.Prelude.{◌≡◌};

use crate::{Command, Reply};
use std::marker::Model;

/// One answered command: the worker, the command, and its answer.
#[derive(Debug, Drop, PartialEq, Eq)]
pub struct Entry {
    /// The worker's number.
    pub worker: u32,
    /// The command.
    pub command: Command,
    /// The reply to the command. It may be a refusal.
    pub reply: Reply,
}

impl Model for Entry {
    ghost use Rattle.model_memory.specs.Plain.{Entry as PlainEntry};

    ghost Value = { PlainEntry };

    ghost view = { λ e. record { worker = e.worker; command = e.command; reply = e.reply } };

    ghost inverse = { λ e. record { worker = e.worker; command = e.command; reply = e.reply } };
}

impl Entry {
    /// Returns the entry of a worker's command and its reply, without an allocation.
    pub fn of(worker: u32, command: &Command, reply: &Reply) -> Entry
        ensures { result ≡ record { worker = worker; command = command.now; reply = reply.now } }
    {
        Entry {
            worker,
            command: command.copied(),
            reply: reply.copied(),
        }
    }
}
