//! `Kept`, one call of a seat.
ghost use Rattle.std.specs.Prelude.{◌≡◌};
ghost use Rattle.model_memory.specs.Reads.{is_read};

use mesh_mutator::{Command, Reply};
use std::marker::Model;

/// One call of a seat: the command, its answer, and for a read the number of journal entries that it saw.
#[derive(Drop)]
pub struct Kept {
    /// The command.
    pub command: Command,
    /// Its reply.
    pub reply: Reply,
    /// For a read, the length of the journal that it saw. `None` for any other command.
    pub seen: Option<u32>,
}

impl Model for Kept {
    ghost use Rattle.model_memory.specs.Reads.{Kept as PlainKept};

    ghost Value = { PlainKept };

    ghost view = { λ e. record { command = e.command; reply = e.reply; seen = e.seen } };

    ghost inverse = { λ e. record { command = e.command; reply = e.reply; seen = e.seen } };
}

impl Kept {
    pub(crate) fn of(command: &Command, reply: &Reply, seen: Option<u32>) -> Kept
        ensures { result ≡ record { command = command.now; reply = reply.now; seen = seen } }
    {
        Kept {
            command: command.copied(),
            reply: reply.copied(),
            seen,
        }
    }
}

/// Whether the command is a read: `get`, `addr` or `peek`.
pub fn is_read(command: &Command) -> bool
    ensures { result ≡ is_read command.now }
{
    match command {
        Command::Get(_, _, _) | Command::Addr(_) | Command::Peek(_) => true,
        _ => false,
    }
}
