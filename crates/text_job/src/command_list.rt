//! Unpacked commands, for callers that need a slice of commands.
ghost use Rattle.std.specs.Prelude.{◌≡◌, [], ◌∷◌, ◌++◌, OnOk, OnErr};
ghost use Rattle.std.specs.List.{All};
ghost use Rattle.model_words.specs.Commands.{IsInRange};

use model_words::Command;
use std::alloc::{AllocError, Global};
use std::marker::Model;

/// A list of unpacked commands.
///
/// Each command that stores, loads or copies has 1 to 32 bytes to store, load or copy. So each command may be passed to
/// the heap.
#[derive(Drop)]
pub struct Commands {
    commands: Vec<Command>,
}

impl Model for Commands {
    ghost use Rattle.std.specs.Prelude.{List};
    ghost use Rattle.std.specs.List.{All};
    ghost use Rattle.model_words.specs.declared.commands.Command.{Command};
    ghost use Rattle.model_words.specs.Commands.{IsInRange};

    ghost Value = { List Command };

    ghost view = { λ c. c.commands.items };

    ghost invariant = { λ c. All IsInRange c.commands.items };
}

impl Commands {
    /// Returns an empty list. It allocates nothing.
    pub fn new(alloc: Global) -> Self
        ensures { result ≡ [] }
    {
        Commands {
            commands: Vec::new(alloc),
        }
    }

    /// Appends a command. If an allocation fails, returns an error and leaves the list unchanged.
    pub fn push(&mut self, command: Command) -> Result<(), AllocError>
        requires { IsInRange command }
        ensures ok { OnOk result (self.new ≡ self.old ++ command ∷ []) }
        ensures err { OnErr result (self.new ≡ self.old) }
    {
        self.commands.push(command)?;
        Ok(())
    }

    /// Returns the commands in their order.
    pub fn as_slice(&self) -> &[Command]
        ensures value { result.now ≡ self.now }
        ensures in_range { All IsInRange result.now }
    {
        self.commands.as_slice()
    }
}
