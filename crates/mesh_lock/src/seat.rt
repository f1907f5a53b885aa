//! `Seat`: the calls and answers of one mutator.
ghost use Rattle.std.specs.Prelude.{◌≡◌, ◌<◌, ◌≤◌, ◌++◌, [], ◌∷◌, IsTrue, ◌↔◌, IfOk, is_some, length};
ghost use Rattle.std.specs.List.{All};
ghost use Rattle.model_words.specs.Commands.{IsInRange};
ghost use Rattle.model_memory.specs.Reads.{is_read};
ghost use Rattle.mesh_lock.specs.Seat.{IsKept};

use crate::kept::Kept;
use mesh_mutator::{Command, Reply};
use std::alloc::{AllocError, Global};
use std::marker::Model;

/// The calls and answers of one mutator, in program order. `open` allocates room for a fixed number of calls, and a
/// seat keeps at most that many.
#[derive(Drop)]
pub struct Seat {
    number: u32,
    calls: Vec<Kept>,
    room: usize,
}

impl Model for Seat {
    ghost use Rattle.std.specs.Prelude.{◌≤◌, vec_capacity};
    ghost use Rattle.mesh_lock.specs.Seat.{IsSeat, Seat as State, seat_code};

    ghost Value = { State };

    ghost coded = { seat_code };

    ghost view = { λ s. record { number = s.number; calls = s.calls.items; room = s.room } };

    ghost invariant = { λ s. IsSeat (record { number = s.number; calls = s.calls.items; room = s.room })
        × (s.room ≤ vec_capacity s.calls) };
}

impl Seat {
    /// Creates an empty seat with room for `room` calls. The only error is an allocation failure.
    pub fn open(alloc: Global, number: u32, room: usize) -> Result<Seat, AllocError>
        ensures { IfOk result (λ seat. seat ≡ record { number = number; calls = []; room = room }) }
    {
        let calls = Vec::with_capacity(alloc, room)?;
        Ok(Seat {
            number,
            calls,
            room,
        })
    }

    /// The seat's number.
    pub fn number(&self) -> u32
        ensures { result ≡ self.now.number }
    {
        self.number
    }

    /// The seat's calls in their order. There are no more calls than the seat has room for. A call has a length of the
    /// journal that it saw if and only if it is a read. Each command is in range.
    pub fn calls(&self) -> &[Kept]
        ensures calls { result.now ≡ self.now.calls }
        ensures kept { All IsKept result.now }
        ensures short { length result.now ≤ self.now.room }
    {
        self.calls.as_slice()
    }

    /// Whether the seat's room is used up.
    pub fn is_full(&self) -> bool
        ensures { IsTrue result ↔ (self.now.room ≤ length self.now.calls) }
    {
        self.calls.len() >= self.room
    }

    /// Adds a call and its answer, and for a read the number of entries that it saw. Nothing is allocated. If the
    /// answer isn't the book's, `settle` returns an error.
    pub fn keep(&mut self, command: &Command, reply: &Reply, seen: Option<u32>)
        requires room { length self.old.calls < self.old.room }
        requires read { is_some seen ≡ is_read command.now }
        requires range { IsInRange command.now }
        ensures { self.new
            ≡ record {
              number = self.old.number;
              calls = self.old.calls
                  ++ record { command = command.now; reply = reply.now; seen = seen } ∷ [];
              room = self.old.room;
            } }
    {
        let kept = Kept::of(command, reply, seen);
        self.calls.push_reserved(kept);
    }
}
