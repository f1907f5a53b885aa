//! Those calls of a recorded history that both heaps replay.
ghost use Rattle.std.specs.Prelude.{◌≡◌};
ghost use Rattle.text_words.specs.RecordedWords.{plain_entry};
ghost use Rattle.savings_replay.specs.Calls.{call_of};

use history_reading::{RecordedEntry, RecordedReply, SpeltCommand};

/// A call of a recorded program. A cell is any 32-bit number.
#[derive(Clone, Copy, Debug, PartialEq, Eq)]
pub enum Call {
    /// `New(cell, len)`: an object of `len` bytes was made, and a reference to it was stored in `cell`.
    New(u32, u64),
    /// `Free(cell)`: the object that `cell` holds was freed.
    Free(u32),
    /// `Alias(to, from)`: the reference that `from` holds was stored in `to`.
    Alias(u32, u32),
}

/// Returns the call of an entry. The entry must be a `new` that was answered with an object, or a `free` or an `alias`
/// that was answered with `done`. Returns `None` for all other entries.
pub fn call_of(entry: &RecordedEntry) -> Option<Call>
    ensures { result ≡ call_of (plain_entry entry.now) }
{
    match (&entry.command, &entry.reply) {
        (SpeltCommand::New(cell, len, _), RecordedReply::Object(_, _)) => Some(Call::New(
            *cell, *len,
        )),
        (SpeltCommand::Free(cell), RecordedReply::Done) => Some(Call::Free(*cell)),
        (SpeltCommand::Alias(to, from), RecordedReply::Done) => Some(Call::Alias(*to, *from)),
        _ => None,
    }
}
