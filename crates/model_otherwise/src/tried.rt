//! What becomes of a command.
use model_words::Reply;

/// What becomes of a command that a worker tries.
#[derive(Debug, Drop, PartialEq, Eq)]
pub enum Tried {
    /// The command is answered as the reference memory answers it.
    Answered(Reply),
    /// The first of two moves is made.
    Begun,
    /// The second of two moves is made, and the command is answered as the reference memory answers it.
    Ended(Reply),
    /// The command is blocked: it changes nothing and is tried again later.
    Held,
    /// The command isn't given now: another one is between its two moves.
    Waits,
    /// A page that the command touches isn't mapped.
    NoPage,
    /// The first reply is the heap's, the second one that of the reference memory.
    Wrong(Reply, Reply),
    /// A new object would be made at this address, where a live object is.
    Overlaps(u32),
    /// An object is freed in the group of this number, which was looked up before and doesn't exist any more. The
    /// object's slot is never free again.
    GroupGone(u32),
}
