//! `Flaw`: the reason why no order of effect explains a history.
use crate::possible::Unexplained;
use history_reading::RecordedReply;
use model_words::Refusal;

/// The reason why no order of effect explains a history: an answer that no allocator may give.
#[derive(Drop)]
pub enum Flaw {
    /// The serial of the new object was already given to an earlier object.
    SerialAgain,
    /// A `new` of 0 bytes has this answer. The only answer that an allocator may give to such a `new` is the refusal
    /// ZERO.
    NoByte(RecordedReply),
    /// A `new` of at least one byte was refused for this reason. No allocator may refuse a `new` of this length for
    /// this reason.
    StrangeRefusal(Refusal),
    /// `Overlaps(serial, number)`: the new object shares an address with a live object. The live object has this
    /// serial, and the call with this number made it.
    Overlaps(u32, u32),
    /// No order of the accesses to the object explains the answer.
    NoOrder(Unexplained),
}
