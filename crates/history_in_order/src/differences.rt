//! The difference between an answer and the expected one.
ghost use Rattle.std.specs.Prelude.{◌≡◌, ◌≢◌, ◌↔◌, IfOk, IfSome, IsTrue, IsNone, IsSome};
ghost use Rattle.text_words.specs.RecordedWords.{plain_reply};
ghost use Rattle.history_in_order.specs.Differences.{IsFirst, bytes_of};
ghost use Rattle.history_in_order.specs.Reasons.{IsDifference, is_refusal};

use crate::reasons::{Difference, DifferentByte, LiveRefusal, Reason};
use history_reading::RecordedReply;
use std::alloc::AllocError;
use std::array;

/// Returns the reason to reject an answer that differs from the expected one: `LiveRefused` if the answer is a refusal
/// and the expected one isn't, and otherwise `Differs`.
pub fn difference(
    answered: RecordedReply,
    wanted: RecordedReply,
    byte: Option<DifferentByte>,
) -> Reason
    ensures { IsDifference answered wanted byte result }
{
    if is_refusal(&answered) && !is_refusal(&wanted) {
        return Reason::LiveRefused(LiveRefusal { answered, wanted });
    }
    Reason::Differs(Difference {
        answered,
        wanted,
        byte,
    })
}

/// Whether two replies are the same.
pub fn is_same(one: &RecordedReply, other: &RecordedReply) -> bool
    ensures { IsTrue result ↔ (plain_reply one.now ≡ plain_reply other.now) }
{
    one == other
}

/// Whether a reply is a refusal.
fn is_refusal(reply: &RecordedReply) -> bool
    ensures { result ≡ is_refusal (plain_reply reply.now) }
{
    matches!(reply, RecordedReply::Refused(_))
}

/// Returns a copy of a reply. Nothing is allocated, unless the reply has more than 32 bytes.
pub fn copied(reply: &RecordedReply) -> Result<RecordedReply, AllocError>
    ensures { IfOk result (λ copy. copy ≡ reply.now) }
{
    Ok(match reply {
        RecordedReply::Object(serial, address) => RecordedReply::Object(*serial, *address),
        RecordedReply::Done => RecordedReply::Done,
        RecordedReply::Bytes(bytes) => RecordedReply::Bytes(bytes.clone()?),
        RecordedReply::At(address) => RecordedReply::At(*address),
        RecordedReply::Byte(byte) => RecordedReply::Byte(*byte),
        RecordedReply::Refused(refusal) => RecordedReply::Refused(*refusal),
    })
}

/// Returns the bytes of a reply with bytes or with a byte. Any other reply has none.
pub fn bytes_of(reply: &RecordedReply) -> &[u8]
    ensures { result.now ≡ bytes_of (plain_reply reply.now) }
{
    match reply {
        RecordedReply::Bytes(bytes) => bytes.as_slice(),
        RecordedReply::Byte(byte) => array::from_ref(byte),
        _ => &[],
    }
}

/// Returns the first place at which two runs of bytes differ, among the places that both have. `None` if they don't
/// differ at such a place.
pub fn first_difference(one: &[u8], other: &[u8]) -> Option<usize>
    ensures { IsFirst one.now other.now result }
{
    one.iter().zip(other).position(|(x, y)| x != y)
}
