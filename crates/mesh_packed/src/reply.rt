//! Replies without their bytes.
ghost use Rattle.std.specs.Prelude.{◌≡◌, ◌++◌, length};
ghost use Rattle.mesh_packed.specs.Packed.{IsReplyWithin, bytes_of_reply, reply_in};
ghost use Rattle.mesh_packed.specs.Runs.{HasRoom, IsKeptOn};

use crate::run::{Run, bytes_of, keep};
use model_words::{Refusal, Reply};

/// A reply without its bytes, in 12 bytes.
#[derive(Drop)]
pub enum PackedReply {
    /// `Object(serial, addr)`.
    Object(u32, u32),
    /// `Done`.
    Done,
    /// `Bytes(run)`: the reply has the bytes of the run.
    Bytes(Run),
    /// `At(addr)`.
    At(u32),
    /// `Byte(byte)`.
    Byte(u8),
    /// `Refused(refusal)`.
    Refused(Refusal),
}

/// Packs a reply. Appends the reply's bytes, at most 32, to the kept bytes, which must have room for them.
pub fn pack_reply(kept: &mut Vec<u8>, reply: &Reply) -> PackedReply
    requires { HasRoom kept.old }
    ensures reply { reply_in kept.new.items result ≡ reply.now }
    ensures within { IsReplyWithin (length kept.new.items) result }
    ensures kept { IsKeptOn kept.old kept.new }
    ensures grows { kept.new.items ≡ kept.old.items ++ bytes_of_reply reply.now }
{
    match reply {
        Reply::Object(serial, addr) => PackedReply::Object(*serial, *addr),
        Reply::Done => PackedReply::Done,
        Reply::Bytes(bytes) => PackedReply::Bytes(keep(kept, bytes)),
        Reply::At(addr) => PackedReply::At(*addr),
        Reply::Byte(byte) => PackedReply::Byte(*byte),
        Reply::Refused(refusal) => PackedReply::Refused(*refusal),
    }
}

/// Returns the reply that was packed. The call allocates nothing.
pub fn unpack_reply(kept: &[u8], reply: &PackedReply) -> Reply
    requires { IsReplyWithin (length kept.now) reply.now }
    ensures { result ≡ reply_in kept.now reply.now }
{
    match reply {
        PackedReply::Object(serial, addr) => Reply::Object(*serial, *addr),
        PackedReply::Done => Reply::Done,
        PackedReply::Bytes(run) => Reply::Bytes(bytes_of(kept, *run)),
        PackedReply::At(addr) => Reply::At(*addr),
        PackedReply::Byte(byte) => Reply::Byte(*byte),
        PackedReply::Refused(refusal) => Reply::Refused(*refusal),
    }
}
