//! Commands and replies in few bytes. The bytes that they store or load are kept in a separate list.
//!
//! Most commands and replies have no such bytes. A packed command takes 16 bytes, a packed reply 12, and a `Command`
//! 48. The kept bytes are in one list, in the order of packing, and never change. Scripts and the journal are stored in
//!     this way. In contracts, a packed command is the command to which it is unpacked (`specs/Packed.antt`).
#![tactic(auto)]

mod command;
mod reply;
mod run;

pub use command::{PackedCommand, pack_command, unpack_command};
pub use model_words::{Command, MAX_BYTES, Refusal, Reply};
pub use reply::{PackedReply, pack_reply, unpack_reply};
pub use run::Run;
