//! `Pending`: what must be done at the end of a call.
use crate::objects::NewObject;
use model_words::Refusal;

/// The work to do at the end of a call that has begun.
#[derive(Clone, Copy)]
pub enum Pending {
    /// A `new` made this object.
    Made(NewObject),
    /// `Refused(len, refusal)`: a `new` of this length was refused.
    Refused(u64, Refusal),
    /// An object was freed.
    Free,
    /// The object of this cell was accessed.
    Access(u32),
}
