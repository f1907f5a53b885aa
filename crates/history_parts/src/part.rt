//! `Part`, a part of an object that is set aside.
use history_object::Access;

/// A part of an object that is set aside: stores, of which one has its effect. Nothing tells which.
#[derive(Drop)]
pub struct Part {
    /// The stores.
    pub stores: Vec<Access>,
}
