//! `Refutation`, the reason for which no configuration is left at the end of a call.
use crate::calls::Calls;
use crate::configuration::Configuration;
use states_pool::Pool;

/// The reason for which no configuration is left at the end of a call: the call, and the configurations that were met.
/// In none of these configurations can the call have its effect with the recorded answer.
#[derive(Drop)]
pub struct Refutation<O: Calls> {
    /// The call that ended.
    pub call: O::Call,
    /// The configurations that were met: the kept ones, and those that effects of pending calls produce from the kept
    /// ones.
    pub met: Pool<Configuration<O::State>>,
}
