//! A judge of the overlapping accesses to one object, which sets parts of the object aside.
//!
//! If stores to one range overlap in time, and no later access tells which store had its effect last, the bytes of the
//! range stay undecided. A `PartedJudge` keeps such a range aside, as a part of its own, until an access conflicts with
//! it. So n undecided ranges take 2n stores, and not 2^n configurations.
//!
//! An `AllocError` means that an allocation failed.
#![tactic(auto)]

mod judge;
mod part;
mod parts;
mod product;
mod split;

pub use judge::PartedJudge;
