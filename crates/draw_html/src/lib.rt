//! The page that steps through frames of a heap in a browser.
//!
//! A page is a constant template around a title and the text of frames. `start_page` appends what comes before the
//! frames, `add_escaped` a part of the frames' text, and `end_page` what comes behind the frames.
//!
//! An `AllocError` means that an allocation failed; a beginning of the text may then be appended.
#![tactic(auto)]

mod escapes;
mod page;
mod template;

pub use escapes::add_escaped;
pub use page::{end_page, start_page};
