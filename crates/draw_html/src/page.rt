//! The page around the frames.
ghost use Rattle.std.specs.Prelude.{◌≡◌, ◌++◌, OnOk};
ghost use Rattle.draw_html.specs.Pages.{file_title_text, heading_text, page_end, page_start};

use crate::add_escaped;
use crate::template::{BEFORE_FRAMES, BEFORE_HEADING, BEFORE_TITLE, BEHIND_FRAMES};
use std::alloc::AllocError;

/// Appends the page before the frames. The title is the title of the file, and the page's heading.
#[tactic(auto, unfolding(crate::specs::Pages::page_start))]
pub fn start_page(text: &mut Vec<u8>, title: &[u8]) -> Result<(), AllocError>
    ensures { OnOk result (text.new.items ≡ text.old.items ++ page_start title.now) }
{
    add_file_title(text, title)?;
    add_heading(text, title)?;
    add_piece(text, BEFORE_FRAMES)
}

/// Appends the page up to the title of the file.
fn add_file_title(text: &mut Vec<u8>, title: &[u8]) -> Result<(), AllocError>
    ensures { OnOk result (text.new.items ≡ text.old.items ++ file_title_text title.now) }
{
    add_piece(text, BEFORE_TITLE)?;
    add_escaped(text, title)
}

/// Appends the page behind the title of the file, up to the heading.
fn add_heading(text: &mut Vec<u8>, heading: &[u8]) -> Result<(), AllocError>
    ensures { OnOk result (text.new.items ≡ text.old.items ++ heading_text heading.now) }
{
    add_piece(text, BEFORE_HEADING)?;
    add_escaped(text, heading)
}

/// Appends the page behind the frames.
#[tactic(auto, unfolding(crate::specs::Pages::page_end))]
pub fn end_page(text: &mut Vec<u8>) -> Result<(), AllocError>
    ensures { OnOk result (text.new.items ≡ text.old.items ++ page_end) }
{
    add_piece(text, BEHIND_FRAMES)
}

/// Appends a piece of the template.
fn add_piece(text: &mut Vec<u8>, piece: &str) -> Result<(), AllocError>
    ensures { OnOk result (text.new.items ≡ text.old.items ++ piece.now) }
{
    Ok(text.extend_from_slice(piece.as_bytes())?)
}
