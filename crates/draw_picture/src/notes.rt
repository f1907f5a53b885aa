//! The titles for the name of a job file, and the note below them.
ghost use Rattle.std.specs.Prelude.{◌≡◌, ◌++◌, ◌≤◌, IfOk};
ghost use Rattle.draw_picture.specs.Notes.{file_title, header_text, lines_between, lines_text, note_text, shown_title};
ghost use Rattle.draw_svg.specs.Begins.{Begins};

use crate::gathering::cut;
use crate::picture::Header;
use draw_svg::words_of;
use std::alloc::{AllocError, Global};

/// The greatest number of bytes that are shown of a job file's name.
const MAX_NAME: usize = 64;

/// Returns the title of a file that shows a job, for the name of the job file. A long name is cut, and any byte of it
/// that isn't printable ASCII becomes a question mark. The only error is an allocation failure.
pub fn title_of(alloc: Global, name: &[u8]) -> Result<Vec<u8>, AllocError>
    ensures { IfOk result (λ title. title.items ≡ file_title name.now) }
{
    cut(alloc, b"Meshing in ", name, MAX_NAME)
}

/// Returns the name of a job file as it is shown: cut, and in printable ASCII. The only error is an allocation failure.
pub(crate) fn shown_name(alloc: Global, name: &[u8]) -> Result<Vec<u8>, AllocError>
    ensures { IfOk result (λ shown. shown.items ≡ shown_title name.now) }
{
    cut(alloc, b"", name, MAX_NAME)
}

/// Returns the numbers of the first and the last line from `first` on that come before line `next`, or `None` if there
/// is no such line.
pub(crate) fn lines_between(first: usize, next: usize) -> Option<(u32, u32)>
    requires { next ≤ 4294967296 }
    ensures { result ≡ lines_between first next }
{
    if first < next {
        Some((first as u32, (next - 1) as u32))
    } else {
        None
    }
}

/// Returns the note after a title: the values of the job's header, and the numbers of the first and the last line.
/// The only error is an allocation failure.
pub(crate) fn note_of(
    alloc: Global,
    header: Header,
    lines: Option<(u32, u32)>,
) -> Result<Vec<u8>, AllocError>
    ensures { IfOk result
        (λ note. Begins (note_text header.version header.pages header.workers lines) note.items) }
{
    let about = header_words(alloc, header)?;
    add_lines(alloc, about, lines)
}

/// Returns the values of a job's header as words.
#[tactic(auto, unfolding(crate::specs::Notes::header_text))]
fn header_words(alloc: Global, header: Header) -> Result<Vec<u8>, AllocError>
    ensures { IfOk result (λ words. words.items ≡ header_text header.version header.pages header.workers) }
{
    match header.workers {
        None => words_of(
            alloc,
            b"",
            "version #, # physical pages of 4096 bytes, a client",
            &[header.version, header.pages],
        ),
        Some(1) => words_of(
            alloc,
            b"",
            "version #, # physical pages of 4096 bytes, 1 worker",
            &[header.version, header.pages],
        ),
        Some(workers) => words_of(
            alloc,
            b"",
            "version #, # physical pages of 4096 bytes, # workers",
            &[header.version, header.pages, workers],
        ),
    }
}

/// Returns words with the numbers of the first and the last line after them, if there are lines.
#[tactic(auto, unfolding(crate::specs::Notes::lines_text))]
fn add_lines(
    alloc: Global,
    words: Vec<u8>,
    lines: Option<(u32, u32)>,
) -> Result<Vec<u8>, AllocError>
    ensures { IfOk result (λ all. all.items ≡ words.items ++ lines_text lines) }
{
    match lines {
        None => Ok(words),
        Some((first, last)) => {
            words_of(
                alloc,
                words.as_slice(),
                "; plan lines # to #",
                &[first, last],
            )
        }
    }
}
