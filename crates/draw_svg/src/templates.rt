//! Words with numbers in them.
ghost use Rattle.std.specs.Prelude.{◌≡◌, ◌++◌, IfOk};
ghost use Rattle.draw_svg.specs.Templates.{filled};

use crate::writer::write_number;
use std::alloc::{AllocError, Global};

/// Returns the bytes `first`, and then the template. Each `#` of the template is replaced by the next of the numbers.
/// If there are no more numbers, it stays. The only error is an allocation failure.
pub fn words_of(
    alloc: Global,
    first: &[u8],
    template: &str,
    numbers: &[u32],
) -> Result<Vec<u8>, AllocError>
    ensures { IfOk result (λ words. words.items ≡ first.now ++ filled template.now numbers.now) }
{
    let mut words = Vec::new(alloc);
    words.extend_from_slice(first)?;
    let mut next = 0;
    for byte in template.as_bytes() {
        if *byte == b'#' && next < numbers.len() {
            write_number(&mut words, numbers[next])?;
            next += 1;
        } else {
            words.push(*byte)?;
        }
    }
    Ok(words)
}
