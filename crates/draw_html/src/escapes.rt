//! The text of a page's elements, with markup escaped.
ghost use Rattle.std.specs.Prelude.{◌≡◌, ◌++◌, OnOk};
ghost use Rattle.draw_html.specs.Pages.{escaped, escaped_byte};

use std::alloc::AllocError;

/// Appends bytes, with `&`, `<`, `>` and `"` as character references.
pub fn add_escaped(text: &mut Vec<u8>, bytes: &[u8]) -> Result<(), AllocError>
    ensures { OnOk result (text.new.items ≡ text.old.items ++ escaped bytes.now) }
{
    for byte in bytes {
        add_byte(text, *byte)?;
    }
    Ok(())
}

/// Appends one byte, escaped.
fn add_byte(text: &mut Vec<u8>, byte: u8) -> Result<(), AllocError>
    ensures { OnOk result (text.new.items ≡ text.old.items ++ escaped_byte byte) }
{
    match byte {
        b'&' => text.extend_from_slice(b"&amp;")?,
        b'<' => text.extend_from_slice(b"&lt;")?,
        b'>' => text.extend_from_slice(b"&gt;")?,
        b'"' => text.extend_from_slice(b"&quot;")?,
        _ => text.push(byte)?,
    }
    Ok(())
}
