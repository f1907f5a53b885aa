//! The forms in which the text of points is written.
ghost use Rattle.std.specs.Prelude.{◌≡◌, Err, false, true, IfErr, OnOk};
ghost use Rattle.std.specs.Io.KnownBytes.{Appends};
ghost use Rattle.draw_html.specs.Pages.{escaped};
ghost use Rattle.draw_job.specs.Forms.{HasStoppedIn, formed};

use draw_html::add_escaped;
use std::alloc::Global;
use text_devices::{ReplayError, Sink, write_lines};

/// The form in which the text of points is written.
#[derive(Clone, Copy)]
pub(crate) enum Form {
    /// The text itself.
    Plain,
    /// The text as part of a page, escaped.
    Escaped,
}

/// Writes a text in a form. The error is Memory if an allocation failed; nothing was written then. The error is Write
/// if the output failed.
pub(crate) fn write_formed<O: Sink>(
    alloc: Global,
    text: &[u8],
    form: Form,
    output: &mut O,
) -> Result<(), ReplayError>
    requires { O.has_failed output.old ≡ false }
    ensures ok { OnOk result (O.has_failed output.new ≡ false) }
    ensures wrote { OnOk result (Appends (O.written output.old) (O.written output.new) (formed form text.now)) }
    ensures stopped { IfErr result
        (HasStoppedIn (formed form text.now) (O.written output.old) (O.written output.new)) }
    ensures write { result ≡ Err ReplayError.Write → O.has_failed output.new ≡ true }
    ensures memory { result ≡ Err ReplayError.Memory → O.has_failed output.new ≡ false }
{
    match form {
        Form::Plain => write_whole(text, output),
        Form::Escaped => write_escaped(alloc, text, output),
    }
}

/// Writes a text, escaped.
fn write_escaped<O: Sink>(alloc: Global, text: &[u8], output: &mut O) -> Result<(), ReplayError>
    requires { O.has_failed output.old ≡ false }
    ensures ok { OnOk result (O.has_failed output.new ≡ false) }
    ensures wrote { OnOk result (Appends (O.written output.old) (O.written output.new) (escaped text.now)) }
    ensures stopped { IfErr result (HasStoppedIn (escaped text.now) (O.written output.old) (O.written output.new)) }
    ensures write { result ≡ Err ReplayError.Write → O.has_failed output.new ≡ true }
    ensures memory { result ≡ Err ReplayError.Memory → O.has_failed output.new ≡ false }
{
    let mut bytes = Vec::new(alloc);
    add_escaped(&mut bytes, text)?;
    write_whole(bytes.as_slice(), output)
}

/// Writes bytes. The only error is Write.
pub(crate) fn write_whole<O: Sink>(bytes: &[u8], output: &mut O) -> Result<(), ReplayError>
    requires { O.has_failed output.old ≡ false }
    ensures ok { OnOk result (O.has_failed output.new ≡ false) }
    ensures wrote { OnOk result (Appends (O.written output.old) (O.written output.new) bytes.now) }
    ensures stopped { IfErr result (HasStoppedIn bytes.now (O.written output.old) (O.written output.new)) }
    ensures write { result ≡ Err ReplayError.Write → O.has_failed output.new ≡ true }
    ensures memory { result ≡ Err ReplayError.Memory → O.has_failed output.new ≡ false }
{
    write_lines(output, bytes)
}
