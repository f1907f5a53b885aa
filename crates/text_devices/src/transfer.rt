//! Single calls of a device, and calls until a whole text is written.
ghost use Rattle.std.specs.Prelude.{◌≡◌, ◌<◌, ◌≤◌, ◌||◌, false, length, take, is_err, IfOk, IfErr, OnOk, OnErr};
ghost use Rattle.std.specs.Io.KnownBytes.{Appends, Consumes, IsAtEnd};
ghost use Rattle.text_devices.specs.Transfer.{AppendsBeginning};

use crate::{DeviceFault, ReplayError, Sink, Source};

/// Makes one call that reads bytes into the front of `buf`. Returns the number of these bytes. The error is `Read` if
/// the call failed.
pub fn read_some<I: Source>(input: &mut I, buf: &mut [u8]) -> Result<usize, ReplayError>
    requires { I.has_failed input.old ≡ false }
    ensures within { IfOk result (λ count. count ≤ length buf.new) }
    ensures bytes { IfOk result
        (λ count. Consumes (I.remaining input.old) (I.remaining input.new) (take count buf.new)) }
    ensures end { IfOk result (λ count. count ≡ 0 → 0 < length buf.new → IsAtEnd (I.remaining input.new)) }
    ensures fault { IfErr result (λ error. error ≡ ReplayError.Read) }
    ensures fails { I.has_failed input.new ≡ is_err result }
{
    let room = buf.len();
    match input.read(buf) {
        Ok(count) if count <= room => Ok(count),
        _ => Err(ReplayError::Read),
    }
}

/// Writes all the bytes, by repeated calls of the output. If a call fails, returns an error. A beginning of the bytes
/// was then written.
pub fn write_all<O: Sink>(output: &mut O, bytes: &[u8]) -> Result<(), DeviceFault>
    ensures ok { OnOk result (Appends (O.written output.old) (O.written output.new) bytes.now) }
    ensures err { OnErr result (AppendsBeginning (O.written output.old) (O.written output.new) bytes.now) }
    ensures fails { O.has_failed output.new ≡ is_err result || O.has_failed output.old }
{
    let mut done = 0;
    while done < bytes.len() {
        done += write_some(output, &bytes[done..])?;
    }
    Ok(())
}

/// Writes lines of text. The error is `Write` if a call of the output failed. A beginning of the lines was then
/// written.
pub fn write_lines<O: Sink>(output: &mut O, lines: &[u8]) -> Result<(), ReplayError>
    requires { O.has_failed output.old ≡ false }
    ensures ok { OnOk result (Appends (O.written output.old) (O.written output.new) lines.now) }
    ensures err { OnErr result (AppendsBeginning (O.written output.old) (O.written output.new) lines.now) }
    ensures fault { IfErr result (λ error. error ≡ ReplayError.Write) }
    ensures fails { O.has_failed output.new ≡ is_err result }
{
    write_all(output, lines).map_err(|_| ReplayError::Write)
}

/// Makes one call that writes bytes. Returns the number of bytes that the output accepted. If the call failed, returns
/// an error.
fn write_some<O: Sink>(output: &mut O, bytes: &[u8]) -> Result<usize, DeviceFault>
    requires { 0 < length bytes.now }
    ensures some { IfOk result (λ count. 0 < count) }
    ensures within { IfOk result (λ count. count ≤ length bytes.now) }
    ensures ok { IfOk result (λ count. Appends (O.written output.old) (O.written output.new) (take count bytes.now)) }
    ensures err { OnErr result (AppendsBeginning (O.written output.old) (O.written output.new) bytes.now) }
    ensures fails { O.has_failed output.new ≡ is_err result || O.has_failed output.old }
{
    match output.write(bytes) {
        Ok(0) => Err(DeviceFault),
        Ok(count) if count <= bytes.len() => Ok(count),
        _ => Err(DeviceFault),
    }
}
