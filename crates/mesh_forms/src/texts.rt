//! `mesh_text`.
ghost use Rattle.std.specs.Prelude.{◌≡◌, false};

use mesh_text::{
    DeviceFault, FaultKind, Job, ReadFault, ReplayError, Sink, Source, TextFault, read_file, replay,
};
use std::alloc::Global;

pub fn job(alloc: Global, bytes: &[u8]) -> Result<Job, Option<(u32, FaultKind)>> {
    match read_file(alloc, bytes) {
        Ok(job) => Ok(job),
        Err(ReadFault::Text(TextFault { line, kind })) => Err(Some((line, kind))),
        Err(ReadFault::Memory) => Err(None),
    }
}

pub fn place(kind: FaultKind) -> u32 {
    match kind {
        FaultKind::TooLong => 0,
        FaultKind::Trailing => 1,
        FaultKind::LongLine => 2,
        FaultKind::Cut => 3,
        FaultKind::Byte => 4,
        FaultKind::Word => 5,
        FaultKind::Number => 6,
        FaultKind::Hex => 7,
    }
}

pub fn replayed<I: Source, O: Sink>(
    alloc: Global,
    input: &mut I,
    output: &mut O,
) -> Result<(), Option<TextFault>>
    requires input { I.has_failed input.old ≡ false }
    requires output { O.has_failed output.old ≡ false }
{
    match replay(alloc, input, output) {
        Ok(()) => Ok(()),
        Err(ReplayError::Text(fault)) => Err(Some(fault)),
        Err(ReplayError::Read | ReplayError::Write | ReplayError::Memory) => Err(None),
    }
}

pub fn read<I: Source>(input: &mut I, buf: &mut [u8]) -> Result<usize, DeviceFault> {
    input.read(buf)
}

pub fn write<O: Sink>(output: &mut O, bytes: &[u8]) -> Result<usize, DeviceFault> {
    output.write(bytes)
}
