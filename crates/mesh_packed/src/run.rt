//! `Run`, the range in which the bytes of a command or a reply are kept.
ghost use Rattle.std.specs.Prelude.{◌≡◌, ◌++◌, length};
ghost use Rattle.arrayvec.specs.ArrayVec.{array_vec_len};
ghost use Rattle.mesh_packed.specs.Runs.{HasRoom, IsKeptOn, IsRunWithin, run_in};

use arrayvec::ArrayVec;
use model_words::MAX_BYTES;

/// A range in the list of kept bytes: the `len` bytes that begin at `place`.
#[derive(Clone, Copy)]
pub struct Run {
    /// The place of the first byte.
    pub place: u32,
    /// The number of bytes, at most 32.
    pub len: u8,
}

/// Appends at most 32 bytes to the list, and returns their run. The list must have room for them.
pub(crate) fn keep(kept: &mut Vec<u8>, bytes: &ArrayVec<u8, MAX_BYTES>) -> Run
    requires { HasRoom kept.old }
    ensures bytes { run_in kept.new.items result ≡ bytes.now }
    ensures within { IsRunWithin (length kept.new.items) result }
    ensures kept { IsKeptOn kept.old kept.new }
    ensures grows { kept.new.items ≡ kept.old.items ++ bytes.now.items }
{
    let run = Run {
        place: kept.len() as u32,
        len: bytes.len() as u8,
    };
    kept.extend_from_slice(bytes.as_slice()).unwrap();
    run
}

/// Returns the bytes of a run.
pub(crate) fn bytes_of(kept: &[u8], run: Run) -> ArrayVec<u8, MAX_BYTES>
    requires { IsRunWithin (length kept.now) run }
    ensures { result ≡ run_in kept.now run }
{
    let start = run.place as usize;
    let mut bytes = ArrayVec::new();
    bytes
        .try_extend_from_slice(&kept[start..start + usize::from(run.len)])
        .unwrap();
    bytes
}
