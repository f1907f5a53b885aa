//! Moves reads from the seats' calls to the history.
ghost use Rattle.std.specs.Prelude.{◌≡◌, ◌↔◌, ℕ, ◌^◌, ◌<◌, ◌≤◌, IfOk, IsTrue, true, None, length};
ghost use Rattle.std.specs.List.{All};
ghost use Rattle.model_words.specs.Commands.{IsInRange};
ghost use Rattle.model_memory.specs.Reads.{is_read, read_reply};
ghost use Rattle.mesh_lock.specs.Seat.{IsKept};
ghost use Rattle.mesh_lock.specs.Walk.{AreLeft, AreTaken, IsTakenTo, StopsAt};

use crate::kept::Kept;
use crate::rest::Rest;
use mesh_mutator::Entry;
use mesh_plain::Plain;
use std::alloc::AllocError;

/// Moves the reads that saw `n` entries from all seats to the history, lower seats first, up to the first wrong read.
/// Returns the seat of the wrong read, or `None` if no read is wrong. The only error is an allocation failure.
pub fn take_all<'a>(
    plain: &Plain,
    n: u32,
    rests: &mut [Rest<'a>],
    history: &mut Vec<Entry>,
) -> Result<Option<usize>, AllocError>
    requires few { length rests.old < 2 ^ 32 }
    ensures length { length rests.new ≡ length rests.old }
    ensures left { IfOk result (λ wrong. AreLeft n plain.now rests.old rests.new wrong) }
    ensures taken { IfOk result
        (λ wrong. wrong ≡ None → AreTaken n 0 plain.now rests.old rests.new history.old.items history.new.items) }
{
    for w in 0..rests.len() {
        let (calls, wrong) = take_reads(plain, w as u32, n, rests[w].calls(), history)?;
        rests[w] = Rest::of(calls);
        if wrong {
            return Ok(Some(w));
        }
    }
    Ok(None)
}

/// Moves the reads that saw `n` entries from the front of a seat's calls to the history. Stops before a recorded call,
/// a read that saw more entries, or a wrong read.
///
/// A read is wrong if it saw fewer entries, or if the reference memory answers otherwise. Returns the remaining calls,
/// and whether the first of them is a wrong read. The only error is an allocation failure.
fn take_reads<'a>(
    plain: &Plain,
    worker: u32,
    n: u32,
    calls: &'a [Kept],
    history: &mut Vec<Entry>,
) -> Result<(&'a [Kept], bool), AllocError>
    requires { All IsKept calls.now }
    ensures taken { IfOk result
        (λ left. IsTakenTo n worker plain.now calls.now left.0.now history.old.items history.new.items) }
    ensures stops { IfOk result (λ left. StopsAt n plain.now left.1 left.0.now) }
    ensures kept { IfOk result (λ left. All IsKept left.0.now) }
{
    let mut rest = calls;
    while let Some((kept, tail)) = rest.split_first() {
        let Some(seen) = kept.seen else {
            return Ok((rest, false));
        };
        if seen > n {
            return Ok((rest, false));
        }
        if seen < n || !answers(plain, kept) {
            return Ok((rest, true));
        }
        history.push(Entry::of(worker, &kept.command, &kept.reply))?;
        rest = tail;
    }
    Ok((rest, false))
}

/// Whether the read's reply is that of the reference memory.
fn answers(plain: &Plain, kept: &Kept) -> bool
    requires read { is_read kept.now.command ≡ true }
    requires range { IsInRange kept.now.command }
    ensures { IsTrue result ↔ (kept.now.reply ≡ read_reply plain.now kept.now.command) }
{
    kept.reply == plain.look(&kept.command)
}
