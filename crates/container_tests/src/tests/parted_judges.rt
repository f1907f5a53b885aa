//! The judge of parts, compared with the timed judge of the whole object.
ghost use Rattle.std.specs.Prelude.{◌<◌};

use crate::tests::bytes::bytes_of;
use history_object::{Access, ObjectAccesses, ObjectBytes, TimedJudge};
use history_parts::PartedJudge;
use std::alloc::Global;

/// The number of bytes of the object.
const LEN: usize = 6;

/// The number of accesses that may be pending at once.
const THREADS: usize = 4;

/// Pseudorandom numbers.
#[derive(Drop)]
struct Source {
    state: u64,
}

impl Source {
    /// Returns the next number below `below`.
    fn next(&mut self, below: u64) -> u64
        requires { 0 < below }
        ensures { result < below }
    {
        self.state ^= self.state << 13;
        self.state ^= self.state >> 7;
        self.state ^= self.state << 17;
        (self.state >> 8) % below
    }
}

/// Returns a store of one byte. Returns `None` if an allocation fails.
fn store(alloc: Global, off: u64, byte: u8) -> Option<Access> {
    Some(Access::Store(off, bytes_of(alloc, &[byte])?))
}

/// Returns a load of one byte. Returns `None` if an allocation fails.
fn load(alloc: Global, off: u64, byte: u8) -> Option<Access> {
    Some(Access::Load(off, 1, bytes_of(alloc, &[byte])?))
}

/// The two judges, and the bytes if each access has its effect as it begins.
#[derive(Drop)]
struct Pair {
    whole: TimedJudge<ObjectAccesses>,
    parted: PartedJudge,
    bytes: [u8; LEN],
    open: [Option<u32>; THREADS],
    begun: u32,
}

/// Begins a random access in both judges, which has its effect in the bytes at once. One of 40 loaded bytes is another
/// one.
fn begin(alloc: Global, pair: &mut Pair, source: &mut Source, thread: usize) -> Option<()>
    requires { thread < 4 }
{
    let len = 1 + source.next(2) as usize;
    let off = source.next(LEN as u64 - 1) as usize;
    let stores = source.next(3) > 0;
    let mut answer = Vec::new(alloc);
    for byte in pair.bytes[off..off + len].iter_mut() {
        if stores {
            *byte = source.next(3) as u8;
        }
        let wrong = !stores && source.next(40) == 0;
        answer.push(*byte ^ wrong as u8).ok()?;
    }
    let bytes = bytes_of(alloc, answer.as_slice())?;
    let access = if stores {
        Access::Store(off as u64, bytes)
    } else {
        Access::Load(off as u64, len as u32, bytes)
    };
    let number = pair.begun;
    pair.begun = number.wrapping_add(1);
    if pair.whole.is_open(number) || pair.parted.is_open(number) {
        return None;
    }
    let copy = access.clone().ok()?;
    pair.whole.begin(number, copy).ok()?;
    pair.parted.begin(number, access).ok()?;
    pair.open[thread] = Some(number);
    Some(())
}

/// Ends an access in both judges. Returns whether the two judges explain it.
fn end(alloc: Global, pair: &mut Pair, number: u32) -> Option<(bool, bool)> {
    if !pair.whole.is_open(number) || !pair.parted.is_open(number) {
        return None;
    }
    let whole = pair.whole.end(alloc, number, 100_000).ok()?.is_none();
    let parted = pair.parted.end(alloc, number, 100_000).ok()?.is_none();
    Some((whole, parted))
}

/// Judges a random history of `steps` events. Returns whether the last access was explained. Returns `None` if the two
/// judges differ, or one of them fails.
fn judged(alloc: Global, seed: u64, steps: u32) -> Option<bool> {
    let mut source = Source { state: seed };
    let mut pair = Pair {
        whole: TimedJudge::new(alloc, ObjectBytes::new(alloc, LEN as u64)).ok()?,
        parted: PartedJudge::new(alloc, LEN as u64).ok()?,
        bytes: [0; LEN],
        open: [None; THREADS],
        begun: 0,
    };
    for _step in 0..steps {
        let thread = source.next(THREADS as u64) as usize;
        let Some(number) = pair.open[thread] else {
            begin(alloc, &mut pair, &mut source, thread)?;
            continue;
        };
        pair.open[thread] = None;
        let (whole, parted) = end(alloc, &mut pair, number)?;
        if whole != parted {
            return None;
        }
        if !whole {
            return Some(false);
        }
    }
    Some(true)
}

#[test]
fn judges_agree_on_random_histories(rt: HostRuntime) {
    let mut explained: u32 = 0;
    let mut refuted: u32 = 0;
    for seed in 1..151 {
        match judged(rt.alloc(), seed * 7919, 40) {
            Some(true) => explained = explained.wrapping_add(1),
            Some(false) => refuted = refuted.wrapping_add(1),
            None => assert!(rt; false, "history {seed}"),
        }
    }
    assert!(rt;
        explained > 20 && refuted > 20,
        "{explained} explained, {refuted} refuted"
    );
}

/// Two stores to each of 40 bytes overlap. Then each byte is loaded: it is 1 in the even places and 2 in the odd ones,
/// but for the last one, which is `last`. Returns whether all loads are explained.
fn races(alloc: Global, most: usize, last: u8) -> Option<bool> {
    let mut judge = PartedJudge::new(alloc, 40).ok()?;
    for off in 0..40 {
        if judge.is_open(1) || judge.is_open(2) {
            return None;
        }
        judge.begin(1, store(alloc, off, 1)?).ok()?;
        if judge.is_open(2) {
            return None;
        }
        judge.begin(2, store(alloc, off, 2)?).ok()?;
        for number in 1..3 {
            if !judge.is_open(number) || judge.end(alloc, number, most).ok()?.is_some() {
                return None;
            }
        }
    }
    for off in 0..40 {
        if judge.is_open(3) {
            return None;
        }
        let byte = if off == 39 { last } else { 1 + (off % 2) as u8 };
        judge.begin(3, load(alloc, off, byte)?).ok()?;
        if !judge.is_open(3) {
            return None;
        }
        if judge.end(alloc, 3, most).ok()?.is_some() {
            return Some(false);
        }
    }
    Some(true)
}

#[test]
fn races_on_many_bytes_take_few_configurations(rt: HostRuntime) {
    for (most, last, expected) in [
        (6, 1, Some(true)),
        (6, 2, Some(true)),
        (6, 3, Some(false)),
        (2, 1, None),
    ] {
        assert!(rt; races(rt.alloc(), most, last) == expected, "{most} {last}");
    }
}

/// Returns a store of 4,096 bytes of this value from offset 100 on. Returns `None` if an allocation fails.
fn long_store(alloc: Global, value: u8) -> Option<Access> {
    let mut bytes = Vec::new(alloc);
    for _byte in 0..4096 {
        bytes.push(value).ok()?;
    }
    Some(Access::Store(100, bytes_of(alloc, bytes.as_slice())?))
}

/// Two stores of 4,096 bytes overlap. Then the last of these bytes is loaded. Returns whether the load is explained.
fn long_race(alloc: Global, last: u8) -> Option<bool> {
    let mut judge = PartedJudge::new(alloc, 5000).ok()?;
    for number in 1..3 {
        if judge.is_open(number) {
            return None;
        }
        judge.begin(number, long_store(alloc, number as u8)?).ok()?;
    }
    for number in 1..3 {
        if !judge.is_open(number) || judge.end(alloc, number, 6).ok()?.is_some() {
            return None;
        }
    }
    if judge.is_open(3) {
        return None;
    }
    judge.begin(3, load(alloc, 4195, last)?).ok()?;
    if !judge.is_open(3) {
        return None;
    }
    Some(judge.end(alloc, 3, 6).ok()?.is_none())
}

#[test]
fn long_stores_race(rt: HostRuntime) {
    for (last, expected) in [(1, true), (2, true), (3, false)] {
        assert!(rt; long_race(rt.alloc(), last) == Some(expected), "{last}");
    }
}
