//! The bytes of objects, and a judge of accesses to them.
use crate::tests::bytes::bytes_of;
use history_object::{Access, Calls, Judge, ObjectAccesses, ObjectBytes};
use states_pool::Value;
use std::alloc::Global;

/// Returns the state after a store. Returns `None` if the store ends past the object's end, or if an allocation fails.
fn stored(alloc: Global, state: &ObjectBytes, off: u64, bytes: &[u8]) -> Option<ObjectBytes> {
    let store = Access::Store(off, bytes_of(alloc, bytes)?);
    ObjectAccesses::effect(alloc, state, &store).ok()?
}

/// Returns the state of an object of `len` zeros after stores of two equal bytes each. The result is `None` if that of
/// `stored` is.
fn with_pairs(alloc: Global, len: u64, stores: &[(u64, u8)]) -> Option<ObjectBytes> {
    let mut state = ObjectBytes::new(alloc, len);
    for (off, byte) in stores {
        state = stored(alloc, &state, *off, &[*byte, *byte])?;
    }
    Some(state)
}

/// Whether the same stores in two orders give the same state. Returns `None` if an allocation fails, or if a store ends
/// past the object's end.
fn are_same(alloc: Global, one: &[(u64, u8)], other: &[(u64, u8)]) -> Option<bool> {
    let one = with_pairs(alloc, 300, one)?;
    let other = with_pairs(alloc, 300, other)?;
    Some(one.is_same(&other))
}

#[test]
fn the_order_of_stores_to_other_bytes_is_not_kept(rt: HostRuntime) {
    let same = are_same(
        rt.alloc(),
        &[(63, 1), (200, 2), (10, 3)],
        &[(10, 3), (63, 1), (200, 2)],
    );
    assert!(rt; same == Some(true));
}

/// Whether a load finds two bytes at the end of an object of 2^64 - 1 bytes after their store. Returns `None` if an
/// allocation fails, or if the store or the load has no effect.
fn last_bytes_found(alloc: Global) -> Option<bool> {
    let longest = 0xffff_ffff_ffff_ffff;
    let state = with_pairs(alloc, longest, &[(longest - 2, 7)])?;
    let load = Access::Load(longest - 4, 4, bytes_of(alloc, &[0, 0, 7, 7])?);
    let after = ObjectAccesses::effect(alloc, &state, &load).ok()??;
    Some(after.is_same(&state))
}

#[test]
fn the_longest_object_takes_little_memory(rt: HostRuntime) {
    assert!(rt; last_bytes_found(rt.alloc()) == Some(true));
}

/// Returns 4,096 bytes: 1 to 251, again and again, with 0 at the place `zero`. Returns `None` if an allocation fails.
fn long_bytes(alloc: Global, zero: u32) -> Option<Vec<u8>> {
    let mut bytes = Vec::new(alloc);
    for place in 0..4096 {
        let byte = if place == zero {
            0
        } else {
            (place % 251) as u8 + 1
        };
        bytes.push(byte).ok()?;
    }
    Some(bytes)
}

/// Returns an object of 5,000 bytes after a store of 4,096 bytes from offset 100 on, which is within a chunk. Returns
/// `None` if an allocation fails.
fn long_stored(alloc: Global) -> Option<ObjectBytes> {
    let bytes = long_bytes(alloc, 4096)?;
    stored(alloc, &ObjectBytes::new(alloc, 5000), 100, bytes.as_slice())
}

/// Whether a load of these bytes has an effect. Returns `None` if an allocation fails, or if there are more than 4,096.
fn is_loaded(alloc: Global, state: &ObjectBytes, off: u64, bytes: &[u8]) -> Option<bool> {
    let found = bytes_of(alloc, bytes)?;
    let load = Access::Load(off, found.len() as u32, found);
    let next = ObjectAccesses::effect(alloc, state, &load).ok()?;
    Some(next.is_some())
}

/// Whether a load of all bytes that `long_stored` stores has an effect, if it found 0 at the place `zero`. Returns
/// `None` if an allocation fails.
fn is_long_loaded(alloc: Global, zero: u32) -> Option<bool> {
    let bytes = long_bytes(alloc, zero)?;
    is_loaded(alloc, &long_stored(alloc)?, 100, bytes.as_slice())
}

#[test]
fn an_access_has_up_to_4096_bytes(rt: HostRuntime) {
    assert!(rt; is_long_loaded(rt.alloc(), 4096) == Some(true));
    // the first and the last byte in the first chunk, in the second, and in the last
    for zero in [0, 27, 28, 91, 4060, 4095] {
        assert!(rt; is_long_loaded(rt.alloc(), zero) == Some(false), "{zero}");
    }
}

#[test]
fn a_long_store_changes_its_bytes_only(rt: HostRuntime) {
    let state = long_stored(rt.alloc()).expect(&rt, "memory");
    // at both ends of the store, at the ends of two chunks, and where the bytes begin again
    for (off, bytes) in [
        (99, [0, 1, 2]),
        (126, [27, 28, 29]),
        (350, [251, 1, 2]),
        (4159, [44, 45, 46]),
        (4194, [79, 80, 0]),
    ] {
        let is = is_loaded(rt.alloc(), &state, off, &bytes);
        assert!(rt; is == Some(true), "{off}");
    }
}

/// Whether an access has an effect on an object of 8 zeros. Returns `None` if an allocation fails.
fn has_effect(alloc: Global, access: &Access) -> Option<bool> {
    let state = ObjectBytes::new(alloc, 8);
    let next = ObjectAccesses::effect(alloc, &state, access).ok()?;
    Some(next.is_some())
}

/// Whether each of four accesses has an effect on an object of 8 zeros: an access to no byte, a request that was
/// answered with another address, a store past the object's end, and a load that found another byte. Returns `None` if
/// an allocation fails.
fn effects(alloc: Global) -> Option<[bool; 4]> {
    Some([
        has_effect(alloc, &Access::Nothing)?,
        has_effect(alloc, &Access::Elsewhere(4096))?,
        has_effect(alloc, &Access::Store(8, bytes_of(alloc, &[1])?))?,
        has_effect(alloc, &Access::Load(7, 1, bytes_of(alloc, &[1])?))?,
    ])
}

#[test]
fn a_refused_access_is_no_error(rt: HostRuntime) {
    assert!(rt; effects(rt.alloc()) == Some([true, false, false, false]));
}

/// Records the end of the call at a place, at which at most `most` configurations may be met. Returns whether some
/// configuration is left. Returns `None` if no call is pending at the place, or if the judge returned an error.
fn end_within(
    alloc: Global,
    judge: &mut Judge<ObjectAccesses>,
    place: usize,
    most: usize,
) -> Option<bool> {
    if !judge.is_pending(place) {
        return None;
    }
    Some(judge.end(alloc, place, most).ok()?.is_none())
}

/// Records the end of the call at a place. The result is that of `end_within`, with at most 100 configurations.
fn end(alloc: Global, judge: &mut Judge<ObjectAccesses>, place: usize) -> Option<bool> {
    end_within(alloc, judge, place, 100)
}

/// Records the begin and the end of a load of bytes 63 and 64, which found zeros. The result is that of `end`.
fn load_zeros(alloc: Global, judge: &mut Judge<ObjectAccesses>) -> Option<bool> {
    let load = Access::Load(63, 2, bytes_of(alloc, &[0, 0])?);
    let place = judge.begin(load).ok()?;
    end(alloc, judge, place)
}

/// Records a store to bytes 62 to 65, a load that overlaps the store, and a load after the store. Both loads found
/// zeros. Returns whether some configuration is left after each end. The result is `None` if an end gave `None`.
fn ends(alloc: Global, judge: &mut Judge<ObjectAccesses>) -> Option<[bool; 3]> {
    let store = Access::Store(62, bytes_of(alloc, &[1, 2, 3, 4])?);
    let place = judge.begin(store).ok()?;
    let overlapping = load_zeros(alloc, judge)?;
    let stored = end(alloc, judge, place)?;
    Some([overlapping, stored, load_zeros(alloc, judge)?])
}

#[test]
fn a_judge_follows_the_bytes(rt: HostRuntime) {
    let start = ObjectBytes::new(rt.alloc(), 100);
    let mut judge = Judge::new(rt.alloc(), start).expect(&rt, "memory");
    assert!(rt; ends(rt.alloc(), &mut judge) == Some([true, true, false]));
}

/// Creates a judge of 100 zeros. Returns `None` if an allocation fails.
fn new_judge(alloc: Global) -> Option<Judge<ObjectAccesses>> {
    Judge::new(alloc, ObjectBytes::new(alloc, 100)).ok()
}

/// Records the end of a store to the first byte among forty loads of this byte that found zero. At the end four
/// configurations are met: with the store before all loads, with it behind them, with the loads alone, and with none of
/// these. The result is that of `end_within`.
fn ended_among_loads(alloc: Global, most: usize) -> Option<bool> {
    let mut judge = new_judge(alloc)?;
    let place = judge.begin(Access::Store(0, bytes_of(alloc, &[1])?)).ok()?;
    for _load in 0..40 {
        let load = Access::Load(0, 1, bytes_of(alloc, &[0])?);
        let _place = judge.begin(load).ok()?;
    }
    end_within(alloc, &mut judge, place, most)
}

#[test]
fn pending_loads_have_their_effects_at_once(rt: HostRuntime) {
    assert!(rt; ended_among_loads(rt.alloc(), 4) == Some(true));
    assert!(rt; ended_among_loads(rt.alloc(), 3) == None);
}

/// Records the end of a store to the first byte among stores to the forty bytes behind it. At the end two
/// configurations are met: with this store and without it. The result is that of `end_within`.
fn ended_among_stores(alloc: Global, most: usize) -> Option<bool> {
    let mut judge = new_judge(alloc)?;
    let place = judge.begin(Access::Store(0, bytes_of(alloc, &[1])?)).ok()?;
    for byte in 1..41_u64 {
        let store = Access::Store(byte, bytes_of(alloc, &[1])?);
        let _place = judge.begin(store).ok()?;
    }
    end_within(alloc, &mut judge, place, most)
}

#[test]
fn stores_to_other_bytes_wait(rt: HostRuntime) {
    assert!(rt; ended_among_stores(rt.alloc(), 2) == Some(true));
    assert!(rt; ended_among_stores(rt.alloc(), 1) == None);
}
