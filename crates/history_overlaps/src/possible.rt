//! Possible answers of a call whose answer no order explains.
ghost use Rattle.std.specs.Prelude.{◌≡◌, ◌≢◌, ◌⊎◌, ◌↔◌, ◌+◌, ◌<◌, ◌≤◌, ℕ, length, IfOk, IfSome, IsTrue, OnOk};
ghost use Rattle.text_words.specs.declared.recorded.RecordedReply.TheVariants.{Bytes as LoadedBytes};
ghost use Rattle.history_overlaps.specs.Possible.{AreOtherLoads, ArePossibleLoads, HasAddedLoad, IsUnexplainedBy};
ghost use Rattle.history_overlaps.specs.declared.possible.Possible.TheVariants.{Only as OnlyThis};

use crate::objects::NewObject;
use history_bytes::{MOST_BYTES, RecordedBytes};
use history_object::{Access, Configuration, ObjectAccesses, ObjectBytes, Refutation};
use history_reading::RecordedReply;
use model_words::Refusal;
use states_pool::Pool;
use std::alloc::{AllocError, Global};

/// The maximal number of possible loads that are kept.
pub const MOST_LOADS: usize = 8;

/// An answer of an access that no order explains, with the answers that the call could have given.
#[derive(Drop)]
pub struct Unexplained {
    /// The object of the access.
    pub object: NewObject,
    /// The recorded answer.
    pub answer: RecordedReply,
    /// The possible answers.
    pub possible: Possible,
}

/// The answers that a call could have given.
#[derive(Drop)]
pub enum Possible {
    /// Only this answer.
    Only(RecordedReply),
    /// One of these loads.
    Loads(Loads),
}

/// The smallest loads that a call could have returned. Loads are compared byte by byte.
#[derive(Drop)]
pub struct Loads {
    /// The loads in ascending order, at most `MOST_LOADS`. No two are equal.
    pub least: Vec<RecordedBytes>,
    /// Whether there are further possible loads.
    pub are_more: bool,
}

/// Returns the recorded answer of an access to the object, with the possible answers. If the range of a load is within
/// the object, the configurations that were met at the end of the access determine what is possible.
pub(crate) fn unexplained_access(
    alloc: Global,
    object: NewObject,
    refutation: Refutation<ObjectAccesses>,
) -> Result<Unexplained, AllocError>
    ensures object { IfOk result (λ unexplained. unexplained.object ≡ object) }
    ensures by { IfOk result (IsUnexplainedBy object.address object.len refutation.call) }
{
    let Refutation { call, met } = refutation;
    match call {
        Access::Store(..) => Ok(only(
            object,
            RecordedReply::Done,
            RecordedReply::Refused(Refusal::Outside),
        )),
        Access::Load(off, len, answered) => {
            unexplained_load(alloc, object, (off, len), answered, &met)
        }
        Access::Nothing => Ok(only(
            object,
            RecordedReply::At(object.address),
            RecordedReply::At(object.address),
        )),
        Access::Elsewhere(answered) => Ok(only(
            object,
            RecordedReply::At(answered),
            RecordedReply::At(object.address),
        )),
    }
}

/// Returns an unexplained answer with the only answer that is possible.
fn only(object: NewObject, answer: RecordedReply, possible: RecordedReply) -> Unexplained
    ensures object { result.object ≡ object }
    ensures answer { result.answer ≡ answer }
    ensures possible { result.possible ≡ OnlyThis possible }
{
    Unexplained {
        object,
        answer,
        possible: Possible::Only(possible),
    }
}

/// Returns the bytes that a load of the object answered, with the possible answers. `range` is the load's offset and
/// its number of bytes.
fn unexplained_load(
    alloc: Global,
    object: NewObject,
    range: (u64, u32),
    answered: RecordedBytes,
    met: &Pool<Configuration<ObjectBytes>>,
) -> Result<Unexplained, AllocError>
    ensures object { IfOk result (λ unexplained. unexplained.object ≡ object) }
    ensures answer { IfOk result (λ unexplained. unexplained.answer ≡ LoadedBytes answered) }
    ensures possible { IfOk result
        (λ unexplained. ArePossibleLoads object.len range.0 range.1 answered.items unexplained.possible) }
{
    let possible = possible_loads(alloc, object.len, range, answered.as_slice(), met)?;
    Ok(Unexplained {
        object,
        answer: RecordedReply::Bytes(answered),
        possible,
    })
}

/// Returns the possible answers of a load, other than `answered`. `range` is the load's offset and its number of bytes.
/// The object has `size` bytes. If the range ends past the object, the only possible answer is the refusal OUTSIDE.
fn possible_loads(
    alloc: Global,
    size: u64,
    range: (u64, u32),
    answered: &[u8],
    met: &Pool<Configuration<ObjectBytes>>,
) -> Result<Possible, AllocError>
    ensures { IfOk result (ArePossibleLoads size range.0 range.1 answered.now) }
{
    let (off, len) = range;
    if ends_past(size, off, len) {
        return Ok(Possible::Only(RecordedReply::Refused(Refusal::Outside)));
    }
    Ok(Possible::Loads(other_loads(alloc, off, len, answered, met)?))
}

/// Whether the range of `len` bytes from offset `off` ends past an object of `size` bytes.
fn ends_past(size: u64, off: u64, len: u32) -> bool
    ensures { IsTrue result ↔ (size < off + len) }
{
    size < off || size - off < u64::from(len)
}

/// Returns the loads of `len` bytes from offset `off` in the configurations `met`, other than `answered`.
fn other_loads(
    alloc: Global,
    off: u64,
    len: u32,
    answered: &[u8],
    met: &Pool<Configuration<ObjectBytes>>,
) -> Result<Loads, AllocError>
    ensures { IfOk result (AreOtherLoads len answered.now) }
{
    let mut loads = Loads {
        least: Vec::new(alloc),
        are_more: false,
    };
    for number in 0..met.len() {
        let load = load_of(alloc, &met.get(number as u32).state, off, len)?;
        loads.add_other(len, answered, load)?;
    }
    Ok(loads)
}

/// Whether two loads have the same bytes.
fn are_equal(one: &[u8], other: &[u8]) -> bool
    ensures { IsTrue result ↔ (one.now ≡ other.now) }
{
    one == other
}

/// Returns `len` bytes of the object from offset `off` on. Returns `None` if the range ends past the object, or if
/// `len` is above `MOST_BYTES`.
fn load_of(
    alloc: Global,
    state: &ObjectBytes,
    off: u64,
    len: u32,
) -> Result<Option<RecordedBytes>, AllocError>
    ensures { IfOk result (λ next. IfSome next (λ load. length load.items ≡ len)) }
{
    if len as usize > MOST_BYTES || ends_past(state.len(), off, len) {
        return Ok(None);
    }
    Ok(Some(state.load(alloc, off, len)?))
}

impl Loads {
    /// Adds a load of `len` bytes to the list, if there is one and it isn't `answered`.
    fn add_other(
        &mut self,
        len: u32,
        answered: &[u8],
        load: Option<RecordedBytes>,
    ) -> Result<(), AllocError>
        requires { IfSome load (λ load. length load.items ≡ len) }
        ensures { OnOk result (AreOtherLoads len answered.now self.old → AreOtherLoads len answered.now self.new) }
    {
        let _ = len;
        let Some(load) = load else {
            return Ok(());
        };
        if are_equal(load.as_slice(), answered) {
            return Ok(());
        }
        self.add(load)
    }

    /// Adds a load to the list unless the list has it. If the list was full, its greatest load is dropped, and
    /// `are_more` becomes true.
    fn add(&mut self, load: RecordedBytes) -> Result<(), AllocError>
        ensures { OnOk result (HasAddedLoad self.old self.new load) }
    {
        let place = self.place_of(load.as_slice());
        if let Some(there) = self.least.get(place)
            && there.as_slice() == load.as_slice()
        {
            return Ok(());
        }
        self.least.insert(place, load)?;
        if self.least.len() > MOST_LOADS {
            self.are_more = true;
            self.least.truncate(MOST_LOADS);
        }
        Ok(())
    }

    /// Returns the index of the first load that isn't less than `load`. If all loads are less, returns the length of
    /// the list.
    fn place_of(&self, load: &[u8]) -> usize
        ensures { result ≤ length self.now.least.items }
    {
        self.least
            .iter()
            .position(|there| there.as_slice() >= load)
            .unwrap_or(self.least.len())
    }
}
