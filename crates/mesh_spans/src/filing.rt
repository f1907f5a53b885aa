//! The filing of groups: the bin that contains a group's number, and the counts of one group.
ghost use Rattle.std.specs.Prelude.{◌≡◌, ℕ, ◌+◌, ◌*◌, ◌<◌, ◌≤◌, ◌||◌, length, IfOk, IfSome};
ghost use Rattle.std.specs.FinSet as set;
ghost use Rattle.mesh_bins.specs.Words.{IsLeast};
ghost use Rattle.mesh_class.specs.Class.{class_index};
ghost use Rattle.mesh_class.specs.Classes.{IsClass};
ghost use Rattle.mesh_spans.specs.Counts.{IsWithin, counts_of};
ghost use Rattle.mesh_spans.specs.GroupBins.{AreMoved, HasPlace, IsLeftWith, bin_at, file_of, filed, fullness_place, lower_of, unfiled};
ghost use Rattle.mesh_spans.specs.Index.{IsGroup};

use crate::Totals;
use crate::fullness::Fullness;
use crate::group::Group;
use mesh_bins::Bin;
use mesh_class::Class;
use std::alloc::{AllocError, Global};

/// The number of bins: three for each of the ten classes.
const BINS: usize = 30;

/// The bin and the counts of one group.
#[derive(Clone, Copy)]
pub(crate) struct Filed {
    /// The place, among all bins, of the bin that contains the group's number. `None` if no bin contains the number.
    pub bin: Option<u32>,
    /// The counts of this group alone.
    pub counts: Totals,
}

impl Filed {
    /// Returns the bin and the counts of a group. If `group` is `None`, the bin is `None` and the counts are 0.
    pub fn of(group: &Option<Group>) -> Filed
        ensures bin { result.bin ≡ file_of group.now }
        ensures place { IfSome result.bin (λ place. place < 30) }
        ensures counts { result.counts ≡ counts_of group.now }
        ensures few { IsWithin 1 result.counts }
        ensures sound { IfSome group.now (λ g. IsGroup g) }
    {
        Filed {
            bin: bin_of(group),
            counts: counts_of(group),
        }
    }
}

/// Makes 30 empty bins, and allocates all the memory that the bins will ever use. The only error is an allocation
/// failure.
pub(crate) fn new_bins(alloc: Global) -> Result<Vec<Bin>, AllocError>
    ensures long { IfOk result (λ bins. length bins.items ≡ 30) }
    ensures none { IfOk result (λ bins. (place : ℕ) → bin_at bins.items place ≡ set.empty) }
{
    let mut bins = Vec::new(alloc);
    for _ in 0..BINS {
        bins.push(Bin::new(alloc)?)?;
    }
    Ok(bins)
}

/// Returns the place of a group's bin. Returns `None` if there is no group, or the group is in a mesh.
fn bin_of(group: &Option<Group>) -> Option<u32>
    ensures bin { result ≡ file_of group.now }
    ensures few { IfSome result (λ place. place < 30) }
{
    let group = group.as_ref()?;
    if group.in_mesh() {
        return None;
    }
    Some(bin_place(group.class(), group.fullness()))
}

/// Returns the place, among all bins, of the bin for this class and fullness.
fn bin_place(class: Class, fullness: Fullness) -> u32
    ensures place { result ≡ 3 * class_index class + fullness_place fullness }
    ensures few { result < 30 }
    ensures low { class_index class < 10 }
    ensures one { (size : ℕ) → IsClass size → class_index size ≡ class_index class → size ≡ class }
{
    3 * class.index() + fullness.place()
}

/// Returns the counts of one group. If there is no group, the counts are 0.
fn counts_of(group: &Option<Group>) -> Totals
    ensures counts { result ≡ counts_of group.now }
    ensures few { IsWithin 1 result }
    ensures sound { IfSome group.now (λ g. IsGroup g) }
{
    match group {
        None => Totals::none(),
        Some(group) => Totals {
            objects: group.count(),
            bytes: group.bytes(),
            mapped: group.members().len() as u32 * group.class().pages(),
        },
    }
}

/// Moves the number `n` from the bin at `from` to the bin at `to`. If one of them is `None`, the number is only added
/// or only removed. Writes nothing if `from` and `to` are equal.
pub(crate) fn rebin(bins: &mut Vec<Bin>, n: u32, from: Option<u32>, to: Option<u32>)
    requires number { n < 65536 }
    requires sized { length bins.old.items ≡ 30 }
    requires from { IfSome from (λ place. place < 30) }
    requires to { IfSome to (λ place. place < 30) }
    ensures { AreMoved bins.old.items bins.new.items n from to }
{
    if from != to {
        unfile(bins, n, from);
        file(bins, n, to);
    }
}

/// Removes the number `n` from the bin at `place`. Does nothing if `place` is `None`.
pub(crate) fn unfile(bins: &mut Vec<Bin>, n: u32, place: Option<u32>)
    requires { HasPlace bins.old.items n place }
    ensures { IsLeftWith bins.new.items (unfiled bins.old.items n place) }
{
    if let Some(place) = place {
        bins[place as usize].remove(n);
    }
}

/// Adds the number `n` to the bin at `place`. Does nothing if `place` is `None`.
pub(crate) fn file(bins: &mut Vec<Bin>, n: u32, place: Option<u32>)
    requires { HasPlace bins.old.items n place }
    ensures { IsLeftWith bins.new.items (filed bins.old.items n place) }
{
    if let Some(place) = place {
        bins[place as usize].insert(n);
    }
}

/// Returns the lowest number among the groups of a class that are in no mesh and have a free slot. Returns `None` if
/// the class has no such group.
pub(crate) fn lowest_open(bins: &[Bin], class: Class) -> Option<u32>
    requires sized { length bins.now ≡ 30 }
    ensures place { class_index class < 10 }
    ensures one { (size : ℕ) → IsClass size → class_index size ≡ class_index class → size ≡ class }
    ensures least { IsLeast (λ n.
        set.contains (bin_at bins.now (3 * class_index class)) n || set.contains
        (bin_at bins.now (3 * class_index class + 1)) n) 0 65536 result }
{
    let empty = bin_place(class, Fullness::Empty);
    let partial = bin_place(class, Fullness::Partial);
    lower(
        bins[empty as usize].least(0),
        bins[partial as usize].least(0),
    )
}

/// Returns the lowest number, at or above `from`, among the groups of a class that are in no mesh, not empty and not
/// full. Returns `None` if there is no such number.
pub(crate) fn lowest_partial(bins: &[Bin], class: Class, from: u32) -> Option<u32>
    requires sized { length bins.now ≡ 30 }
    ensures place { class_index class < 10 }
    ensures one { (size : ℕ) → IsClass size → class_index size ≡ class_index class → size ≡ class }
    ensures least { IsLeast (set.contains (bin_at bins.now (3 * class_index class + 1))) from 65536 result }
{
    let partial = bin_place(class, Fullness::Partial);
    bins[partial as usize].least(from)
}

/// Returns the lower of two optional numbers. If one is `None`, returns the other.
fn lower(a: Option<u32>, b: Option<u32>) -> Option<u32>
    ensures { result ≡ lower_of a b }
{
    match (a, b) {
        (None, b) => b,
        (Some(a), None) => Some(a),
        (Some(a), Some(b)) => Some(if a < b { a } else { b }),
    }
}
