//! The sample of both heaps after a call, and the counts of a run.
ghost use Rattle.std.specs.Prelude.{◌≡◌};
ghost use Rattle.savings_report.specs.FigureSamples.{IsBounded};
ghost use Rattle.savings_replay.specs.Followed.{Followed};
ghost use Rattle.savings_replay.specs.Follows.{Follows};
ghost use Rattle.savings_report.specs.Samples.{counts_of, sample_of};

use crate::perfect::Perfect;
use crate::table::{Counts, Sample};
use savings_replay::Savings;

/// Returns the sample of both heaps: the pages of each heap, the pages with perfect packing, the live bytes, and the
/// pages of large objects.
pub(crate) fn sample_of(savings: &Savings, perfect: &mut Perfect) -> Sample
    ensures value { (f : Followed) → Follows savings.now f → result ≡ sample_of f }
    ensures bounded { IsBounded result }
{
    let without = savings.without();
    let with = savings.with();
    Sample {
        without: *without.held_pages_by_class(),
        with: *with.held_pages_by_class(),
        perfect: perfect.of(without),
        live_bytes: u64::from(without.totals().bytes),
        large_pages: savings.counts().large_pages,
        empty_without: without.empty_pages(),
        empty_with: with.empty_pages(),
    }
}

/// Returns the counts of the calls so far.
pub(crate) fn counts_of(savings: &Savings) -> Counts
    ensures { (f : Followed) → Follows savings.now f → result ≡ counts_of f }
{
    let counts = savings.counts();
    let meshes = savings.mesh_counts();
    let used = counts.used;
    Counts {
        most_objects: counts.most_small,
        large: counts.large,
        meshes: meshes.meshes,
        refused: meshes.refused,
        copied: meshes.moved,
        rounds: counts.rounds,
        tries: meshes.tries,
        virtual_pages: savings.with().used_pages(),
        used,
    }
}
