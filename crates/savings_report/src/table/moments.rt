//! The calls after which meshing saves most, and after which the most bytes are live.
ghost use Rattle.std.specs.Prelude.{◌≡◌, ◌≤◌, ◌<◌, ◌^◌, ◌∷◌, [], ◌++◌, List, Some, IsTrue, false};
ghost use Rattle.savings_report.specs.declared.table.moments.Moment.{Moment};
ghost use Rattle.savings_report.specs.FigureSamples.{lives_no_less, row_at, saves_no_less};
ghost use Rattle.savings_report.specs.Figures.{IsMomentIn, IsMost, IsSmall};

use crate::table::pages::{Both, Pages, Row};
use crate::table::rounding::whole_pages;

/// A call's number, and what was measured after it: the total pages of small objects in both heaps and with perfect
/// packing, the live bytes of small objects, and the pages of large objects.
#[derive(Clone, Copy, Debug)]
pub struct Moment {
    pub call: u32,
    pub without: u32,
    pub with: u32,
    pub perfect: u32,
    pub live_bytes: u64,
    pub large_pages: u128,
}

impl Moment {
    /// Returns the row of the numbers at this moment.
    fn row(&self) -> Row
        requires { self.now.large_pages ≤ 2 ^ 84 }
        ensures value { result ≡ row_at (Some self.now) }
        ensures small { IsSmall result }
    {
        let without = u128::from(self.without);
        let with = u128::from(self.with);
        Row {
            small: Pages {
                without,
                with,
                perfect: u128::from(self.perfect),
            },
            live: u128::from(whole_pages(self.live_bytes)),
            large: self.large_pages,
            all: Both {
                without: without + self.large_pages,
                with: with + self.large_pages,
            },
        }
    }
}

/// Returns the row of the numbers at a moment. If there is no moment, all numbers are 0.
pub fn row_at(moment: &Option<Moment>) -> Row
    requires { IsMomentIn moment.now }
    ensures value { result ≡ row_at moment.now }
    ensures small { IsSmall result }
{
    match moment {
        Some(moment) => moment.row(),
        None => Row {
            small: Pages {
                without: 0,
                with: 0,
                perfect: 0,
            },
            live: 0,
            large: 0,
            all: Both {
                without: 0,
                with: 0,
            },
        },
    }
}

/// Puts `next` in the place of `best` if `best` is `None` or `next` saves more pages than `best`.
pub fn keep_most_saved(best: &mut Option<Moment>, next: &Moment)
    ensures { (moments : List Moment) → IsMost saves_no_less best.old moments
        → IsMost saves_no_less best.new (moments ++ next.now ∷ []) }
{
    if saves_more(best, next) {
        *best = Some(*next);
    }
}

/// Whether `best` is `None` or `next` saves more pages than `best`.
fn saves_more(best: &Option<Moment>, next: &Moment) -> bool
    ensures more { IsTrue result → (moments : List Moment) → IsMost saves_no_less best.now moments
        → IsMost saves_no_less (Some next.now) (moments ++ next.now ∷ []) }
    ensures no_more { result ≡ false → (moments : List Moment) → IsMost saves_no_less best.now moments
        → IsMost saves_no_less best.now (moments ++ next.now ∷ []) }
{
    match best {
        Some(best) => {
            let kept = u64::from(best.without) + u64::from(next.with);
            let taken = u64::from(next.without) + u64::from(best.with);
            kept < taken
        }
        None => true,
    }
}

/// Puts `next` in the place of `best` if `best` is `None` or `next` has more live bytes than `best`.
pub fn keep_most_live(best: &mut Option<Moment>, next: &Moment)
    requires best { IsMomentIn best.old }
    requires next { next.now.large_pages ≤ 2 ^ 84 }
    ensures most { (moments : List Moment) → IsMost lives_no_less best.old moments
        → IsMost lives_no_less best.new (moments ++ next.now ∷ []) }
    ensures bounds { IsMomentIn best.new }
{
    if is_fuller(best, next) {
        *best = Some(*next);
    }
}

/// Whether `best` is `None` or `next` has more live bytes than `best`.
fn is_fuller(best: &Option<Moment>, next: &Moment) -> bool
    ensures more { IsTrue result → (moments : List Moment) → IsMost lives_no_less best.now moments
        → IsMost lives_no_less (Some next.now) (moments ++ next.now ∷ []) }
    ensures no_more { result ≡ false → (moments : List Moment) → IsMost lives_no_less best.now moments
        → IsMost lives_no_less best.now (moments ++ next.now ∷ []) }
{
    match best {
        Some(best) => best.live_bytes < next.live_bytes,
        None => true,
    }
}
