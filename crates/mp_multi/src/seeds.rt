//! Pairs of windows of several channels that are likely near. Where they are compared before all others, more of these
//! can be passed over.

ghost use Rattle.std.specs.Prelude.{◌≡◌, ◌+◌, ◌*◌, ◌<◌, ◌≤◌, length};
ghost use Rattle.mp_scans.specs.Offering.{in_block};
ghost use Rattle.mp_multi.specs.Skips.{IsAheadOf};

use crate::bounds::Level;
use crate::mates::Search;
use crate::skips::scan_diagonal;
use mp_nums::Slots;
use std::simd::prelude::*;

/// How many pairs of a diagonal are compared around one that is likely near, at most.
const AROUND: usize = 256;

/// Successive rows and their columns on one diagonal.
#[derive(Clone, Copy)]
struct Stretch {
    row: usize,
    column: usize,
    count: usize,
}

/// The diagonal on which pairs were compared last, and the first row behind them.
#[derive(Clone, Copy)]
struct Trail {
    behind: usize,
    end: usize,
}

impl Trail {
    /// Follows successive rows and columns, and tells how many of the first ones need not be compared again.
    fn follow(&mut self, stretch: &Stretch) -> usize
        ensures { result ≤ stretch.now.count }
    {
        let behind = stretch.column.wrapping_sub(stretch.row);
        let compared = if behind == self.behind {
            self.end.saturating_sub(stretch.row).min(stretch.count)
        } else {
            0
        };
        *self = Trail {
            behind,
            end: stretch.row.saturating_add(stretch.count),
        };
        compared
    }
}

/// A column, and the bound that tells how near it is.
#[derive(Clone, Copy)]
struct Nearest {
    bound: u64,
    column: usize,
}

/// Takes the nearest of the columns of eight successive diagonals, by coarse sums, if it is nearer.
fn take_of_eight<const D: usize>(level: &Level, row: usize, column: usize, nearest: &mut Nearest)
    requires channels { length level.now.coarse.now ≡ D }
    requires row { row < level.now.windows }
    requires column { column < level.now.windows }
{
    let mut bounds = u64x8::splat(0);
    level.diagonal_bounds::<D>(row, column, &mut bounds);
    for l in 0..8 {
        let bound = bounds.as_array()[l];
        if bound < nearest.bound {
            *nearest = Nearest {
                bound,
                column: column + l,
            };
        }
    }
}

/// The column that coarse sums tell to be nearest to a row, of as many from one on as a sum has samples.
fn nearest_column<const D: usize>(level: &Level, row: usize, column: usize) -> usize
    requires channels { length level.now.coarse.now ≡ D }
    requires row { row < level.now.windows }
{
    let mut nearest = Nearest {
        bound: u64::MAX,
        column: 0,
    };
    for e in 0..level.units.eights {
        let place = column.wrapping_add(8 * e);
        if place < level.windows {
            take_of_eight::<D>(level, row, place, &mut nearest);
        }
    }
    nearest.column
}

/// Offers successive rows and columns to each other, but for the first ones that were compared just before.
fn scan_behind<const D: usize>(
    level: &Level,
    stretch: &Stretch,
    first: usize,
    trail: &mut Trail,
    into: &mut Slots,
)
    requires exact { level.now.units.step.size ≡ 1 }
    requires channels { length level.now.coarse.now ≡ D }
    requires few { stretch.now.count ≤ AROUND }
    requires behind { stretch.now.row + first ≤ stretch.now.column }
    requires columns { stretch.now.column + stretch.now.count ≤ level.now.windows }
    requires windows { length into.old.items ≡ level.now.windows }
    ensures ahead { IsAheadOf level.now.plan (in_block first level.now.windows 0 level.now.windows) into.old into.new }
    ensures windows { length into.new.items ≡ level.now.windows }
    ensures spare { into.new.spare ≡ into.old.spare }
{
    let compared = trail.follow(stretch);
    if compared == stretch.count {
        return;
    }
    scan_diagonal::<D, AROUND>(
        level,
        stretch.row + compared,
        stretch.column + compared,
        stretch.count - compared,
        into,
    );
}

/// Offers a row and a column that are likely near to each other, or one near it, and those around them. Where they
/// aren't a row and a column that start at least `first` places after one another, there is nothing to do.
fn scan_seed<const D: usize>(
    level: &Level,
    row: usize,
    column: usize,
    first: usize,
    trail: &mut Trail,
    into: &mut Slots,
)
    requires exact { level.now.units.step.size ≡ 1 }
    requires channels { length level.now.coarse.now ≡ D }
    requires windows { length into.old.items ≡ level.now.windows }
    ensures ahead { IsAheadOf level.now.plan (in_block first level.now.windows 0 level.now.windows) into.old into.new }
    ensures windows { length into.new.items ≡ level.now.windows }
    ensures spare { into.new.spare ≡ into.old.spare }
{
    if row >= level.windows {
        return;
    }
    let from = column
        .saturating_sub(4 * level.units.eights)
        .max(row.saturating_add(first));
    let near = nearest_column::<D>(level, row, from);
    if near >= level.windows || near < row || near - row < first {
        return;
    }
    let back = row.min((AROUND - level.height()) / 2);
    let stretch = Stretch {
        row: row - back,
        column: near - back,
        count: AROUND.min(level.windows - (near - back)),
    };
    scan_behind::<D>(level, &stretch, first, trail, into);
}

/// Where a share begins of so many that are cut into shares.
fn start_of(share: u32, shares: u32, count: usize) -> usize
    requires some { 1 ≤ shares }
    ensures { result ≤ count }
{
    let each = count.div_ceil(shares as usize);
    (share as usize).saturating_mul(each).min(count)
}

/// Offers a share of the seeds of the channels to each other, of so many shares. What all pairs give that start at
/// least `first` places after one another is the same afterwards.
pub(crate) fn scan_seeds<const D: usize>(
    level: &Level,
    search: &Search<D>,
    share: u32,
    shares: u32,
    first: usize,
    into: &mut Slots,
)
    requires exact { level.now.units.step.size ≡ 1 }
    requires channels { length level.now.coarse.now ≡ D }
    requires share { share < shares }
    requires windows { length into.old.items ≡ level.now.windows }
    ensures ahead { IsAheadOf level.now.plan (in_block first level.now.windows 0 level.now.windows) into.old into.new }
    ensures windows { length into.new.items ≡ level.now.windows }
    ensures spare { into.new.spare ≡ into.old.spare }
{
    let step = level.height();
    let count = search.mates.len();
    let mut later = Trail { behind: 0, end: 0 };
    let mut earlier = Trail { behind: 0, end: 0 };
    for k in start_of(share, shares, count)..start_of(share + 1, shares, count) {
        let mates = search.mates[k];
        let place = k.wrapping_mul(step);
        let column = (mates.later.place as usize).wrapping_mul(step);
        scan_seed::<D>(level, place, column, first, &mut later, into);
        let row = (mates.earlier.place as usize).wrapping_mul(step);
        scan_seed::<D>(level, row, place, first, &mut earlier, into);
    }
}
