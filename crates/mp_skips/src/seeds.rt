//! Pairs of windows that are likely near. Where they are compared before all others, more of these can be passed over.

ghost use Rattle.std.specs.Prelude.{◌≡◌, ◌+◌, ◌-◌, ◌<◌, ◌≤◌};
ghost use Rattle.mp_scans.specs.Offering.{in_block};
ghost use Rattle.mp_scans.specs.Windows.{row_windows, column_windows, FitIn, AreScannedIn};
ghost use Rattle.mp_skips.specs.Levels.{squares_in};
ghost use Rattle.mp_skips.specs.Seeds.{AreSomeScanned, IsAhead};

use crate::mates::{Search, Sought};
use crate::pairs::{Stretch, offer_pair};
use crate::scans::{count_columns, count_rows};
use crate::sums::Coarse;
use mp_nums::Memory;
use mp_scans::Offers;
use std::alloc::Global;
use std::simd::prelude::*;

/// How many pairs of a diagonal are compared around one that is likely near, at most.
const AROUND: usize = 256;

/// What workers look for side by side, a share each. Nothing is promised of what they find.
pub trait Seeking: Drop + Send + Sync + Sized {
    /// Another one that looks for the same, with what this one has found.
    fn again(&self, alloc: Global) -> Result<Self, Memory>;

    /// How many pairs of windows are compared, or some more.
    fn pairs(&self) -> u64;

    /// Looks for a share, of so many shares. It takes no memory.
    fn find(&mut self, share: u32, shares: u32);

    /// Takes what another one has found. It takes no memory.
    fn merge(&mut self, other: &Self);
}

/// Pairs of windows of two series that are likely near, by coarse sums: for one of as many rows as a sum has samples a
/// column behind it, and for one of as many columns a row before it, some 4 bytes for a window at most. They have to be
/// found.
#[derive(Drop)]
pub struct Seeds {
    search: Search,
}

impl Seeds {
    /// Those that start at least `first` places after one another.
    pub fn of(alloc: Global, coarse: &Coarse, first: usize) -> Result<Seeds, Memory> {
        Ok(Seeds {
            search: Search::new(alloc, coarse, Sought::Both, first)?,
        })
    }

    /// Those of rows alone, whose columns start at least `first` places behind them.
    pub fn of_rows(alloc: Global, coarse: &Coarse, first: usize) -> Result<Seeds, Memory> {
        Ok(Seeds {
            search: Search::new(alloc, coarse, Sought::Rows, first)?,
        })
    }

    /// Those of columns alone, whose rows start at least `first` places before them.
    pub fn of_columns(alloc: Global, coarse: &Coarse, first: usize) -> Result<Seeds, Memory> {
        Ok(Seeds {
            search: Search::new(alloc, coarse, Sought::Columns, first)?,
        })
    }
}

impl Seeking for Seeds {
    fn again(&self, alloc: Global) -> Result<Seeds, Memory> {
        Ok(Seeds {
            search: self.search.again(alloc)?,
        })
    }

    fn pairs(&self) -> u64 {
        self.search.pairs()
    }

    fn find(&mut self, share: u32, shares: u32) {
        self.search.find(share, shares);
    }

    fn merge(&mut self, other: &Seeds) {
        self.search.merge(&other.search);
    }
}

/// Offers successive rows and columns to each other. The sum of the first two is known.
fn scan_stretch<O: Offers>(coarse: &Coarse, stretch: &Stretch, sum: u64, into: &mut O::Into)
    requires rows { stretch.now.row + stretch.now.count ≤ row_windows coarse.now.plan.grid }
    requires columns { stretch.now.column + stretch.now.count ≤ column_windows coarse.now.plan.grid }
    requires few { stretch.now.count ≤ AROUND }
    requires apart { stretch.now.row + O.least ≤ stretch.now.column }
    requires sum { sum ≡ squares_in coarse.now coarse.now.plan.grid.m stretch.now.row stretch.now.column }
    requires fits { FitIn O.fits coarse.now.plan.grid into.old }
    ensures scanned { AreScannedIn O.is_scanned coarse.now.plan.grid
        (in_block (stretch.now.column - stretch.now.row) (stretch.now.column - stretch.now.row + 1) stretch.now.row
        (stretch.now.row + stretch.now.count)) into.old into.new }
{
    let (row, column) = (stretch.row, stretch.column);
    let mut places = [0; AROUND];
    let sums = &mut places[..stretch.count];
    coarse.fill_sums(row, column, sum, sums);
    let mut exact = None;
    for r in 0..stretch.count {
        offer_pair::<O>(coarse, row + r, column + r, sums[r], &mut exact, into);
    }
}

/// The diagonal on which pairs were compared last, and the first row behind them.
#[derive(Clone, Copy)]
struct Trail {
    behind: usize,
    end: usize,
}

impl Trail {
    /// Follows successive rows and columns, and tells how many of the first ones need not be compared again.
    fn follow(&mut self, stretch: &Stretch) -> usize
        ensures { result ≤ stretch.now.count }
    {
        let behind = stretch.column.wrapping_sub(stretch.row);
        let compared = if behind == self.behind {
            self.end.saturating_sub(stretch.row).min(stretch.count)
        } else {
            0
        };
        *self = Trail {
            behind,
            end: stretch.row.saturating_add(stretch.count),
        };
        compared
    }
}

/// Offers successive rows and columns to each other, but for the first ones that were compared just before.
fn scan_behind<O: Offers>(
    coarse: &Coarse,
    stretch: &Stretch,
    first: usize,
    trail: &mut Trail,
    into: &mut O::Into,
)
    requires rows { stretch.now.row + stretch.now.count ≤ row_windows coarse.now.plan.grid }
    requires columns { stretch.now.column + stretch.now.count ≤ column_windows coarse.now.plan.grid }
    requires few { stretch.now.count ≤ AROUND }
    requires apart { O.least ≤ first }
    requires behind { stretch.now.row + first ≤ stretch.now.column }
    requires fits { FitIn O.fits coarse.now.plan.grid into.old }
    ensures ahead { IsAhead O.is_scanned coarse.now.plan.grid
        (in_block first (column_windows coarse.now.plan.grid) 0 (row_windows coarse.now.plan.grid)) into.old into.new }
    ensures fits { FitIn O.fits coarse.now.plan.grid into.new }
    ensures some { AreSomeScanned O.is_scanned coarse.now.plan.grid into.old into.new }
{
    let compared = trail.follow(stretch);
    if compared == stretch.count {
        return;
    }
    let rest = Stretch {
        row: stretch.row + compared,
        column: stretch.column + compared,
        count: stretch.count - compared,
    };
    let sum = coarse.squares(rest.row, rest.column, coarse.plan.grid.m);
    scan_stretch::<O>(coarse, &rest, sum, into);
}

/// Offers a row and a column to each other, and those around them on their diagonal.
fn scan_around<O: Offers>(
    coarse: &Coarse,
    row: usize,
    column: usize,
    first: usize,
    trail: &mut Trail,
    into: &mut O::Into,
)
    requires apart { O.least ≤ first }
    requires behind { row + first ≤ column }
    requires row { row < row_windows coarse.now.plan.grid }
    requires column { column < column_windows coarse.now.plan.grid }
    requires fits { FitIn O.fits coarse.now.plan.grid into.old }
    ensures ahead { IsAhead O.is_scanned coarse.now.plan.grid
        (in_block first (column_windows coarse.now.plan.grid) 0 (row_windows coarse.now.plan.grid)) into.old into.new }
    ensures fits { FitIn O.fits coarse.now.plan.grid into.new }
    ensures some { AreSomeScanned O.is_scanned coarse.now.plan.grid into.old into.new }
{
    let step = 8 * coarse.rows.units.eights;
    let around = AROUND.min(16 * step);
    let back = row.min((around - step) / 2);
    let (row, column) = (row - back, column - back);
    let rows = around.min(count_rows(coarse) - row);
    let count = rows.min(count_columns(coarse) - column);
    let stretch = Stretch { row, column, count };
    scan_behind::<O>(coarse, &stretch, first, trail, into);
}

/// A column, and the sum that tells how near it is.
#[derive(Clone, Copy)]
struct Nearest {
    sum: u64,
    column: usize,
}

/// Takes the nearest of the columns of eight successive diagonals, by coarse sums, if it is nearer.
fn take_of_eight(coarse: &Coarse, row: usize, column: usize, nearest: &mut Nearest)
    requires row { row < row_windows coarse.now.plan.grid }
    requires column { column < column_windows coarse.now.plan.grid }
{
    let mut sums = u64x8::splat(0);
    coarse.diagonal_sums(row, column, &mut sums);
    for l in 0..8 {
        let sum = sums.as_array()[l];
        if sum < nearest.sum {
            *nearest = Nearest {
                sum,
                column: column + l,
            };
        }
    }
}

/// The column that coarse sums tell to be nearest to a row, of as many from one on as a sum has samples.
fn nearest_column(coarse: &Coarse, row: usize, column: usize) -> usize
    requires row { row < row_windows coarse.now.plan.grid }
{
    let columns = count_columns(coarse);
    let mut nearest = Nearest {
        sum: u64::MAX,
        column: 0,
    };
    for e in 0..coarse.rows.units.eights {
        let place = column.wrapping_add(8 * e);
        if place < columns {
            take_of_eight(coarse, row, place, &mut nearest);
        }
    }
    nearest.column
}

/// Offers a row and a column that are likely near to each other, or one near it, and those around them. Where they
/// aren't a row and a column that start at least `first` places after one another, there is nothing to do.
fn scan_seed<O: Offers>(
    coarse: &Coarse,
    row: usize,
    column: usize,
    first: usize,
    trail: &mut Trail,
    into: &mut O::Into,
)
    requires apart { O.least ≤ first }
    requires fits { FitIn O.fits coarse.now.plan.grid into.old }
    ensures ahead { IsAhead O.is_scanned coarse.now.plan.grid
        (in_block first (column_windows coarse.now.plan.grid) 0 (row_windows coarse.now.plan.grid)) into.old into.new }
    ensures fits { FitIn O.fits coarse.now.plan.grid into.new }
    ensures some { AreSomeScanned O.is_scanned coarse.now.plan.grid into.old into.new }
{
    if row >= count_rows(coarse) {
        return;
    }
    let half = 4 * coarse.rows.units.eights;
    let from = column.saturating_sub(half).max(row.saturating_add(first));
    let near = nearest_column(coarse, row, from);
    if near < count_columns(coarse) && row <= near && first <= near - row {
        scan_around::<O>(coarse, row, near, first, trail, into);
    }
}

/// Where a share begins of so many that are cut into shares.
fn start_of(share: u32, shares: u32, count: usize) -> usize
    requires some { 1 ≤ shares }
    ensures { result ≤ count }
{
    let each = count.div_ceil(shares as usize);
    (share as usize).saturating_mul(each).min(count)
}

/// Offers a share of the seeds of a series to each other, of so many shares. What all pairs give that start at least
/// `first` places after one another is the same afterwards.
pub fn scan_seeds<O: Offers>(
    coarse: &Coarse,
    seeds: &Seeds,
    share: u32,
    shares: u32,
    first: usize,
    into: &mut O::Into,
)
    requires share { share < shares }
    requires apart { O.least ≤ first }
    requires fits { FitIn O.fits coarse.now.plan.grid into.old }
    ensures ahead { IsAhead O.is_scanned coarse.now.plan.grid
        (in_block first (column_windows coarse.now.plan.grid) 0 (row_windows coarse.now.plan.grid)) into.old into.new }
    ensures fits { FitIn O.fits coarse.now.plan.grid into.new }
    ensures some { AreSomeScanned O.is_scanned coarse.now.plan.grid into.old into.new }
{
    let step = 8 * coarse.rows.units.eights;
    let count = seeds.search.mates.len();
    let mut later = Trail { behind: 0, end: 0 };
    let mut earlier = Trail { behind: 0, end: 0 };
    for k in start_of(share, shares, count)..start_of(share + 1, shares, count) {
        let mates = seeds.search.mates[k];
        let place = k.wrapping_mul(step);
        scan_seed::<O>(
            coarse,
            place,
            (mates.later.place as usize).wrapping_mul(step),
            first,
            &mut later,
            into,
        );
        scan_seed::<O>(
            coarse,
            (mates.earlier.place as usize).wrapping_mul(step),
            place,
            first,
            &mut earlier,
            into,
        );
    }
}
