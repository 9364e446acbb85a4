//! For some windows of two series, those of the other that coarse sums tell to be near. Nothing is promised of them.

ghost use Rattle.std.specs.Prelude.{◌≡◌, ◌+◌, ◌<◌, ◌≤◌, length, IfOk};

use crate::scans::{count_columns, count_rows};
use crate::sums::Coarse;
use mp_nums::Memory;
use std::alloc::Global;
use std::simd::prelude::*;

/// A window by its place among some, and the sum of squares that tells how near it is.
#[derive(Clone, Copy)]
pub(crate) struct Mate {
    sum: u32,
    pub(crate) place: u32,
}

/// As great as any sum.
const NOT_FOUND: u32 = 2_147_483_647;

/// A place that no window has.
const NO_PLACE: u32 = u32::MAX;

/// For which windows others are looked for.
#[derive(Clone, Copy, PartialEq, Eq)]
pub(crate) enum Sought {
    Both,
    Rows,
    Columns,
}

impl Mate {
    /// No window yet.
    fn none() -> Mate {
        Mate {
            sum: NOT_FOUND,
            place: 0,
        }
    }

    /// No window for one that none is looked for: none is nearer.
    fn unsought() -> Mate {
        Mate {
            sum: 0,
            place: NO_PLACE,
        }
    }

    /// Takes the window at a place, if it is nearer.
    #[inline]
    fn take(&mut self, sum: u32, place: usize) {
        if sum < self.sum {
            *self = Mate {
                sum,
                place: u32::try_from(place).unwrap_or(NO_PLACE),
            };
        }
    }

    /// Takes another one, if it is nearer.
    fn merge(&mut self, other: &Mate) {
        self.take(other.sum, other.place as usize);
    }
}

/// The nearest windows behind a window and before it, of those that are compared.
#[derive(Clone, Copy)]
pub(crate) struct Mates {
    pub(crate) later: Mate,
    pub(crate) earlier: Mate,
}

/// The squares of how far a number is apart from eight others, as 32 bits hold them.
#[inline(always)]
fn squares_apart(number: u32, others: &[u32], place: usize) -> u32x8
    requires { place + 8 ≤ length others.now }
    ensures { length result ≡ 8 }
{
    let apart = u32x8::splat(number) - u32x8::from_slice(&others[place..]);
    apart * apart
}

/// Adds to eight sums the squares of how far a number is apart from eight others.
#[inline(always)]
fn add_apart(sums: &mut u32x8, number: u32, others: &[u32], place: usize)
    requires sums { length sums.old ≡ 8 }
    requires others { place + 8 ≤ length others.now }
    ensures { length sums.new ≡ 8 }
{
    *sums = *sums + squares_apart(number, others, place);
}

/// Takes these squares off them again.
#[inline(always)]
fn drop_apart(sums: &mut u32x8, number: u32, others: &[u32], place: usize)
    requires sums { length sums.old ≡ 8 }
    requires others { place + 8 ≤ length others.now }
    ensures { length sums.new ≡ 8 }
{
    *sums = *sums - squares_apart(number, others, place);
}

/// Adds to eight sums the squares of how far the first `count` numbers are apart from others from a place on, and from
/// each of the seven places behind it.
fn add_first(sums: &mut u32x8, numbers: &[u32], others: &[u32], behind: usize, count: usize)
    requires sums { length sums.old ≡ 8 }
    requires numbers { count ≤ length numbers.now }
    requires others { behind + count + 8 ≤ length others.now }
    ensures { length sums.new ≡ 8 }
{
    for t in 0..count {
        add_apart(sums, numbers[t], others, behind + t);
    }
}

/// Whether one of eight sums may be below a number, or below its own of those from a place on.
#[inline(always)]
fn is_some_below(sums: &u32x8, number: u32, numbers: &[u32], place: usize) -> bool
    requires sums { length sums.now ≡ 8 }
    requires numbers { place + 8 ≤ length numbers.now }
{
    let below = (*sums - u32x8::splat(number)) | (*sums - u32x8::from_slice(&numbers[place..]));
    below.reduce_or() >= 2_147_483_648
}

/// Takes eight successive windows for the one at a place, and that one for each of them, where they are nearer.
fn take_eight(sums: &u32x8, place: usize, other: usize, mates: &mut [Mates], least: &mut [u32])
    requires sums { length sums.now ≡ 8 }
    requires place { place < length mates.old }
    requires others { other + 8 ≤ length mates.old }
    requires same { length least.old ≡ length mates.old }
    ensures mates { length mates.new ≡ length mates.old }
    ensures least { length least.new ≡ length least.old }
{
    for l in 0..8 {
        let sum = sums.as_array()[l];
        mates[place].later.take(sum, other + l);
        mates[other + l].earlier.take(sum, place);
        least[other + l] = mates[other + l].earlier.sum;
    }
}

/// The same, unless none of them is nearer.
#[inline(always)]
fn take_near(sums: &u32x8, place: usize, other: usize, mates: &mut [Mates], least: &mut [u32])
    requires sums { length sums.now ≡ 8 }
    requires place { place < length mates.old }
    requires others { other + 8 ≤ length mates.old }
    requires same { length least.old ≡ length mates.old }
    ensures mates { length mates.new ≡ length mates.old }
    ensures least { length least.new ≡ length least.old }
{
    if is_some_below(sums, mates[place].later.sum, least, other) {
        take_eight(sums, place, other, mates, least);
    }
}

/// The numbers of two series that are compared: for each window of either as many as `more`, and one.
#[derive(Clone, Copy)]
struct Numbers<'a> {
    rows: &'a [u32],
    columns: &'a [u32],
    more: usize,
    ghost some_rows: { more ≤ length rows.now },
}

/// Compares each of the first rows with the column that is `behind` places behind it, and with the seven behind that
/// one. For each column `least` has the sum of the nearest row before it.
fn compare(numbers: &Numbers, behind: usize, mates: &mut [Mates], least: &mut [u32])
    requires columns { behind + 8 + numbers.now.more ≤ length numbers.now.columns.now }
    requires row_mates { length numbers.now.rows.now ≤ length mates.old + numbers.now.more }
    requires column_mates { length numbers.now.columns.now ≤ length mates.old + numbers.now.more }
    requires same { length least.old ≡ length mates.old }
    ensures mates { length mates.new ≡ length mates.old }
    ensures least { length least.new ≡ length least.old }
{
    let (rows, columns, more) = (numbers.rows, numbers.columns, numbers.more);
    let mut sums = u32x8::splat(0);
    add_first(&mut sums, rows, columns, behind, more);
    let last = columns.len() - more - behind - 8;
    for k in 0..last.min(rows.len() - more) {
        add_apart(&mut sums, rows[k + more], columns, k + behind + more);
        take_near(&sums, k, k + behind, mates, least);
        drop_apart(&mut sums, rows[k], columns, k + behind);
    }
}

/// Compares each row with columns that are at least `first` places behind it, but for the last eight: with eight of
/// them out of each `step`.
fn compare_some(
    numbers: &Numbers,
    first: usize,
    step: usize,
    mates: &mut [Mates],
    least: &mut [u32],
)
    requires step { 1 ≤ step }
    requires row_mates { length numbers.now.rows.now ≤ length mates.old + numbers.now.more }
    requires column_mates { length numbers.now.columns.now ≤ length mates.old + numbers.now.more }
    requires same { length least.old ≡ length mates.old }
    ensures mates { length mates.new ≡ length mates.old }
    ensures least { length least.new ≡ length least.old }
{
    let end = numbers
        .columns
        .len()
        .saturating_sub(numbers.more)
        .saturating_sub(8);
    let mut behind = first;
    while behind < end {
        compare(numbers, behind, mates, least);
        behind = behind.saturating_add(step);
    }
}

/// The number at a place, 0 past the last.
#[inline]
fn number_at(numbers: &[u32], place: usize) -> u32 {
    if place < numbers.len() {
        numbers[place]
    } else {
        0
    }
}

/// So many numbers, each `step` places behind the one before it.
fn every(alloc: Global, numbers: &[u32], step: usize, count: usize) -> Result<Vec<u32>, Memory>
    ensures { IfOk result (λ some. length some.items ≡ count) }
{
    let mut some = vec![in alloc; 0; count]?;
    fill_every(numbers, step, some.as_mut_slice());
    Ok(some)
}

fn fill_every(numbers: &[u32], step: usize, some: &mut [u32])
    ensures { length some.new ≡ length some.old }
{
    for k in 0..some.len() {
        some[k] = number_at(numbers, k.wrapping_mul(step));
    }
}

/// How many bits the greatest of some numbers has.
fn bits_of(numbers: &[u32]) -> u32
    ensures { result ≤ 32 }
{
    let mut all = 0;
    for k in 0..numbers.len() {
        all |= numbers[k];
    }
    32 - all.leading_zeros()
}

/// How many bits numbers may have, so that the sum of so many squares of their differences has 31.
fn most_bits(squares: usize) -> u32
    ensures { result ≤ 15 }
{
    (30 - squares.max(1).ilog2().min(30)) / 2
}

/// Drops the last bits of each number.
fn drop_bits(numbers: &mut [u32], bits: u32)
    requires { bits < 32 }
    ensures { length numbers.new ≡ length numbers.old }
{
    for k in 0..numbers.len() {
        numbers[k] >>= bits;
    }
}

/// Drops as many bits of all numbers that the sums of so many squares of their differences have 31.
fn shorten(rows: &mut [u32], columns: &mut [u32], squares: usize)
    ensures rows { length rows.new ≡ length rows.old }
    ensures columns { length columns.new ≡ length columns.old }
{
    let most = bits_of(rows).max(bits_of(columns));
    let dropped = most.saturating_sub(most_bits(squares)).min(31);
    drop_bits(rows, dropped);
    drop_bits(columns, dropped);
}

/// The windows of which none is compared yet.
fn no_mates(sought: Sought) -> Mates {
    let (none, unsought) = (Mate::none(), Mate::unsought());
    match sought {
        Sought::Both => Mates {
            later: none,
            earlier: none,
        },
        Sought::Rows => Mates {
            later: none,
            earlier: unsought,
        },
        Sought::Columns => Mates {
            later: unsought,
            earlier: none,
        },
    }
}

/// Takes other mates of the same windows, where they are nearer.
fn merge_all(mates: &mut [Mates], others: &[Mates])
    ensures { length mates.new ≡ length mates.old }
{
    for k in 0..mates.len().min(others.len()) {
        mates[k].later.merge(&others[k].later);
        mates[k].earlier.merge(&others[k].earlier);
    }
}

/// The mates of windows that start as many samples after one another as a sum has, by their number: of rows the columns
/// behind them, and of columns the rows before them. Behind the last there are eight places more.
#[derive(Drop)]
pub(crate) struct Search {
    rows: Vec<u32>,
    columns: Vec<u32>,
    more: usize,
    /// How many places behind a row the first column is that it is compared with.
    first: usize,
    pub(crate) mates: Vec<Mates>,
    least: Vec<u32>,
    ghost some_rows: { more ≤ length rows.items },
    ghost row_mates: { length rows.items ≤ length mates.items + more },
    ghost column_mates: { length columns.items ≤ length mates.items + more },
    ghost same: { length least.items ≡ length mates.items },
}

impl Search {
    /// One in which no window is compared yet. Windows that start fewer than `first` samples after one another won't
    /// be.
    pub(crate) fn new(
        alloc: Global,
        coarse: &Coarse,
        sought: Sought,
        first: usize,
    ) -> Result<Search, Memory> {
        let (step, more) = (8 * coarse.rows.units.eights, coarse.terms);
        let row_count = count_rows(coarse).div_ceil(step);
        let column_count = count_columns(coarse).div_ceil(step);
        let mut rows = every(alloc, coarse.rows.floors, step, row_count + more)?;
        let mut columns = every(alloc, coarse.columns.floors, step, column_count + 8 + more)?;
        shorten(
            rows.as_mut_slice(),
            columns.as_mut_slice(),
            more.saturating_add(1),
        );
        let none = no_mates(sought);
        let count = row_count.max(column_count) + 8;
        let mates = vec![in alloc; none; count]?;
        let least = vec![in alloc; none.earlier.sum; count]?;
        Ok(Search {
            rows,
            columns,
            more,
            first: first.div_ceil(step),
            mates,
            least,
        })
    }

    /// Another one of the same windows, which has found what this one has.
    pub(crate) fn again(&self, alloc: Global) -> Result<Search, Memory> {
        Ok(Search {
            rows: self.rows.as_slice().to_vec(alloc)?,
            columns: self.columns.as_slice().to_vec(alloc)?,
            more: self.more,
            first: self.first,
            mates: self.mates.as_slice().to_vec(alloc)?,
            least: self.least.as_slice().to_vec(alloc)?,
        })
    }

    /// How many pairs of windows are compared, or some more.
    pub(crate) fn pairs(&self) -> u64 {
        let count = self.mates.len() as u64;
        count.saturating_mul(count) / 2
    }

    /// Compares a share of the pairs, of so many shares.
    pub(crate) fn find(&mut self, share: u32, shares: u32) {
        let numbers = Numbers {
            rows: self.rows.as_slice(),
            columns: self.columns.as_slice(),
            more: self.more,
        };
        compare_some(
            &numbers,
            self.first.saturating_add(8 * share as usize),
            8 * shares.max(1) as usize,
            self.mates.as_mut_slice(),
            self.least.as_mut_slice(),
        );
    }

    /// Takes the mates that another search has found, where they are nearer.
    pub(crate) fn merge(&mut self, other: &Search) {
        merge_all(self.mates.as_mut_slice(), other.mates.as_slice());
    }
}
