//! For some windows of several channels, those that coarse sums tell to be near. Nothing is promised of them.

ghost use Rattle.std.specs.Prelude.{◌≡◌, ◌+◌, ◌<◌, ◌≤◌, length};
ghost use Rattle.mp_multi.specs.declared.limits.TheConstants.{MAX_CHANNELS};

use crate::bounds::Level;
use crate::limits::{MAX_CHANNELS, PLACES};
use mp_nums::Memory;
use mp_skips::Seeking;
use std::alloc::Global;
use std::simd::prelude::*;

/// A window by its place among some, and the sum of squares that tells how near it is.
#[derive(Clone, Copy)]
pub(crate) struct Mate {
    pub(crate) sum: u32,
    pub(crate) place: u32,
}

/// As great as any sum.
const NOT_FOUND: u32 = 2_147_483_647;

impl Mate {
    /// No window yet.
    fn none() -> Mate {
        Mate {
            sum: NOT_FOUND,
            place: u32::MAX,
        }
    }

    /// Takes another one, if it is nearer.
    fn merge(&mut self, other: &Mate) {
        self.take(other.sum, other.place as usize);
    }

    /// Takes the window at a place, if it is nearer.
    #[inline]
    fn take(&mut self, sum: u32, place: usize) {
        if sum < self.sum {
            *self = Mate {
                sum,
                place: u32::try_from(place).unwrap_or(u32::MAX),
            };
        }
    }
}

/// The nearest windows behind a window and before it, of those that are compared.
#[derive(Clone, Copy)]
pub(crate) struct Mates {
    pub(crate) later: Mate,
    pub(crate) earlier: Mate,
}

/// The number at a place, 0 past the last.
#[inline]
fn number_at(numbers: &[u32], place: usize) -> u32 {
    if place < numbers.len() {
        numbers[place]
    } else {
        0
    }
}

/// How many bits the greatest of some numbers has.
fn bits_of(numbers: &[u32]) -> u32
    ensures { result ≤ 32 }
{
    let mut all = 0;
    for k in 0..numbers.len() {
        all |= numbers[k];
    }
    32 - all.leading_zeros()
}

/// How many bits numbers may have, so that the sum of so many squares of their differences has 31.
fn most_bits(squares: usize) -> u32
    ensures { result ≤ 15 }
{
    (30 - squares.max(1).ilog2().min(30)) / 2
}

/// So many numbers, each `step` places behind the one before it, without their last bits.
fn every(
    alloc: Global,
    numbers: &[u32],
    step: usize,
    count: usize,
    bits: u32,
) -> Result<Vec<u32>, Memory>
    requires { bits < 32 }
{
    let mut some = vec![in alloc; 0; count]?;
    fill_every(numbers, step, bits, some.as_mut_slice());
    Ok(some)
}

fn fill_every(numbers: &[u32], step: usize, bits: u32, some: &mut [u32])
    requires { bits < 32 }
    ensures { length some.new ≡ length some.old }
{
    for k in 0..some.len() {
        some[k] = number_at(numbers, k.wrapping_mul(step)) >> bits;
    }
}

/// The squares of how far a number is apart from eight others, as 32 bits hold them.
#[inline(always)]
fn squares_apart(number: u32, others: &[u32], place: usize) -> u32x8
    requires { place + 8 ≤ length others.now }
    ensures { length result ≡ 8 }
{
    let apart = u32x8::splat(number) - u32x8::from_slice(&others[place..]);
    apart * apart
}

/// The same of the number at a place and of those from `behind` places behind it on, 0 past the last.
#[inline(always)]
fn apart(numbers: &[u32], place: usize, behind: usize) -> u32x8
    ensures { length result ≡ 8 }
{
    let other = place.saturating_add(behind);
    if other.saturating_add(8) <= numbers.len() {
        squares_apart(number_at(numbers, place), numbers, other)
    } else {
        u32x8::splat(0)
    }
}

/// Adds these squares to the sums of each channel.
#[inline(always)]
fn add_apart<const D: usize>(
    channels: &[Vec<u32>],
    place: usize,
    behind: usize,
    sums: &mut [[u32; 8]; D],
) {
    for c in 0..D.min(channels.len()) {
        let sum = u32x8::from_array(sums[c]) + apart(channels[c].as_slice(), place, behind);
        sums[c] = *sum.as_array();
    }
}

/// Takes them off again.
#[inline(always)]
fn drop_apart<const D: usize>(
    channels: &[Vec<u32>],
    place: usize,
    behind: usize,
    sums: &mut [[u32; 8]; D],
) {
    for c in 0..D.min(channels.len()) {
        let sum = u32x8::from_array(sums[c]) - apart(channels[c].as_slice(), place, behind);
        sums[c] = *sum.as_array();
    }
}

/// Puts numbers among others of their lanes, which are in rising order, and drops the greatest of each.
#[inline(always)]
fn insert(kept: &mut [[u32; 8]], numbers: &[u32; 8])
    ensures { length kept.new ≡ length kept.old }
{
    let mut carried = *numbers;
    for p in 0..kept.len() {
        let (here, other) = (u32x8::from_array(kept[p]), u32x8::from_array(carried));
        kept[p] = *here.simd_min(other).as_array();
        carried = *here.simd_max(other).as_array();
    }
}

/// In each lane the sum of some numbers, as 32 bits hold it.
#[inline(always)]
fn add_up(numbers: &[[u32; 8]]) -> [u32; 8] {
    let mut all = [0; 8];
    for p in 0..numbers.len() {
        let sum = u32x8::from_array(all) + u32x8::from_array(numbers[p]);
        all = *sum.as_array();
    }
    all
}

/// In each lane the sum of the `k` least of the channels' sums.
#[inline(always)]
fn least_sum<const D: usize>(sums: &[[u32; 8]; D], k: usize) -> [u32; 8] {
    if k == D {
        return add_up(sums);
    }
    let mut places = [[NOT_FOUND; 8]; PLACES];
    let kept = &mut places[..k.min(PLACES)];
    for c in 0..D {
        insert(kept, &sums[c]);
    }
    add_up(kept)
}

/// Whether one of eight sums may be below a number, or below its own of those from a place on.
#[inline(always)]
fn is_some_below(sums: &[u32; 8], number: u32, numbers: &[u32], place: usize) -> bool
    requires { place + 8 ≤ length numbers.now }
{
    let sums = u32x8::from_array(*sums);
    let below = (sums - u32x8::splat(number)) | (sums - u32x8::from_slice(&numbers[place..]));
    below.reduce_or() >= 2_147_483_648
}

/// Takes eight successive windows for the one at a place, and that one for each of them, where they are nearer.
fn take_eight(sums: &[u32; 8], place: usize, other: usize, mates: &mut [Mates], least: &mut [u32])
    requires place { place < length mates.old }
    requires others { other + 8 ≤ length mates.old }
    requires same { length least.old ≡ length mates.old }
    ensures mates { length mates.new ≡ length mates.old }
    ensures least { length least.new ≡ length least.old }
{
    for l in 0..8 {
        let sum = sums[l];
        mates[place].later.take(sum, other + l);
        mates[other + l].earlier.take(sum, place);
        least[other + l] = mates[other + l].earlier.sum;
    }
}

/// The same, unless none of them is nearer, or one isn't there.
#[inline(always)]
fn take_near(sums: &[u32; 8], place: usize, behind: usize, mates: &mut [Mates], least: &mut [u32])
    ensures mates { length mates.new ≡ length mates.old }
    ensures least { length least.new ≡ length least.old }
{
    let other = place.saturating_add(behind);
    if other.saturating_add(8) <= mates.len()
        && least.len() == mates.len()
        && is_some_below(sums, mates[place].later.sum, least, other)
    {
        take_eight(sums, place, other, mates, least);
    }
}

/// Windows that are looked for, which start as many samples after one another as a sum has: by some numbers of each
/// channel, and for each window the nearest ones that are found.
#[derive(Drop)]
pub(crate) struct Search<const D: usize> {
    channels: Vec<Vec<u32>>,
    /// How many numbers a window has, but for one.
    more: usize,
    /// How many places behind a window the first one is that it is compared with.
    first: usize,
    /// How many channels are taken together.
    k: usize,
    pub(crate) mates: Vec<Mates>,
    least: Vec<u32>,
}

/// Compares each window with the eight that start `behind` places behind it and on.
fn compare<const D: usize>(
    channels: &[Vec<u32>],
    more: usize,
    k: usize,
    behind: usize,
    mates: &mut [Mates],
    least: &mut [u32],
)
    requires { D ≤ MAX_CHANNELS }
    ensures mates { length mates.new ≡ length mates.old }
    ensures least { length least.new ≡ length least.old }
{
    let mut sums = [[0; 8]; D];
    for t in 0..more {
        add_apart::<D>(channels, t, behind, &mut sums);
    }
    let last = mates.len().saturating_sub(behind).saturating_sub(8);
    for r in 0..last {
        add_apart::<D>(channels, r.saturating_add(more), behind, &mut sums);
        let sum = least_sum::<D>(&sums, k);
        take_near(&sum, r, behind, mates, least);
        drop_apart::<D>(channels, r, behind, &mut sums);
    }
}

/// How many samples further on a level's sums are compared, and the bits of the greatest of them.
fn terms_and_bits(level: &Level) -> (usize, u32) {
    let (mut terms, mut bits) = (0, 0);
    for coarse in level.coarse {
        terms = coarse.terms;
        bits = bits_of(coarse.rows.floors).max(bits);
    }
    (terms, bits)
}

impl<const D: usize> Search<D> {
    /// One in which no window is compared yet. Windows that start fewer than `first` samples after one another won't
    /// be.
    pub(crate) fn new(alloc: Global, level: &Level, first: usize) -> Result<Search<D>, Memory> {
        let step = level.height().max(1);
        let (more, most) = terms_and_bits(level);
        let count = level.windows.div_ceil(step).saturating_add(8);
        let squares = more.saturating_add(1).saturating_mul(D);
        let bits = most.saturating_sub(most_bits(squares)).min(31);
        let mut channels = Vec::with_capacity(alloc, D)?;
        for coarse in level.coarse {
            let numbers = coarse.rows.floors;
            channels.push(every(alloc, numbers, step, count.saturating_add(more), bits)?)?;
        }
        let none = Mates {
            later: Mate::none(),
            earlier: Mate::none(),
        };
        let mates = vec![in alloc; none; count]?;
        let least = vec![in alloc; NOT_FOUND; count]?;
        Ok(Search {
            channels,
            more,
            first: first.div_ceil(step),
            k: level.plan.channels.k as usize,
            mates,
            least,
        })
    }

    /// Compares a share of the windows, of so many shares.
    fn compare_share(&mut self, share: usize, shares: usize)
        requires some { 1 ≤ shares }
        requires few { D ≤ MAX_CHANNELS }
    {
        let end = self.mates.len().saturating_sub(8);
        let first = self.first.saturating_add(share.saturating_mul(8));
        for n in 0..end.saturating_sub(first).div_ceil(8).div_ceil(shares) {
            compare::<D>(
                self.channels.as_slice(),
                self.more,
                self.k,
                first.saturating_add(n.saturating_mul(8).saturating_mul(shares)),
                self.mates.as_mut_slice(),
                self.least.as_mut_slice(),
            );
        }
    }
}

/// Takes other mates of the same windows, where they are nearer.
fn merge_all(mates: &mut [Mates], others: &[Mates])
    ensures { length mates.new ≡ length mates.old }
{
    for k in 0..mates.len().min(others.len()) {
        mates[k].later.merge(&others[k].later);
        mates[k].earlier.merge(&others[k].earlier);
    }
}

impl<const D: usize> Seeking for Search<D> {
    fn again(&self, alloc: Global) -> Result<Search<D>, Memory> {
        let mut channels = Vec::with_capacity(alloc, self.channels.len())?;
        for channel in self.channels.iter() {
            channels.push(channel.as_slice().to_vec(alloc)?)?;
        }
        Ok(Search {
            channels,
            more: self.more,
            first: self.first,
            k: self.k,
            mates: self.mates.as_slice().to_vec(alloc)?,
            least: self.least.as_slice().to_vec(alloc)?,
        })
    }

    // a pair takes as long as one for each channel
    fn pairs(&self) -> u64 {
        let count = self.mates.len() as u64;
        count.saturating_mul(count).saturating_mul(D as u64) / 2
    }

    fn find(&mut self, share: u32, shares: u32) {
        if D <= MAX_CHANNELS as usize {
            self.compare_share(share as usize, shares.max(1) as usize);
        }
    }

    fn merge(&mut self, other: &Search<D>) {
        merge_all(self.mates.as_mut_slice(), other.mates.as_slice());
    }
}
