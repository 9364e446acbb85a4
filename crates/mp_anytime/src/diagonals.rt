//! Diagonals as the pieces of a kernel.

ghost use Rattle.std.specs.Prelude.{◌≡◌, ◌≤◌, length, true, All, IfOk};
ghost use Rattle.std.specs.List.Sorted.{IsPermutation};
ghost use Rattle.mp_defs.specs.Limits.{max_samples};
ghost use Rattle.mp_defs.specs.Series.{series_of};
ghost use Rattle.mp_defs.specs.Window.{windows as windows_in};
ghost use Rattle.mp_defs.specs.Profile.{profile};
ghost use Rattle.mp_series.specs.declared.limits.TheConstants.{MAX_WINDOW};
ghost use Rattle.mp_partial.specs.declared.limits.TheConstants.{MAX_PIECES, MAX_WORKERS};
ghost use Rattle.mp_tiles.specs.Among.{columns_value};
ghost use Rattle.mp_anytime.specs.Scanning.{AreFree, lie_along};
ghost use Rattle.mp_anytime.specs.Kept.{IsDiagonal, IsOf};
ghost use Rattle.mp_anytime.specs.AnyFound.{fits_of, found_of};
ghost use Rattle.mp_anytime.specs.Bounds.{columns_of, has_number, has_residue, kept_sides};
ghost use Rattle.mp_partial.specs.Values.{empty_columns, merged_columns};

use crate::any_found::AnyFound;
use crate::coverage::Coverage;
use crate::found::Found;
use crate::kept::Kept;
use crate::narrow::{Narrow, NarrowList, lie_near};
use crate::residue_found::ResidueFound;
use crate::residue_kernels::{ResidueDiagonals, ResidueKept};
use crate::rounded::{Lists, Rounded};
use mp_nums::{Memory, Sample};
use mp_outside::Gate;
use mp_partial::{Kernel, Part, Profile};
use mp_scans::Plan;
use mp_series::{Samples, windows};
use mp_sums::Grid;
use mp_workers::{run_one_after_another, workers_for};
use std::alloc::Global;
use std::marker::Model;
use std::thread::Threads;

/// The diagonals of a series on which windows start so far apart, as the pieces of a kernel.
#[derive(Drop)]
pub(crate) struct Diagonals<'a> {
    /// The windows, each a row and a column.
    pub(crate) rounded: Rounded<'a>,
    pub(crate) offsets: &'a [u64],
}

impl<'a> Model for Diagonals<'a> {
    ghost use Rattle.std.specs.Prelude.{length};
    ghost use Rattle.mp_anytime.specs.Diagonals.{Along, IsAlong};

    ghost Value = { Along };

    ghost view = { λ d. record {
      samples = d.rounded.plan.grid.rows.now;
      m = d.rounded.plan.grid.m;
      offsets = d.offsets.now;
    } };

    ghost invariant = { λ d. IsAlong (length d.rounded.free.now) d.offsets.now };
}

impl<'a> Diagonals<'a> {
    /// The diagonals on which windows of a series start so far apart.
    pub(crate) fn new(rounded: Rounded<'a>, offsets: &'a [u64]) -> Diagonals<'a>
        requires { All (IsDiagonal rounded.plan.grid.m
            (windows_in (length rounded.plan.grid.rows.now) rounded.plan.grid.m)) offsets.now }
        ensures samples { result.samples ≡ rounded.entry.plan.grid.rows.now }
        ensures m { result.m ≡ rounded.entry.plan.grid.m }
        ensures offsets { result.offsets ≡ offsets.now }
    {
        Diagonals { rounded, offsets }
    }
}

impl<'a> Kernel for Diagonals<'a> {
    ghost use Rattle.std.specs.Prelude.{length, slice_index};
    ghost use Rattle.mp_anytime.specs.Scanning.{lie_apart};
    ghost use Rattle.mp_anytime.specs.Diagonals.{along_size, along_value};
    ghost use Rattle.mp_anytime.specs.DiagonalLaws.{columns_have_places};

    type Out = Found;

    ghost size_of = { along_size };

    ghost pieces_of = { λ along. length along.offsets };

    ghost value_of = { along_value };

    ghost has_values = { λ along piece _.
        columns_have_places (lie_apart (slice_index along.offsets piece)) along.m along.samples };

    fn size(&self) -> u64 {
        self.rounded.free.len() as u64
    }

    fn pieces(&self) -> u64 {
        self.offsets.len() as u64
    }

    fn run(&self, piece: u64, into: &mut Found) {
        let _windows = into.size();
        into.take_along(&self.rounded, self.offsets[piece as usize] as usize);
    }
}

/// For each window whether it is free. Where no sample is missing, all are.
fn free_windows(alloc: Global, samples: &Samples, m: u32) -> Result<Vec<bool>, Memory>
    requires { 1 ≤ m }
    ensures { IfOk result (λ free. AreFree m (series_of samples.now.items) free.items) }
{
    let count = windows(samples.len(), m);
    if samples.free(0, samples.len() as u32) {
        return Ok(vec![in alloc; true; count as usize]?);
    }
    let mut free = Vec::with_capacity(alloc, count as usize)?;
    for i in 0..count {
        free.push(samples.free(i, m))?;
    }
    Ok(free)
}

/// A plan for the windows of a series.
fn own_plan<'a>(samples: &'a [Sample], m: u32) -> Plan<'a>
    requires shortest { 1 ≤ m }
    requires longest { m ≤ MAX_WINDOW }
    requires few { length samples.now ≤ max_samples }
    ensures rows { result.grid.rows.now ≡ samples.now }
    ensures columns { result.grid.columns.now ≡ samples.now }
    ensures m { result.grid.m ≡ m }
{
    Plan::of(Grid {
        rows: samples,
        columns: samples,
        m: m as usize,
    })
}

/// Up to so many diagonals are walked by length.
const SORTED: usize = 256;

/// Diagonals in the order in which they are walked. Of a few the longest come first: they have a pair for most windows,
/// so that fewer of the later ones are nearer than what was found.
fn walked(alloc: Global, offsets: &[u64]) -> Result<Vec<u64>, Memory>
    ensures { IfOk result (λ order. IsPermutation offsets.now order.items) }
{
    let mut order = offsets.to_vec(alloc)?;
    if offsets.len() <= SORTED {
        order.sort_unstable();
    }
    Ok(order)
}

/// How many workers begin with what is kept: none of them where no diagonal was covered, since nothing is kept then.
fn beginners(covered: &[u64], workers: u32) -> u64
    requires { 1 ≤ workers }
    ensures none { result ≡ 0 → length covered.now ≡ 0 }
    ensures few { result ≤ workers }
{
    if covered.is_empty() {
        0
    } else {
        u64::from(workers)
    }
}

/// What the pairs of windows on the diagonals have together, with what is kept of others, where residues tell the
/// distances. As many workers begin with what is kept as are said.
fn found_by_residues<R: Threads + Sync, G: Gate>(
    rt: &R,
    alloc: Global,
    narrow: Narrow,
    kept: &Profile,
    offsets: &[u64],
    beginners: u64,
    workers: u32,
    gate: &G,
) -> Result<ResidueFound, Memory>
    requires diagonals { All (IsDiagonal narrow.plan.grid.m
        (windows_in (length narrow.plan.grid.rows.now) narrow.plan.grid.m)) offsets.now }
    requires few { length offsets.now ≤ MAX_PIECES }
    requires beginners { beginners ≤ MAX_WORKERS }
    requires none { beginners ≡ 0 → columns_of (kept_sides has_residue kept.now)
        ≡ empty_columns 3 (length kept.now.all) }
    requires places { length kept.now.all
        ≡ windows_in (length narrow.plan.grid.rows.now) narrow.plan.grid.m }
    requires some { 1 ≤ workers }
    requires workers { workers ≤ MAX_WORKERS }
    ensures { IfOk result (λ found. columns_of found ≡ merged_columns (columns_of (kept_sides has_residue kept.now))
        (columns_value (profile (lie_along offsets.now) narrow.entry.plan.grid.m
        (series_of narrow.entry.plan.grid.rows.now)))) }
{
    let first = ResidueKept::new(kept, beginners);
    let diagonals = ResidueDiagonals::new(narrow, offsets);
    run_one_after_another(rt, alloc, &first, &diagonals, workers, gate)
}

/// The same by distances.
fn found_by_distances<R: Threads + Sync, G: Gate>(
    rt: &R,
    alloc: Global,
    rounded: Rounded,
    kept: &Profile,
    offsets: &[u64],
    beginners: u64,
    workers: u32,
    gate: &G,
) -> Result<Found, Memory>
    requires diagonals { All (IsDiagonal rounded.plan.grid.m
        (windows_in (length rounded.plan.grid.rows.now) rounded.plan.grid.m)) offsets.now }
    requires few { length offsets.now ≤ MAX_PIECES }
    requires beginners { beginners ≤ MAX_WORKERS }
    requires none { beginners ≡ 0 → columns_of (kept_sides has_number kept.now)
        ≡ empty_columns 3 (length kept.now.all) }
    requires places { length kept.now.all
        ≡ windows_in (length rounded.plan.grid.rows.now) rounded.plan.grid.m }
    requires some { 1 ≤ workers }
    requires workers { workers ≤ MAX_WORKERS }
    ensures { IfOk result (λ found. columns_of found.profile
        ≡ merged_columns (columns_of (kept_sides has_number kept.now))
        (columns_value (profile (lie_along offsets.now) rounded.entry.plan.grid.m
        (series_of rounded.entry.plan.grid.rows.now)))) }
{
    let first = Kept::new(kept, rounded.plan.rounding, beginners);
    let diagonals = Diagonals::new(rounded, offsets);
    run_one_after_another(rt, alloc, &first, &diagonals, workers, gate)
}

/// What the pairs of windows on the diagonals have together, with what is kept of others, found by so many workers. A
/// few pairs are left to fewer.
pub(crate) fn found_along<R: Threads + Sync, G: Gate>(
    rt: &R,
    alloc: Global,
    samples: &mut Samples,
    m: u32,
    kept: &Coverage,
    offsets: &[u64],
    workers: u32,
    gate: &G,
) -> Result<AnyFound, Memory>
    requires shortest { 1 ≤ m }
    requires longest { m ≤ MAX_WINDOW }
    requires few { length offsets.now ≤ MAX_PIECES }
    requires diagonals { All (IsDiagonal m (windows_in (length samples.old.items) m)) offsets.now }
    requires some { 1 ≤ workers }
    requires workers { workers ≤ MAX_WORKERS }
    requires is_of { IsOf m samples.old.items kept.now }
    ensures found { IfOk result (λ found. columns_of (found_of found)
        ≡ merged_columns (columns_of (kept_sides (fits_of found) kept.now.profile))
        (columns_value (profile (lie_along offsets.now) m (series_of samples.old.items)))) }
    ensures few { IfOk result (λ _. length samples.old.items ≤ max_samples) }
    ensures items { samples.new.items ≡ samples.old.items }
    ensures spare { samples.new.spare ≡ samples.old.spare }
    ensures reads_rise { samples.old.reads ≤ samples.new.reads }
{
    let windows = kept.profile.len();
    let free = free_windows(alloc, samples, m)?;
    let plan = own_plan(samples.lend(), m);
    let order = walked(alloc, offsets)?;
    let order = order.as_slice();
    let workers = workers_for(windows.saturating_mul(order.len() as u64), workers);
    let count = beginners(kept.covered.as_slice(), workers);
    let profile = &kept.profile;
    if plan.is_exact & lie_near(plan.grid.rows) {
        let list = NarrowList::of(alloc, &plan, free)?;
        let narrow = list.narrow();
        let found = found_by_residues(rt, alloc, narrow, profile, order, count, workers, gate)?;
        return Ok(AnyFound::ByResidue(found));
    }
    let lists = Lists::of(alloc, &plan, free)?;
    let rounded = lists.rounded();
    let found = found_by_distances(rt, alloc, rounded, profile, order, count, workers, gate)?;
    Ok(AnyFound::ByDistance(found))
}
