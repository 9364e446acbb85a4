//! The tiles of a series, drawn by workers that tell each other of ranks as soon as they find them.

ghost use Rattle.std.specs.Prelude.{◌≡◌, ◌≤◌, length, IfOk};
ghost use Rattle.mp_series.specs.declared.limits.TheConstants.{MAX_SAMPLES};
ghost use Rattle.mp_partial.specs.declared.limits.TheConstants.{MAX_PIECES, MAX_WORKERS};
ghost use Rattle.mp_workers.specs.Desks.{whole};
ghost use Rattle.mp_topk.specs.Ranking.{lists_in};
ghost use Rattle.mp_topk.specs.Sharing.{entries_of, whole_of};
ghost use Rattle.mp_topk.specs.Tiling.{ranks_together, ranks_whole};
ghost use Rattle.mp_topk.specs.Words.{AreAllTold, AreTellingOf, IsHoldOf};

use crate::compact_lists::compact_lists_of;
use crate::tellers::{RankTeller, TellEachOther};
use crate::words::{RankHold, RankWords};
use mp_nums::{Memory, NearList, Sample};
use mp_outside::Gate;
use mp_partial::Kernel;
use mp_skips::Seeds;
use mp_tiles::TileParts;
use mp_workers::{Telling, run_telling};
use std::alloc::Global;
use std::marker::Model;
use std::mem;
use std::thread::Threads;

/// Parts of the tiles of a series as pieces, the pairs that are likely near, and the words in which workers tell each
/// other of ranks.
#[derive(Drop)]
pub(crate) struct ToldRanks<'a, 's, const K: usize> {
    tiles: &'a TileParts<'a>,
    seeds: &'a Seeds,
    words: &'a RankWords<'s, K>,
}

impl<'a, 's, const K: usize> Model for ToldRanks<'a, 's, K> {
    ghost use Rattle.mp_topk.specs.Words.{AreTellingOf, RankTiling};

    ghost Value = { RankTiling };

    ghost view = { λ told. record { own = told.tiles.now; words = told.words.now } };

    ghost invariant = { λ told. AreTellingOf told.tiles.now told.words.now.series };
}

impl<'a, 's, const K: usize> Telling for ToldRanks<'a, 's, K> {
    ghost use Rattle.std.specs.Prelude.{length};
    ghost use Rattle.mp_topk.specs.Words.{IsHoldOf, IsPieceKnown};

    type Hold = RankHold;

    ghost pieces_of = { λ told. length told.own.tiles };

    ghost is_hold = { λ told n hold. IsHoldOf K told.words n hold };

    ghost is_told = { λ told hold. IsPieceKnown K told.own hold.view };

    fn pieces(&self) -> u64 {
        self.tiles.pieces()
    }

    fn split(&self, hold: &mut RankHold) -> RankHold {
        let words = self.words;
        words.split(hold)
    }

    fn join(&self, hold: &mut RankHold, other: RankHold) {
        let words = self.words;
        words.join(hold, other);
    }

    fn tell_ahead(&self, share: u32, shares: u32, hold: &mut RankHold) {
        let words = self.words;
        let own = mem::replace(hold, words.idle());
        let mut teller = RankTeller::of(words, own);
        self.tiles
            .offer_seeds::<TellEachOther<K>>(self.seeds, share, shares, &mut teller);
        *hold = teller.into_hold();
    }

    fn tell(&self, piece: u64, hold: &mut RankHold) {
        let words = self.words;
        let own = mem::replace(hold, words.idle());
        let mut teller = RankTeller::of(words, own);
        self.tiles.offer::<TellEachOther<K>>(piece, &mut teller);
        *hold = teller.into_hold();
    }
}

/// Has so many workers tell each other of the pairs of all tiles, and before these of such as are likely near. What is
/// known at the end tells each window's ranks.
pub(crate) fn tell_ranks<R: Threads + Sync, G: Gate, const K: usize>(
    rt: &R,
    alloc: Global,
    tiles: &TileParts,
    seeds: &Seeds,
    words: &RankWords<K>,
    hold: RankHold,
    workers: u32,
    gate: &G,
) -> Result<RankHold, Memory>
    requires pieces { length tiles.now.tiles ≤ MAX_PIECES }
    requires together { ranks_together K tiles.now ≡ ranks_whole K tiles.now }
    requires tiles { AreTellingOf tiles.now words.now.series }
    requires hold { IsHoldOf K words.now whole hold }
    requires some { 1 ≤ workers }
    requires workers { workers ≤ MAX_WORKERS }
    ensures hold { IfOk result (λ hold. IsHoldOf K words.now whole hold) }
    ensures all { IfOk result (λ hold. AreAllTold K tiles.now hold.view) }
{
    let told = ToldRanks {
        tiles,
        seeds,
        words,
    };
    run_telling(rt, alloc, &told, hold, workers, gate)
}

/// The lists of the ranks of each window of length `m`, of which workers tell each other in words.
pub(crate) fn lists_told<R: Threads + Sync, G: Gate, const K: usize>(
    rt: &R,
    alloc: Global,
    samples: &[Sample],
    m: u32,
    tiles: &TileParts,
    seeds: &Seeds,
    workers: u32,
    gate: &G,
) -> Result<Vec<NearList>, Memory>
    requires least { 1 ≤ m }
    requires few { length samples.now ≤ MAX_SAMPLES }
    requires pieces { length tiles.now.tiles ≤ MAX_PIECES }
    requires together { ranks_together K tiles.now ≡ ranks_whole K tiles.now }
    requires tiles { AreTellingOf tiles.now (entries_of samples.now m) }
    requires some { 1 ≤ workers }
    requires workers { workers ≤ MAX_WORKERS }
    ensures { IfOk result (λ lists. lists_in lists.items ≡ whole_of K (entries_of samples.now m)) }
{
    let (words, hold) = RankWords::<K>::new(alloc, samples, m)?;
    let hold = tell_ranks(rt, alloc, tiles, seeds, &words, hold, workers, gate)?;
    let places = words.into_places(alloc, hold)?;
    compact_lists_of(rt, alloc, places.as_slice(), workers)
}
