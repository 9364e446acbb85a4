//! The tiles of a series, drawn by workers that tell each other what they find as soon as they find it.

ghost use Rattle.std.specs.Prelude.{◌≡◌, ◌≤◌, length, IfOk};
ghost use Rattle.mp_partial.specs.declared.limits.TheConstants.{MAX_PIECES, MAX_WORKERS};
ghost use Rattle.mp_tiles.specs.Pieces.{own_together, own_whole};
ghost use Rattle.mp_workers.specs.Tellers.{IsHold, IsWholeTold};
ghost use Rattle.mp_workers.specs.ToldTiles.{AreToldOf};

use crate::entries::Entries;
use crate::holds::Hold;
use crate::tellers::{TellEachOther, Teller};
use crate::telling::{Telling, run_telling};
use mp_nums::Memory;
use mp_outside::Gate;
use mp_partial::Kernel;
use mp_skips::Seeds;
use mp_tiles::TileParts;
use std::alloc::Global;
use std::marker::Model;
use std::thread::Threads;

/// Parts of the tiles of a series as pieces, the pairs that are likely near, and the entries in which workers tell each
/// other what they find.
#[derive(Drop)]
struct ToldTiles<'a, 's> {
    tiles: &'a TileParts<'a>,
    seeds: &'a Seeds,
    entries: &'a Entries<'s>,
}

impl<'a, 's> Model for ToldTiles<'a, 's> {
    ghost use Rattle.mp_workers.specs.ToldTiles.{AreToldOf, ToldTiling};

    ghost Value = { ToldTiling };

    ghost view = { λ told. record { own = told.tiles.now; entries = told.entries.now } };

    ghost invariant = { λ told. AreToldOf told.tiles.now told.entries.now.series };
}

impl<'a, 's> Telling for ToldTiles<'a, 's> {
    ghost use Rattle.std.specs.Prelude.{length};
    ghost use Rattle.mp_workers.specs.Tellers.{IsHold};
    ghost use Rattle.mp_workers.specs.ToldTiles.{IsPieceTold};

    type Hold = Hold;

    ghost pieces_of = { λ told. length told.own.tiles };

    ghost is_hold = { λ told _ hold. IsHold told.entries hold };

    ghost is_told = { λ told hold. IsPieceTold told.own hold.told };

    fn pieces(&self) -> u64 {
        self.tiles.pieces()
    }

    fn split(&self, hold: &mut Hold) -> Hold {
        self.entries.split(hold)
    }

    fn join(&self, hold: &mut Hold, other: Hold) {
        self.entries.join(hold, other);
    }

    fn tell_ahead(&self, share: u32, shares: u32, _hold: &mut Hold) {
        let mut teller = Teller::new(self.entries, self.tiles.window());
        self.tiles
            .offer_seeds::<TellEachOther>(self.seeds, share, shares, &mut teller);
    }

    fn tell(&self, piece: u64, hold: &mut Hold) {
        let mut teller = Teller::new(self.entries, self.tiles.window());
        self.tiles.offer::<TellEachOther>(piece, &mut teller);
        self.entries.join(hold, teller.into_hold());
    }
}

/// Has so many workers tell each other of the pairs of all tiles, and before these of such as are likely near. What is
/// known at the end tells each window of both sides of the profile.
pub(crate) fn tell_all<R: Threads + Sync, G: Gate>(
    rt: &R,
    alloc: Global,
    tiles: &TileParts,
    seeds: &Seeds,
    entries: &Entries,
    workers: u32,
    gate: &G,
) -> Result<Hold, Memory>
    requires pieces { length tiles.now.tiles ≤ MAX_PIECES }
    requires together { own_together tiles.now ≡ own_whole tiles.now }
    requires tiles { AreToldOf tiles.now entries.now.series }
    requires some { 1 ≤ workers }
    requires workers { workers ≤ MAX_WORKERS }
    ensures hold { IfOk result (λ hold. IsHold entries.now hold) }
    ensures whole { IfOk result (λ hold. IsWholeTold entries.now.series hold.told) }
{
    let told = ToldTiles {
        tiles,
        seeds,
        entries,
    };
    run_telling(rt, alloc, &told, entries.hold(), workers, gate)
}
