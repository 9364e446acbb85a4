//! A bound that threads share: a radius that some window is known to have, the least so far.

ghost use Rattle.std.specs.Prelude.{◌≡◌, ◌<◌, ◌≤◌, length, IfOk, IfSome, IfNone};
ghost use Rattle.mp_consensus.specs.Bounds.{HasLeast, least_radius, no_bound};
ghost use Rattle.mp_consensus.specs.Searches.{IsPast};

use crate::centres::MAX_SERIES;
use crate::lookers::{Another, Compared, Looker, LookerView, Lower, Read, SharedRule};
use atomic_table::Table;
use mp_nums::{Memory, Sq};
use mp_series::Bundle;
use std::alloc::Global;
use std::marker::Model;

/// The word of a bound that is none.
const NO_BOUND: u64 = u64::MAX;

/// The least radius that some window of a list of series is known to have, shared by any number of threads, of which
/// each has a looker of its own. A window whose distance to some other series is greater can't be the centre. Two
/// threads of a caller's own share one so:
///
/// ```
/// let (bound, mut looker) = Bound::new(alloc, &list, m)?;
/// let mut other = bound.split(&mut looker);
/// join_mut(
///     rt,
///     &mut || bound.lower(&mut looker, radius),
///     &mut || seen = bound.read(&mut other),
/// );
/// ```
#[derive(Drop)]
pub struct Bound<'a> {
    table: Table<(), LookerView, Compared<'a>, SharedRule, Global>,
}

impl<'a> Model for Bound<'a> {
    ghost use Rattle.std.specs.Prelude.{◌≡◌};
    ghost use Rattle.mp_consensus.specs.Bounds.{BoundId};

    ghost Value = { BoundId };

    ghost view = { λ bound. record { table = bound.table.shared.table_id } };

    ghost invariant = { λ bound. bound.table.shared.table_id.words ≡ 1 };
}

impl<'a> Bound<'a> {
    /// No bound yet for the windows of length `m` of 2 to 64 series, and a looker. It keeps none of the series.
    pub fn new(alloc: Global, list: &'a Bundle, m: u32) -> Result<(Bound<'a>, Looker), Memory>
        requires two { 2 ≤ length list.now }
        requires few { length list.now ≤ MAX_SERIES }
        ensures bound { IfOk result (λ made. made.1.bound ≡ made.0) }
        ensures seen { IfOk result (λ made. made.1.seen ≡ no_bound) }
        ensures least { IfOk result (λ made. made.1.least ≡ least_radius m list.now) }
    {
        let (table, seat) = Table::of_words(alloc, &[NO_BOUND], &Compared::of(list, m))?;
        Ok((Bound { table }, Looker { seat }))
    }

    /// Another looker, which has seen the same. It takes no memory.
    pub fn split(&self, looker: &mut Looker) -> Looker
        requires { looker.old.bound ≡ self.now }
        ensures same { looker.new ≡ looker.old }
        ensures other { result ≡ looker.old }
    {
        Looker {
            seat: self.table.shared.split_seat::<Another>(&mut looker.seat),
        }
    }

    /// The least radius that was told so far, no greater than what the looker saw before. It waits for nobody, and
    /// takes no memory.
    pub fn read(&self, looker: &mut Looker) -> Option<Sq>
        requires { looker.old.bound ≡ self.now }
        ensures bound { looker.new.bound ≡ looker.old.bound }
        ensures least { looker.new.least ≡ looker.old.least }
        ensures radius { IfSome result (λ radius. HasLeast looker.old.least radius.0) }
        ensures seen { IfSome result (λ radius. (radius.0 ≤ looker.old.seen) × (looker.new.seen ≡ radius.0)) }
        ensures none { IfNone result ((looker.old.seen ≡ no_bound) × (looker.new.seen ≡ no_bound)) }
    {
        let word = self.table.shared.load::<Read>(&mut looker.seat, 0);
        if word == NO_BOUND {
            None
        } else {
            Some(Sq(u128::from(word)))
        }
    }

    /// A distance at which no window is the centre: one more than the least radius that was told so far.
    pub(crate) fn end(&self, looker: &mut Looker) -> Option<Sq>
        requires { looker.old.bound ≡ self.now }
        ensures bound { looker.new.bound ≡ looker.old.bound }
        ensures least { looker.new.least ≡ looker.old.least }
        ensures past { IfSome result (λ end. IsPast looker.old.least end.0) }
    {
        match self.read(looker) {
            Some(radius) if radius.0 < u128::MAX => Some(Sq(radius.0 + 1)),
            _ => None,
        }
    }

    /// Tells a radius that some window has. One that doesn't fit the word is left out. It waits for nobody, and takes
    /// no memory.
    pub fn lower(&self, looker: &mut Looker, radius: Sq)
        requires bound { looker.old.bound ≡ self.now }
        requires radius { HasLeast looker.old.least radius.0 }
        ensures bound { looker.new.bound ≡ looker.old.bound }
        ensures least { looker.new.least ≡ looker.old.least }
        ensures no_greater { looker.new.seen ≤ looker.old.seen }
        ensures seen { radius.0 < no_bound → looker.new.seen ≤ radius.0 }
    {
        if radius.0 < u128::from(NO_BOUND) {
            let _before = self
                .table
                .shared
                .fetch_min::<Lower>(&mut looker.seat, 0, radius.0 as u64);
        }
    }
}
