//! What is scanned.

ghost use Rattle.std.specs.Prelude.{◌≡◌, ◌*◌, ◌<◌, length, slice_index_or, []};
ghost use Rattle.mp_sums.specs.declared.numbers.TheConstants.{NUMBER_BITS};

use crate::channels::Channels;
use mp_scans::Plan;
use mp_sums::{Grid, Rounding};

/// Channels whose windows are compared, and how far their samples are rounded. Any rounding finds the same windows.
#[derive(Clone, Copy)]
pub(crate) struct MultiPlan<'a> {
    pub(crate) channels: Channels<'a>,
    pub(crate) shift: u32,
    ghost small: { shift < NUMBER_BITS },
}

impl<'a> MultiPlan<'a> {
    /// The rounding of each channel.
    #[inline]
    pub(crate) fn rounding(&self) -> Rounding
        ensures m { result.m ≡ self.now.channels.m }
        ensures shift { result.shift ≡ self.now.shift }
    {
        Rounding {
            m: self.channels.m,
            shift: self.shift,
        }
    }

    /// The rounding of the windows of as many channels as are taken together, one behind the other.
    #[inline]
    pub(crate) fn together(&self) -> Rounding
        ensures m { result.m ≡ self.now.channels.k * self.now.channels.m }
        ensures shift { result.shift ≡ self.now.shift }
    {
        Rounding {
            m: self.channels.k as u32 * self.channels.m,
            shift: self.shift,
        }
    }

    /// The plan of a channel with itself.
    pub(crate) fn plan(&self, c: usize) -> Plan<'a>
        requires channel { c < length self.now.channels.list.now }
        ensures rows { result.grid.rows.now ≡ slice_index_or self.now.channels.list.now c [] }
        ensures columns { result.grid.columns.now ≡ slice_index_or self.now.channels.list.now c [] }
        ensures m { result.grid.m ≡ self.now.channels.m }
        ensures shift { result.rounding.shift ≡ self.now.shift }
    {
        let channel = self.channels.list.series(c as u64);
        Plan {
            grid: Grid {
                rows: channel,
                columns: channel,
                m: self.channels.m as usize,
            },
            rounding: self.rounding(),
            is_exact: false,
            is_own: true,
        }
    }
}
