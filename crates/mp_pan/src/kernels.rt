//! The lengths of a range as the pieces of a kernel.

ghost use Rattle.std.specs.Prelude.{◌≡◌, ◌+◌, ◌*◌, ◌<◌, ◌≤◌, length, min};
ghost use Rattle.std.specs.Int.{div_ceil};
ghost use Rattle.mp_series.specs.declared.limits.TheConstants.{MAX_SAMPLES, MAX_WINDOW, MIN_WINDOW};
ghost use Rattle.mp_pan.specs.declared.limits.TheConstants.{MAX_LENGTHS, SPAN};

use crate::found::Found;
use crate::lengths::Lengths;
use crate::limits::{MAX_LENGTHS, SPAN};
use mp_nums::Sample;
use mp_partial::Kernel;
use mp_series::{MAX_SAMPLES, MAX_WINDOW, MIN_WINDOW, windows};

/// Successive window lengths of a series as the pieces of a kernel: four for each piece, and fewer at the end. The
/// values of all pieces together are the best pair and the first discord of each length.
#[derive(Drop)]
pub(crate) struct LengthRange<'a> {
    pub(crate) samples: &'a [Sample],
    /// The least length.
    pub(crate) lo: u32,
    /// How many lengths there are.
    pub(crate) count: u32,
    ghost few_samples: { length samples.now ≤ MAX_SAMPLES },
    ghost shortest: { MIN_WINDOW ≤ lo },
    ghost longest: { lo + count ≤ MAX_WINDOW + 1 },
    ghost few: { count ≤ MAX_LENGTHS },
}

impl<'a> LengthRange<'a> {
    /// The lengths of a piece.
    fn span(&self, piece: u64) -> Lengths<'a>
        requires { piece < div_ceil self.now.count SPAN }
        ensures samples { result.samples.now ≡ self.now.samples.now }
        ensures least { result.least ≡ self.now.lo + SPAN * piece }
        ensures end { SPAN * piece + result.count ≡ min (SPAN * piece + SPAN) self.now.count }
    {
        let first = piece as u32 * SPAN as u32;
        Lengths {
            samples: self.samples,
            least: self.lo + first,
            count: (self.count - first).min(SPAN as u32) as usize,
        }
    }
}

impl<'a> Kernel for LengthRange<'a> {
    ghost use Rattle.std.specs.Prelude.{length};
    ghost use Rattle.std.specs.Int.{div_ceil};
    ghost use Rattle.mp_defs.specs.Series.{series_of};
    ghost use Rattle.mp_defs.specs.Window.{windows};
    ghost use Rattle.mp_pan.specs.declared.limits.TheConstants.{SPAN};
    ghost use Rattle.mp_pan.specs.Ranges.{span_value};
    ghost use Rattle.mp_pan.specs.RangeLaws.{span_has_extremes};

    type Out = Found;

    ghost size_of = { λ range. windows (length range.samples.now) range.lo };

    ghost pieces_of = { λ range. div_ceil range.count SPAN };

    ghost value_of = { λ range. span_value range.lo range.count (series_of range.samples.now) };

    ghost has_values = { λ range piece _. span_has_extremes range.lo range.count (series_of range.samples.now) piece };

    fn size(&self) -> u64 {
        windows(self.samples.len() as u64, self.lo)
    }

    fn pieces(&self) -> u64 {
        u64::from(self.count.div_ceil(SPAN as u32))
    }

    fn run(&self, piece: u64, into: &mut Found) {
        into.take(self.lo, &self.span(piece));
    }
}
