//! Blocks of pairs of windows that need not be looked at, since sums of their samples tell that they are far apart.
#![tactic(auto)]

mod blocks;
mod distances;
mod fills;
mod laws;
mod levels;
mod mates;
mod needs;
mod pairs;
mod scans;
mod seeds;
mod sides;
mod summed;
mod sums;
mod trials;
mod vectors;

pub use laws::{core_is_below, floors_are_safe, groups_are_below, square_of_sum_is_below};
pub use needs::need_of;
pub use scans::scan_apart;
pub use seeds::{Seeds, Seeking, scan_seeds};
pub use sides::{RowsFrom, scan_apart_from, scan_by_sums_from};
pub use summed::{Summed, SummedBoth, units_for};
pub use sums::{Coarse, MOST_GRAINS, MOST_SUM, NO_NEED, Side, Units};
pub use trials::scan_by_sums;
pub use vectors::{add_eight, order_eight};
