//! The scan of a tile of pairs of windows by residues, on thirty-two diagonals at once.
#![tactic(auto)]

mod blocks;
mod exacts;
mod firsts;
mod groups;
mod limits;
mod marks;
mod offers;
mod pairs;
mod plans;
mod runs;
mod scans;
mod shifts;
mod sizes;
mod slots;
mod strips;
mod vectors;

pub use exacts::{Exact, exact_distance};
pub use firsts::{fill_windows, start_residues};
pub use marks::mark_free;
pub use offers::{Firsts, Offers};
pub use plans::Plan;
pub use scans::scan;
pub use sizes::{COLUMNS, GROUP, ROWS, SHORT};
pub use slots::limit_of;
pub use vectors::{
    LANES, add_lanes, is_within, lanes_above, least_lane, load, next_clear, order_lanes,
    raise_lanes, step, store,
};
