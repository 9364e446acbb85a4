//! The multidimensional profile: several channels together, by those in which two windows lie nearest.
#![tactic(auto)]

mod blocks;
mod bounds;
mod channels;
mod entries;
mod exacts;
mod examples;
mod fast;
mod fours;
mod groups;
mod kernels;
mod known;
mod lanes;
mod laws;
mod limits;
mod mates;
mod moves;
mod near;
mod needs;
mod pairs;
mod plans;
mod profiles;
mod running;
mod runs;
mod scans;
mod seeds;
mod selection;
mod shared;
mod shifts;
mod sides;
mod sizes;
mod skips;
mod strips;
mod summed;
mod tiles;
mod values;

pub use examples::worked_profiles;
pub use laws::{entry_is_nearest, sum_is_least, tiles_make_the_multi};
pub use limits::MAX_CHANNELS;
pub use profiles::multi;
pub use scans::scan_multi;
pub use values::least_sum;
