//! Workers that draw the pieces of a kernel from one desk and run them side by side, and the profiles and joins that
//! they compute.
#![tactic(auto)]

mod aside;
mod begins;
mod columns;
mod desks;
mod entries;
mod holds;
mod joins;
mod laws;
mod passes;
mod seeks;
mod shared_tiles;
mod sharing;
mod teams;
mod tellers;
mod telling;
mod told_columns;
mod told_tiles;
mod workers;

pub use aside::run_aside;
pub use begins::Begin;
pub use desks::Desk;
pub use joins::{MOST_TOLD, PARTS, ab_join, parts_for, self_join, workers_for};
pub use laws::desk_gives_each_piece;
pub use passes::Pass;
pub use seeks::find_by_workers;
pub use sharing::{Sharing, run_sharing, run_sharing_in};
pub use teams::{run_all, run_begun, run_one_after_another};
pub use telling::{Telling, run_telling};
