//! Profiles of a part of the pairs of windows, and the traits by which parts are computed piece by piece and merged in
//! any order.
#![tactic(auto)]

mod benches;
mod columns;
mod kernels;
mod laws;
mod limits;
mod order;
mod parts;
mod patches;
mod profiles;
mod slots;

pub use benches::Bench;
pub use columns::offer_at;
pub use kernels::Kernel;
pub use laws::{merges_by_pieces, offers_are_merges, pieces_of_lists};
pub use limits::{MAX_PIECES, MAX_WORKERS};
pub use order::run_in_order;
pub use parts::{Part, units};
pub use patches::{MAX_PATCH_COLUMNS, MAX_PATCH_ROWS, Patch};
pub use profiles::Profile;
