//! A matrix profile that grows with its series, one sample at a time: of a `Stream`, which keeps all samples, or of a
//! `Kept`, which keeps the last ones and takes no memory for what comes.
//!
//! Beside the profile stands a row: the distances of the last window to all windows. One sample more moves each pair of
//! windows one place on, and so each distance loses one square and gains one. This is the step of STUMPY's `aampi`,
//! in whole numbers.
#![tactic(auto)]

mod bests;
mod entries;
mod kept;
mod kept_profiles;
mod last_columns;
mod laws;
mod limits;
mod marked;
mod moves;
mod narrow;
mod narrow_rows;
mod narrow_sums;
mod nearest;
mod offers;
mod profiles;
mod queues;
mod rows;
mod streams;
mod sums;
mod taking;
mod wide;

pub use kept::{Column, Kept, KeptRefusal, MAX_APPENDED};
pub use laws::entries_grow;
pub use marked::BLOCK;
pub use streams::{AppendRefusal, Stream};
