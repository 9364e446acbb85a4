//! Series of samples: which windows a series has, which of them may be compared, and a list that counts how often
//! its samples are read.
#![tactic(auto)]

mod bundles;
mod counted_list;
mod limits;
mod missing_counts;
mod ring;
mod sliding;
mod zone;

pub use bundles::Bundle;
pub use counted_list::{PushRefusal, Samples};
pub use limits::{MAX_SAMPLES, MAX_WINDOW, MIN_WINDOW, limits_are_as_defined};
pub use ring::Ring;
pub use zone::{allowed, excl, windows};
