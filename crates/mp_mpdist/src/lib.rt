//! MPdist: how far apart two series are, from the two joins between them.
#![tactic(auto)]

mod distances;
mod examples;
mod laws;

pub use distances::mpdist;
pub use examples::worked_distances;
pub use laws::{mpdist_is_at_its_place, places_have_one_item};
