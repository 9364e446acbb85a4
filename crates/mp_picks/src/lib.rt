//! The rule by which places are chosen, one by one: the place that comes first by its key is chosen, and those in its
//! zone are shut out.
#![tactic(auto)]

mod candidates;
mod examples;
mod laws;
mod picking;
mod zones;

pub use candidates::Candidate;
pub use examples::chosen_by_hand;
pub use laws::{picks_are_described, picks_are_retold};
pub use picking::picks;
pub use zones::shut_out;
