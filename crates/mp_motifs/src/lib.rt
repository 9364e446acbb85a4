//! Matches of a pattern, repeated patterns (motifs) and unusual windows (discords).
#![tactic(auto)]

mod examples;
mod laws;
mod matching;
mod repeated;
mod unusual;

pub use examples::{discords_by_hand, matches_by_hand, motifs_by_hand};
pub use laws::more_rounds_change_nothing;
pub use matching::matches;
pub use repeated::motifs;
pub use unusual::discords;
