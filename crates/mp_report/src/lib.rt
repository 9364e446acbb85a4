//! The texts of the reports, and the reports as JSON, each with the bytes that the definitions give. A writer has its
//! name here and in its module.
#![tactic(auto)]

pub mod answers;
pub mod chains;
pub mod channels;
pub mod json_lines;
pub mod matches;
mod numbers;
pub mod pans;
pub mod parts;
pub mod profiles;
pub mod ranks;
pub mod segments;
pub mod slots;
pub mod summaries;

pub use answers::{ok_text, refused_text};
pub use chains::{chain_text, chains_text};
pub use channels::{consensus_text, mpdist_text};
pub use json_lines::answers::{ok_json, refused_json};
pub use json_lines::chains::{chain_json, chains_json};
pub use json_lines::channels::{consensus_json, mpdist_json};
pub use json_lines::matches::{discords_json, match_json, motifs_json};
pub use json_lines::pans::pan_json;
pub use json_lines::parts::{advance_json, partial_json};
pub use json_lines::profiles::{
    entry_json, kept_entry_json, kept_profile_json, profile_json, window_json,
};
pub use json_lines::ranks::nearest_json;
pub use json_lines::segments::segments_json;
pub use json_lines::slots::slots_json;
pub use matches::{discords_text, match_text, motifs_text};
pub use mp_replies::Cause;
pub use pans::pan_text;
pub use parts::{advance_text, partial_text};
pub use profiles::{entry_text, kept_entry_text, kept_profile_text, profile_text, window_text};
pub use ranks::nearest_text;
pub use segments::segments_text;
pub use slots::{SlotsName, slots_text};
pub use summaries::generated_text;
