//! Numbers of the matrix profile: samples, squared distances, nearest windows, fractions and lists.
#![tactic(auto)]

mod finds;
mod laws;
mod lists;
mod nearest;
mod ratios;
mod refusal;
mod samples;
mod widths;

pub use finds::{Centre, Discord, Motif, Pair, PanRow};
pub use laws::{
    nearer_has_unit, nearer_is_associative, nearer_is_commutative, nearer_is_idempotent,
};
pub use lists::{Items, NearList, Places, Slots, SqList, Text};
pub use nearest::{Near, Slot, Sq, nearer};
pub use ratios::Ratio;
pub use refusal::Memory;
pub use samples::{Sample, Whole};
pub use widths::Width;
