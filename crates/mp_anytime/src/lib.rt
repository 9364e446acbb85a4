//! A matrix profile in parts: an exact profile over a stated set of diagonals, at each moment.
//!
//! Diagonal `d` has the pairs of windows that start `d` samples apart. The diagonals are covered one by one, in the
//! order of their binary digits read backwards, so that a part of them lies spread over all. Each entry is the nearest
//! of the windows that were compared so far, as in SCRIMP, but over a set of pairs that is known.
#![tactic(auto)]

mod any_found;
mod bits;
mod bounds;
mod coverage;
mod diagonals;
mod extending;
mod found;
mod kept;
mod laws;
mod lazy;
mod limits;
mod moving;
mod narrow;
mod offers;
mod pairs;
mod residue_found;
mod residue_kernels;
mod residue_sides;
mod reversals;
mod rounded;
mod sides;
mod sums;
mod waiting;

pub use laws::{covers_the_next, entries_never_rise, whole_is_the_profile};
pub use lazy::{Anytime, AppendRefusal};
