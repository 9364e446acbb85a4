//! Texts as bytes: the lines of an input, the fields of a line, and numbers in digits.
#![tactic(auto)]

mod blanks;
mod digits;
mod fields;
mod laws;
mod values;

pub use blanks::{is_blank, same_text};
pub use digits::read_number;
pub use fields::{Fields, without_cr};
pub use laws::{fields_are_found_again, lines_are_the_input};
pub use values::Values;
