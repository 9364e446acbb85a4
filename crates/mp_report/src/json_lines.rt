//! The reports as JSON, each an object in one line, with the bytes that the definitions give.

pub mod answers;
pub mod chains;
pub mod channels;
mod lines;
pub mod matches;
pub mod pans;
pub mod parts;
pub mod profiles;
pub mod ranks;
pub mod segments;
pub mod slots;
mod values;
