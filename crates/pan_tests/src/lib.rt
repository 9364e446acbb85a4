//! Tests of the window lengths of a range, each compared with the profile of that length alone. They stand above
//! `mp_pan`, since a crate with tests is proved twice.
#![tactic(auto)]

#[cfg(test)]
mod alone;
#[cfg(test)]
mod lengths;
#[cfg(test)]
mod series;
