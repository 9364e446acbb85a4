//! Tests of `mp_scans` and `mp_tiles`: scans, tiles and patches compared with the plain double loop. They stand above
//! these, since a crate with tests is proved twice.
#![tactic(auto)]

mod found;
#[cfg(test)]
mod join_sums;
#[cfg(test)]
mod roundings;
#[cfg(test)]
mod series;
#[cfg(test)]
mod sums;
#[cfg(test)]
mod tiles;
