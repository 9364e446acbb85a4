//! Tests of several channels together, compared with the plain double loop. They stand above `mp_multi`, since a crate
//! with tests is proved twice.
#![tactic(auto)]

#[cfg(test)]
mod channels;
#[cfg(test)]
mod plain;
#[cfg(test)]
mod profiles;
#[cfg(test)]
mod sums;
