//! Tests of `mp_stream`: appends compared with the plain double loop. They stand above it, since a crate with tests is
//! proved twice.
#![tactic(auto)]

#[cfg(test)]
mod kept;
#[cfg(test)]
mod series;
#[cfg(test)]
mod stream;
