//! Tests of profiles in parts, compared with the definitions step by step. They stand above `mp_anytime`, since a crate
//! with tests is proved twice.
#![tactic(auto)]

#[cfg(test)]
mod parts;
#[cfg(test)]
mod plain;
#[cfg(test)]
mod series;
#[cfg(test)]
mod steps;
