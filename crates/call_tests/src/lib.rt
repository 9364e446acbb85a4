//! Tests of calls that no line of a session shows as they are: each one that takes memory is run with enough of it, and
//! each generic one at a concrete type. They stand above the crates that they call, since a crate with tests is proved
//! twice.
#![tactic(auto)]

#[cfg(test)]
mod bounds;
#[cfg(test)]
mod centres;
#[cfg(test)]
mod cores;
#[cfg(test)]
mod desks;
#[cfg(test)]
mod expected;
#[cfg(test)]
mod finds;
#[cfg(test)]
mod joins;
#[cfg(test)]
mod marks;
#[cfg(test)]
mod meetings;
#[cfg(test)]
mod numbers;
#[cfg(test)]
mod queries;
#[cfg(test)]
mod rings;
#[cfg(test)]
mod series;
#[cfg(test)]
mod texts;
