//! Tests of calls that need no session: lists and fractions, an input in pieces, what words ask for, and the writers of
//! reports. Whole runs, which show what most of these do, stand in `stored_runs`.
#![tactic(auto)]

#[cfg(test)]
mod json_reports;
#[cfg(test)]
mod lists;
#[cfg(test)]
mod pieces;
#[cfg(test)]
mod reports;
#[cfg(test)]
mod words;
