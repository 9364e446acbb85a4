//! Tests of the session that need code: runs that a failed call or a limit ends early, the longest lines and largest
//! files, and the replies to lines one by one. Whole runs stand in `stored_runs`, and tests of calls that need no
//! session in `text_tests`.
#![tactic(auto)]

#[cfg(test)]
mod appends;
#[cfg(test)]
mod calls;
#[cfg(test)]
mod damaged;
#[cfg(test)]
mod faults;
#[cfg(test)]
mod limits;
#[cfg(test)]
mod long_series;
#[cfg(test)]
mod replies;
#[cfg(test)]
mod run;
#[cfg(test)]
mod single_faults;
#[cfg(test)]
mod workers;
