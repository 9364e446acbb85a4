//! What is found in profiles and series: matches, motifs, discords, the nearest windows by ranks, chains, arcs and
//! regimes, MPdist, the profile of several channels, the centre of several series, profiles in parts, and made series.
//!
//! The definitions stand in `specs/`. The crates that compute each of these have contracts that cite them, and so have
//! the crates that report it.
#![tactic(auto)]
