//! What a matrix profile is: series, windows, distances, exclusion zones and entries, with their laws.
//!
//! The definitions stand in `specs/`. Each function here does nothing, and its contract is a law about them.
#![tactic(auto)]

mod examples;
mod laws;

pub use examples::{
    extreme_entries, joined_entries, missing_entries, plain_entries, short_series_has_no_windows,
    tied_entries, widest_entries,
};
pub use laws::{
    columns_are_by_choice, columns_have_places, distance_grows_by_one_sample,
    distance_is_of_free_windows, distance_is_symmetric, entries_are_nearest,
    entries_are_of_both_sides, least_grows_by_one_candidate, least_is_first, nearest_is_by_choice,
    series_are_of_samples, zone_is_mutual,
};
