//! What a session answers: the lines of an input, the state between them, and the report of each line.
//!
//! The definitions stand in `specs/`. Each function here does nothing, and its contract is a law about them.
#![tactic(auto)]

mod causes;
mod examples;
mod laws;
mod makes;
mod modes;
mod refs;

pub use causes::Cause;
pub use examples::{
    asked_lines, bad_item_is_named, chain_output, consensus_output, end_output, entry_output,
    first_version_output, full_kept_series_is_refused, full_lazy_series_is_refused,
    full_series_is_refused, join_output, json_output, kept_output, kept_refusals_output,
    lazy_output, lazy_refusals_output, lines_end_or_not, load_output, loaded_files, made_output,
    multi_output, open_output, pan_output, pattern_output, plain_output, refusals_output,
    refused_piece_output, scaled_output, segments_output, short_output, spelled_items,
    spelled_reports, spelled_words, wide_json_output, wide_output,
};
pub use laws::{
    answers_refuse_by_cause, appends_add_up, bad_items_are_the_first, ends_are_answered,
    limits_are_kept, long_lines_are_cut, other_lines_read_no_file, quiet_lines_are_silent,
    refused_lines_change_nothing, tile_and_workers_change_nothing, words_stand_in_order,
};
pub use makes::Make;
pub use modes::{Mode, ReportForm};
pub use refs::Ref;
