//! Texts of samples, read and written, and tables of samples.
#![tactic(auto)]

mod laws;
mod records;
mod refusal;
mod spelling;
mod tables;
mod writing;

pub use laws::{table_faults_are_the_first, written_samples_are_read_back};
pub use refusal::{SampleFault, TableFault};
pub use spelling::read_sample;
pub use tables::read_table;
pub use writing::write_sample;
