//! What a session reads, writes, fetches and passes: the traits, the system's streams and stand-ins in memory.
#![tactic(auto)]

mod calm_shelves;
mod calm_sinks;
mod calm_sources;
mod disk_shelves;
mod failures;
mod fault_plans;
mod gates;
mod hold_gates;
mod loop_sources;
mod meet_gates;
mod mem_shelves;
mod mem_sinks;
mod mem_sources;
mod real_streams;
mod retries;
mod shelves;
mod sinks;
mod sources;

pub use calm_shelves::CalmShelf;
pub use calm_sinks::CalmSink;
pub use calm_sources::CalmSource;
pub use disk_shelves::DiskShelf;
pub use failures::{Failed, ShelfAnswer};
pub use gates::{Gate, OpenGate};
pub use hold_gates::HoldGate;
pub use loop_sources::LoopSource;
pub use meet_gates::MeetGate;
pub use mem_shelves::MemShelf;
pub use mem_sinks::MemSink;
pub use mem_sources::MemSource;
pub use real_streams::{StdSink, StdSource};
pub use shelves::Shelf;
pub use sinks::Sink;
pub use sources::Source;

#[cfg(test)]
mod tests;
