//! Pieces of work that are claimed, finished and delivered by workers, as a machine of one thread: what becomes of its
//! state at each event, and that what was delivered is the merge of the pieces' values.
#![tactic(auto)]

mod boards;
mod cores;
mod events;
mod laws;
mod states;

pub use cores::Core;
pub use events::{CoreRefusal, Event};
pub use laws::{
    any_shares_make_the_whole, pieces_are_once, refusals_have_causes, refused_events_change_nothing,
};
pub use mp_partial::{MAX_PIECES, MAX_WORKERS};
pub use states::{PieceState, WorkerState};
