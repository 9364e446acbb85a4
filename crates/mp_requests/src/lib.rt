//! What a line asks to be told: why it is refused, its answer, and its report.
#![tactic(auto)]

mod answers;
mod conditions;
mod context;
mod named;
mod replies;
mod reports;
mod requests;

pub use answers::{Answer, ReplyKind};
pub use conditions::part_cause;
pub use context::Context;
pub use replies::{Reply, Stop};
pub use reports::{Report, Segments, Window};
pub use requests::{Comparison, Pair, Pattern, Regimes, Repeats, ReportRequest, Unusual};
