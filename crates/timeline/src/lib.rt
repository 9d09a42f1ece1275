//! A timeline of a report: each session has columns, the same in every log, and stands right of
//! each session that any log has before it, and of each earlier session of its job.
#![tactic(auto)]

mod agreement;
mod behind;
mod entries;
mod entry_faults;
mod fault;
mod faulty;
mod jobs;
mod named_twice;
mod order;
mod own;
mod place;
mod span;
pub mod timeline;

pub use entries::same_session;
pub use fault::{EntryCause, TimelineFault};
pub use jobs::job_number;
pub use span::{Span, span_of};
pub use timeline::{Timeline, timeline_of};
