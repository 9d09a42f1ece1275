//! One type of handle for C, which has a lab, a report, or nothing; how a call takes out what it has and puts it back; and the calls on a lab of one handle:
//! what each does to it, what it tells, as structs that C has too, and its status.
#![tactic(auto)]

mod additions;
mod deeds;
mod ending;
mod for_text;
mod giving_up;
mod handle;
mod inside;
mod journals;
mod opening;
mod readers;
mod slot;
mod statuses;
mod told;

pub use additions::{add, more};
pub use deeds::{command, end, overtakes, retire, settle, withdraw};
pub use ending::{close, free};
pub use handle::{BUSY, Handle, IN_USE, NOT_OPEN, claim, put, release, take};
pub use inside::Inside;
pub use journals::{journal, open_kept, resume};
pub use opening::{open, script};
pub use readers::{instrument_name, job_name, keepers, outside, planned, session, size, state};
pub use slot::Slot;
pub use statuses::{NO_JOB, NOT_NOW, stage_status, tell_entry, withdrew};
pub use told::{
    LabCame, LabEntry, LabKeepers, LabOutside, LabPlanned, LabSession, LabSize, LabState,
    LabTurned, entry_of, state_of, turned_of,
};
