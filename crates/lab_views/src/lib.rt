//! What `labview` does, over any source and any sink: a script or a report is read whole, and what is written and answered is
//! settled by its bytes.
#![tactic(auto)]

mod drawing_gantt;
mod end;
mod explanations;
pub mod laws;
mod measuring_orders;
mod orders;
mod picture_fault;
mod pictures;
mod tables;
mod telling_blocks;
mod telling_waits;
mod trace;
mod view_fault;
mod views;

pub use end::end_view;
pub use labview_words::View;
pub use picture_fault::{PictureFault, status_of_picture};
pub use view_fault::{ViewFault, status_of_view};
pub use views::run_view;
