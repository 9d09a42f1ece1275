//! What a handle has.
use live_lab::{Lab, Printed};

/// What a handle has.
#[derive(Drop)]
pub enum Inside {
    /// A lab that goes on.
    Open(Lab),
    /// The report of a lab that was closed.
    Reported(Printed),
}
