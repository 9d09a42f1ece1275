//! What a handle has.
use bay::Bay;

/// What a handle has.
#[derive(Drop)]
pub enum Inside {
    /// A bay.
    Open(Bay),
}
