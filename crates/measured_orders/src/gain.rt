//! What an order gained.
use crate::measure::Measure;

/// The measures of a script as it came, and in its new order.
#[derive(Clone, Copy, PartialEq, Eq, Debug)]
pub struct Gain {
    pub before: Measure,
    pub after: Measure,
}
