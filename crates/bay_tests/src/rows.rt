//! What rows of tables compare. The check stands here once, as each place that can end a test makes its proof longer.
use std::fmt::Debug;
use std::process::Abort;

/// What came has to be what was wanted; a failure tells the row and both.
pub(crate) fn check<R: Copy + Debug, T: Copy + PartialEq + Debug>(
    rt: &impl Abort,
    row: R,
    came: T,
    wanted: T,
) {
    assert!(rt;
        came == wanted,
        "{row:?}: {wanted:?} was wanted, not {came:?}"
    );
}
