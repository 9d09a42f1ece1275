//! How a view ends: what is said, and the status.
ghost use Rattle.std.specs.Prelude.{◌≡◌};
ghost use Rattle.std.specs.Process.{exit_status};
ghost use Rattle.lab_views.specs.Answered.{status_of_view};

use crate::view_fault::{ViewFault, status_of_view};
use lab_program::{Outcome, tell};
use labview_words::View;
use measured_orders::{Gain, Measure};
use std::process::ExitCode;

/// What is said of a view that went out, but is not all that it might be.
fn unfinished(view: View) -> &'static str {
    match view {
        View::Arrange | View::ArrangeMeasured { .. } =>
            "the script went out as it was: with an end for its last line it would be one byte too long",
        _ => "the trace is whole, but longer than a replay reads (1000000 steps, 16777216 bytes)",
    }
}

/// What is said behind the rounds of a run.
fn ending(measure: Measure) -> &'static str {
    if measure.finished { "" } else { " unfinished" }
}

/// Tells what an order gained.
fn tell_gain(rt: &impl Eprint, program: &str, gain: Gain) {
    let Gain { before, after } = gain;
    let _ = eprintln!(rt;
        "{program}: rounds {}{}, now {}{}; waited {}, now {}",
        before.rounds,
        ending(before),
        after.rounds,
        ending(after),
        before.waited,
        after.waited
    );
}

/// The status of a view's answer. A fault gets one line on standard error, and so do a trace that is longer than a replay
/// reads, a script that went out as it was, and what an order gained.
pub fn end_view(
    rt: &impl Eprint,
    program: &str,
    view: View,
    answer: Result<Outcome, ViewFault>,
    gain: Option<Gain>,
) -> ExitCode
    ensures { exit_status result ≡ status_of_view answer }
{
    match &answer {
        Ok(Outcome::Finished) => {
            if let Some(gain) = gain {
                tell_gain(rt, program, gain);
            }
        }
        Ok(Outcome::Unfinished) => tell(rt, program, &unfinished(view)),
        Err(fault) => tell(rt, program, fault),
    }
    ExitCode::from(status_of_view(&answer))
}
