//! What holds of traces, of what the views say of a run by rounds, and of pictures and tables of what was printed. Each law is the contract of a
//! function that does nothing.
ghost use Rattle.lab_views.specs.OneRun.{HasOneListOfBlocks, HasOnePicture, RoundsAreReported};
ghost use Rattle.lab_views.specs.Printed.{PrintedIsDrawn, PrintedIsTabulated};
ghost use Rattle.lab_views.specs.Traces.{TracesTheRun, TraceIsReplayed};

use round_trace::laws::steps_give_events;
use rounds::laws::one_run;
use script_reader::laws::{one_meaning, one_meaning_with_steps};

/// A trace has the steps of the very run that `labrun rounds N` reports, for the same input and N.
pub fn traces_the_run()
    ensures { TracesTheRun }
{
    one_meaning();
    one_run();
    steps_give_events();
}

/// `labview trace N` into `labrun replay` is `labrun rounds N`: of a trace of at most 1000000 steps, no text and no step is refused, and
/// what a replay reports is what the run by at most N rounds reports.
pub fn trace_is_replayed()
    ensures { TraceIsReplayed }
{
    one_meaning();
    one_run();
    steps_give_events();
    one_meaning_with_steps();
}

/// `labview waits N`, `blocks N` and `gantt N` tell of the very run that `labrun rounds N` reports, for the same input and N: of as many
/// rounds, with the same events.
pub fn rounds_are_reported()
    ensures { RoundsAreReported }
{
    one_meaning();
    one_run();
}

/// A script and N have one picture over time, and one list of who kept whom waiting.
pub fn drawn_once()
    ensures picture { HasOnePicture }
    ensures list { HasOneListOfBlocks }
{
    one_meaning();
}

/// `labview picture` of what `labrun` printed draws the report of that very run: its text is never refused. Its logs have an order
/// (`printed_reports::laws::has_timeline`); that one is found is not part of this law.
pub fn printed_is_drawn()
    ensures { PrintedIsDrawn }
{}

/// `labview table` of what `labrun` printed writes the table of the report of that very run, and refuses nothing of it.
pub fn printed_is_tabulated()
    ensures { PrintedIsTabulated }
{}
