//! Which view writes what.
ghost use Rattle.std.specs.Prelude.{◌≡◌, ◌+◌, None};
ghost use Rattle.lab_program.specs.Input.{ConsumesUpTo};
ghost use Rattle.lab_views.specs.Answered.{NotRead, TellsGain, ViewAnswers, ViewAnswersFor, failed_view_reads, failed_view_writes};

use crate::drawing_gantt::draw_run;
use crate::explanations::explain_input;
use crate::measuring_orders::arrange_measured;
use crate::orders::arrange_input;
use crate::picture_fault::for_reading;
use crate::pictures::draw_input;
use crate::tables::tabulate_input;
use crate::telling_blocks::blocks_input;
use crate::telling_waits::waits_input;
use crate::trace::trace_input;
use crate::view_fault::{ViewFault, of_report, of_script};
use lab_program::{Outcome, ReadFault, RunFault, Source, read_input};
use labview_words::View;
use measured_orders::Gain;
use report::Sink;
use std::alloc::Allocator;

/// Why the input of a view was not read.
fn not_read(view: View, fault: ReadFault) -> ViewFault
    ensures { NotRead view fault result }
{
    match view {
        View::Picture => ViewFault::OfReport(for_reading(fault)),
        View::Table => ViewFault::OfReport(for_reading(fault)),
        _ => ViewFault::OfScript(RunFault::from(fault)),
    }
}

/// Writes a view of an input.
fn view_input<A: Allocator + Copy, W: Sink>(
    view: View,
    alloc: A,
    input: &[u8],
    sink: &mut W,
    gain: &mut Option<Gain>,
) -> Result<Outcome, ViewFault>
    requires { gain.old ≡ None }
    ensures told { TellsGain view gain.new }
    ensures answer { ViewAnswersFor view gain.new input.now (W.taken sink.old) (W.taken sink.new) result }
    ensures reads { failed_view_reads result ≡ 0 }
    ensures writes { W.failures sink.new ≡ W.failures sink.old + failed_view_writes result }
{
    match view {
        View::Explain => {
            let answer = explain_input(alloc, input, sink);
            of_script(alloc, "explain", input, answer)
        }
        View::Picture => {
            let answer = draw_input(alloc, input, sink);
            of_report(alloc, "picture", input, answer)
        }
        View::Table => {
            let answer = tabulate_input(alloc, input, sink);
            of_report(alloc, "table", input, answer)
        }
        View::Arrange => {
            let answer = arrange_input(alloc, input, sink);
            of_script(alloc, "arrange", input, answer)
        }
        View::ArrangeMeasured { limit } => {
            let answer = arrange_measured(alloc, input, sink, limit, gain);
            of_script(alloc, "arrange", input, answer)
        }
        View::Trace { limit } => {
            let answer = trace_input(alloc, input, sink, limit);
            of_script(alloc, "trace", input, answer)
        }
        View::Waits { limit } => {
            let answer = waits_input(alloc, input, sink, limit);
            of_script(alloc, "waits", input, answer)
        }
        View::Blocks { limit } => {
            let answer = blocks_input(alloc, input, sink, limit);
            of_script(alloc, "blocks", input, answer)
        }
        View::Gantt { limit } => {
            let answer = draw_run(alloc, input, sink, limit);
            of_script(alloc, "gantt", input, answer)
        }
    }
}

/// Reads an input and writes a view of it. What the best order gained is reported in `gain`. The input is at most 16777216 bytes. A
/// view of scripts that is given a report says so, and so does a view of reports that is given a script.
pub fn run_view<A: Allocator + Copy, R: Source, W: Sink>(
    view: View,
    alloc: A,
    source: &mut R,
    sink: &mut W,
    gain: &mut Option<Gain>,
) -> Result<Outcome, ViewFault>
    ensures told { TellsGain view gain.new }
    ensures answer { ViewAnswers view gain.new (R.left source.old) (W.taken sink.old) (W.taken sink.new) result }
    ensures most { ConsumesUpTo (R.left source.old) (R.left source.new) 16777217 }
    ensures reads { R.failures source.new ≡ R.failures source.old + failed_view_reads result }
    ensures writes { W.failures sink.new ≡ W.failures sink.old + failed_view_writes result }
{
    *gain = None;
    let input = match read_input(alloc, source) {
        Ok(input) => input,
        Err(fault) => return Err(not_read(view, fault)),
    };
    view_input(view, alloc, &input, sink, gain)
}
