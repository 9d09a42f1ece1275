//! The run of a script by rounds, as a script with its steps.
ghost use Rattle.std.specs.Prelude.{◌≡◌, ◌≤◌, ◌++◌, ◌+◌, length, OnOk, IfOk};
ghost use Rattle.std.specs.List.{All};
ghost use Rattle.std.specs.Io.BufRead.{ends_with_byte};
ghost use Rattle.legal_steps.specs.Steps.{IsStepOf};
ghost use Rattle.lab_program.specs.Faults.{failed_reads, failed_writes};
ghost use Rattle.lab_program.specs.Answers.{AnswersFor};
ghost use Rattle.lab_plan.specs.LabPlan.{LabPlan};
ghost use Rattle.script_reader.specs.Script.{ScriptMeans};
ghost use Rattle.written_steps.specs.StepLists.{script_head, lacking_end, step_line};
ghost use Rattle.round_trace.specs.StepsOf.{step_of};
ghost use Rattle.lab_program.specs.Reports.{outcome_of};
ghost use Rattle.lab_views.specs.Traces.{step_lines, trace_text, further_text, events_behind, is_replayable, WritesTrace, TraceRefuses};

use lab_plan::Plan;
use lab_program::{Outcome, RunFault, send_text};
use legal_steps::{Event, StepLine};
use report::Sink;
use round_trace::laws::steps_are_of_plan;
use round_trace::{NotTraced, step_of, trace, trace_on};
use script_reader::laws::one_meaning;
use script_reader::{MOST_BYTES, ScriptCause, read_plan, read_steps};
use std::alloc::{AllocError, Allocator};
use step_texts::add_step;

/// The most steps that a replay reads.
const MOST_STEPS: usize = 1_000_000;

/// Whether this byte is the last.
fn ends_with(text: &[u8], byte: u8) -> bool
    ensures { result ≡ ends_with_byte byte text.now }
{
    match text {
        [] => false,
        [.., last] => *last == byte,
    }
}

/// The input as it was read, with an end for its last line. A carriage return at the very end belongs to its line, so a space keeps it
/// from the line's end.
fn add_ended<A: Allocator>(out: &mut Vec<u8, A>, input: &[u8]) -> Result<(), AllocError>
    ensures { OnOk result (out.new.items ≡ out.old.items ++ (input.now ++ lacking_end input.now)) }
{
    out.extend_from_slice(input)?;
    if !ends_with(input, b'\n') {
        if ends_with(input, b'\r') {
            out.extend_from_slice(b" ")?;
        }
        out.extend_from_slice(b"\n")?;
    }
    Ok(())
}

/// The script, and the line `steps`.
#[tactic(auto, unfolding(written_steps::specs::StepLists::script_head))]
fn add_head<A: Allocator>(out: &mut Vec<u8, A>, input: &[u8]) -> Result<(), AllocError>
    ensures { OnOk result (out.new.items ≡ out.old.items ++ script_head input.now) }
{
    add_ended(out, input)?;
    out.extend_from_slice(b"steps\n")
}

/// The step of an event, on a line of its own.
#[tactic(auto, unfolding(written_steps::specs::StepLists::step_line))]
fn add_line<A: Allocator, B: Allocator>(
    out: &mut Vec<u8, A>,
    plan: &Plan<B>,
    event: &Event,
) -> Result<(), AllocError>
    requires { IsStepOf plan.now (step_of event.now) }
    ensures { OnOk result (out.new.items ≡ out.old.items ++ step_line plan.now (step_of event.now)) }
{
    add_step(out, plan, &step_of(event))?;
    out.extend_from_slice(b"\n")
}

/// The steps of events, a line each.
fn add_lines<A: Allocator, B: Allocator>(
    out: &mut Vec<u8, A>,
    plan: &Plan<B>,
    events: &[Event],
) -> Result<(), AllocError>
    requires { All (λ event. IsStepOf plan.now (step_of event)) events.now }
    ensures { OnOk result (out.new.items ≡ out.old.items ++ step_lines plan.now events.now) }
{
    for event in events {
        add_line(out, plan, event)?;
    }
    Ok(())
}

/// The whole text.
#[tactic(auto, unfolding(crate::specs::Traces::trace_text))]
fn text_of<A: Allocator, B: Allocator>(
    alloc: A,
    plan: &Plan<B>,
    input: &[u8],
    events: &[Event],
) -> Result<Vec<u8, A>, AllocError>
    requires { All (λ event. IsStepOf plan.now (step_of event)) events.now }
    ensures { IfOk result (λ text. text.items ≡ trace_text plan.now input.now events.now) }
{
    let mut text = Vec::new(alloc);
    add_head(&mut text, input)?;
    add_lines(&mut text, plan, events)?;
    Ok(text)
}

/// The events behind those of the steps.
fn behind<'a>(events: &'a [Event], steps: &[StepLine]) -> &'a [Event]
    requires { length steps.now ≤ length events.now }
    ensures { result.now ≡ events_behind steps.now events.now }
{
    &events[steps.len()..]
}

/// The whole text of an input that has steps: further ones stand behind them.
#[tactic(auto, unfolding(crate::specs::Traces::further_text))]
fn further_text_of<A: Allocator, B: Allocator>(
    alloc: A,
    plan: &Plan<B>,
    input: &[u8],
    events: &[Event],
) -> Result<Vec<u8, A>, AllocError>
    requires { All (λ event. IsStepOf plan.now (step_of event)) events.now }
    ensures { IfOk result (λ text. text.items ≡ further_text plan.now input.now events.now) }
{
    let mut text = Vec::new(alloc);
    add_ended(&mut text, input)?;
    add_lines(&mut text, plan, events)?;
    Ok(text)
}

/// Whether a replay reads the trace.
fn outcome_for(events: &[Event], text: &[u8]) -> Outcome
    ensures { result ≡ outcome_of (is_replayable events.now text.now) }
{
    if events.len() <= MOST_STEPS && text.len() <= MOST_BYTES {
        Outcome::Finished
    } else {
        Outcome::Unfinished
    }
}

/// Writes the trace of a script alone.
fn trace_script<A: Allocator + Copy, W: Sink>(
    alloc: A,
    plan: &Plan<A>,
    input: &[u8],
    sink: &mut W,
    limit: u32,
) -> Result<Outcome, RunFault>
    requires { ScriptMeans input.now plan.now }
    ensures answer { AnswersFor (WritesTrace limit) TraceRefuses input.now (W.taken sink.old) (W.taken sink.new) result }
    ensures reads { failed_reads result ≡ 0 }
    ensures writes { W.failures sink.new ≡ W.failures sink.old + failed_writes result }
{
    steps_are_of_plan();
    // (asked for its clause that the plan keeps every limit, so that its names are told apart when they are read back)
    let _ = plan.jobs();
    let events = trace(alloc, plan, limit)?;
    let text = text_of(alloc, plan, input, &events)?;
    let outcome = outcome_for(&events, &text);
    send_text(&text, sink)?;
    Ok(outcome)
}

/// Writes the trace of a script with steps.
fn trace_further<A: Allocator + Copy, W: Sink>(
    alloc: A,
    input: &[u8],
    sink: &mut W,
    limit: u32,
) -> Result<Outcome, RunFault>
    requires { (other : LabPlan) → ¬ ScriptMeans input.now other }
    ensures answer { AnswersFor (WritesTrace limit) TraceRefuses input.now (W.taken sink.old) (W.taken sink.new) result }
    ensures reads { failed_reads result ≡ 0 }
    ensures writes { W.failures sink.new ≡ W.failures sink.old + failed_writes result }
{
    steps_are_of_plan();
    let (plan, steps) = read_steps(alloc, input)?;
    let events = match trace_on(alloc, &plan, &steps, limit) {
        Ok(events) => events,
        Err(NotTraced::NoMemory) => return Err(RunFault::NoMemory),
        Err(NotTraced::NotLegal(place)) => {
            let line = steps[place].line;
            return Err(RunFault::Step { line });
        }
    };
    let further = behind(&events, &steps);
    let text = further_text_of(alloc, &plan, input, further)?;
    let outcome = outcome_for(&events, &text);
    send_text(&text, sink)?;
    Ok(outcome)
}

/// Writes a script again, with the line `steps` and the steps of its run by at most this many rounds behind it. A script that has steps is
/// written with them, and with those of at most this many rounds from where they lead: a run that ended goes on. (As a script alone, one
/// with steps has an unknown word at its line `steps`, or a fault before it.)
///
/// The last line of the input may lack its end. The outcome is Finished if a replay reads the trace: it has at most 1000000 steps, in
/// 16777216 bytes. A longer one goes out whole, and the outcome is Unfinished. Whether all jobs are retired then makes no difference.
pub(crate) fn trace_input<A: Allocator + Copy, W: Sink>(
    alloc: A,
    input: &[u8],
    sink: &mut W,
    limit: u32,
) -> Result<Outcome, RunFault>
    ensures answer { AnswersFor (WritesTrace limit) TraceRefuses input.now (W.taken sink.old) (W.taken sink.new) result }
    ensures reads { failed_reads result ≡ 0 }
    ensures writes { W.failures sink.new ≡ W.failures sink.old + failed_writes result }
{
    one_meaning();
    match read_plan(alloc, input) {
        Ok(plan) => trace_script(alloc, &plan, input, sink, limit),
        Err(fault) => {
            if fault.cause != ScriptCause::UnknownWord {
                return Err(RunFault::Script(fault));
            }
            trace_further(alloc, input, sink, limit)
        }
    }
}
