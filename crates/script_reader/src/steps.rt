//! Reading a script with a list of steps.
ghost use Rattle.std.specs.Prelude.{◌≡◌, ◌+◌, ◌-◌, ◌^◌, ◌<◌, All, IfOk, MatchResult, Ok, Err, Some, length};
ghost use Rattle.legal_steps.specs.Steps.{IsStepOf};
ghost use Rattle.script_reader.specs.Script.{text_lines, LinesMean, Refuses};
ghost use Rattle.script_reader.specs.State.{Ends, IsTied};
ghost use Rattle.script_reader.specs.Steps.{is_steps_line, script_part, steps_part, first_step, step_in};
ghost use Rattle.script_reader.specs.Steps.{AreSteps, RefusesSteps, ReadsStep, StepsMean, StepsRefuse};

use crate::fault::{ScriptCause, ScriptFault, at_line};
use crate::form::{Form, form_of};
use crate::reader::Reader;
use crate::step::step_in;
use bstr::ByteSlice;
use lab_plan::Plan;
use legal_steps::{Step, StepLine};
use std::alloc::Allocator;

/// What the script part of a text gives: its plan, the text behind the line `steps`, and the number
/// of the line there.
#[derive(Drop)]
struct ScriptPart<'a, A: Allocator> {
    plan: Plan<A>,
    rest: &'a [u8],
    first: usize,
}

/// Whether the line ends the script part.
fn is_steps_line(line: &[u8]) -> bool
    ensures { result ≡ is_steps_line line.now }
{
    matches!(form_of(line), Some(Form::Steps))
}

/// The script part ends before the line with this number, and the rest of the text follows it.
fn end_script<'a, A: Allocator + Copy>(
    reader: Reader<A>,
    rest: &'a [u8],
    number: usize,
) -> Result<ScriptPart<'a, A>, ScriptFault>
    requires tied { IsTied reader }
    requires number { number < 2 ^ 64 - 1 }
    ensures { MatchResult result (λ part. Ends reader (Ok part.plan) × (part.rest.now ≡ rest.now) × (part.first ≡ number + 1))
        (λ fault. Ends reader (Err fault.cause) × (fault.line ≡ number)) }
{
    let plan = at_line(number, reader.finish())?;
    Ok(ScriptPart {
        plan,
        rest,
        first: number + 1,
    })
}

/// Reads the lines up to a line `steps`, or to the end, as a script.
fn read_script<'a, A: Allocator + Copy>(
    alloc: A,
    text: &'a [u8],
) -> Result<ScriptPart<'a, A>, ScriptFault>
    ensures { let lines = text_lines text.now in
        MatchResult result (λ part. LinesMean (script_part lines) part.plan × (text_lines part.rest.now ≡ steps_part lines)
        × (part.first ≡ first_step lines)) (Refuses (script_part lines)) }
{
    let mut reader = Reader::new(alloc);
    let mut lines = text.lines();
    let mut number = 1usize;
    while let Some(line) = lines.next() {
        if is_steps_line(line) {
            return end_script(reader, lines.as_bytes(), number);
        }
        at_line(number, reader.read(line))?;
        number += 1;
    }
    end_script(reader, lines.as_bytes(), number)
}

/// One more step of the list.
fn push_step<A: Allocator>(
    steps: &mut Vec<StepLine, A>,
    line: usize,
    step: Step,
) -> Result<(), ScriptCause>
    ensures { ReadsStep steps.old.items line (Some (Some step)) result steps.new.items }
{
    if steps.len() >= 1_000_000 {
        return Err(ScriptCause::LimitPassed);
    }
    match steps.push(StepLine { line, step }) {
        Ok(()) => Ok(()),
        Err(_) => Err(ScriptCause::NoMemory),
    }
}

/// Reads the next line of a step list.
fn read_step<A: Allocator>(
    plan: &Plan<A>,
    steps: &mut Vec<StepLine, A>,
    number: usize,
    line: &[u8],
) -> Result<(), ScriptCause>
    ensures { ReadsStep steps.old.items number (step_in plan.now line.now) result steps.new.items }
{
    match step_in(plan, line) {
        None => Ok(()),
        Some(None) => Err(ScriptCause::BadStep),
        Some(Some(step)) => push_step(steps, number, step),
    }
}

/// Reads the lines of a step list, of which the first has this number.
fn read_list<A: Allocator + Copy>(
    alloc: A,
    plan: &Plan<A>,
    text: &[u8],
    first: usize,
) -> Result<Vec<StepLine, A>, ScriptFault>
    requires { first + length (text_lines text.now) < 2 ^ 64 }
    ensures { let lines = text_lines text.now in MatchResult result (λ steps. AreSteps plan.now first lines steps.items) (RefusesSteps plan.now first lines) }
{
    let mut steps = Vec::new(alloc);
    let mut number = first;
    for line in text.lines() {
        at_line(number, read_step(plan, &mut steps, number, line))?;
        number += 1;
    }
    Ok(steps)
}

/// Reads the text of a script, of version 1 or 2, and the list of steps behind its line `steps`; a
/// text without that line has no steps.
///
/// The faults are those of `read_plan`, but that a line `steps` ends the script as the end of the text
/// does; and behind it the first line that is no step, or is one too many.
pub fn read_steps<A: Allocator + Copy>(
    alloc: A,
    text: &[u8],
) -> Result<(Plan<A>, Vec<StepLine, A>), ScriptFault>
    ensures meaning { MatchResult result (λ r. StepsMean text.now r.0 r.1.items) (StepsRefuse text.now) }
    ensures own { IfOk result (λ r. All (λ line. IsStepOf r.0 line.step) r.1.items) }
{
    let ScriptPart { plan, rest, first } = read_script(alloc, text)?;
    let steps = read_list(alloc, &plan, rest, first)?;
    Ok((plan, steps))
}
