//! A script with its jobs in another order, judged by what it is read as.
ghost use Rattle.std.specs.Prelude.{IfOk, MatchOption};
ghost use Rattle.script_reader.specs.Script.{ScriptMeans};
ghost use Rattle.arranged_scripts.specs.Arranged.{IsArranged, IsNotArranged, IsNoScript};

use crate::blocks::{moved, with_line_end};
use arranging::{colours_of, is_arrangement, order_of};
use lab_plan::Plan;
use script_reader::laws::one_meaning;
use script_reader::{MOST_BYTES, ScriptCause, read_plan};
use std::alloc::{AllocError, Allocator};

/// The plan that a text is read as; none if it is no script.
pub fn read_back<A: Allocator + Copy>(alloc: A, text: &[u8]) -> Result<Option<Plan<A>>, AllocError>
    ensures { IfOk result (λ read. MatchOption read (IsNoScript text.now) (λ plan. ScriptMeans text.now plan)) }
{
    one_meaning();
    match read_plan(alloc, text) {
        Ok(plan) => Ok(Some(plan)),
        Err(fault) => match fault.cause {
            ScriptCause::NoMemory => Err(AllocError),
            _ => Ok(None),
        },
    }
}

/// A script of this plan with its jobs in the order of their colours: jobs that share an instrument get different ones, as few as
/// DSATUR finds. Comments directly above a job's line stay with it. What was made is read again and judged: None only if the blocks of the
/// input aren't as many as the jobs, or if it isn't read as these jobs in this order, which was never met, or if it has more bytes than a
/// run reads, which is so only if the input has all but the end of its last line. Memory is taken for the text twice, and for a second
/// plan.
pub fn arranged_script<A: Allocator + Copy>(
    alloc: A,
    plan: &Plan<A>,
    input: &[u8],
) -> Result<Option<Vec<u8, A>>, AllocError>
    ensures { IfOk result (λ made. MatchOption made (IsNotArranged plan.now input.now) (λ text. IsArranged plan.now input.now text.items)) }
{
    one_meaning();
    // (asked for its clause that the plan keeps every limit)
    let _ = plan.jobs();
    let colouring = colours_of(alloc, plan)?;
    let order = order_of(alloc, &colouring)?;
    let whole = with_line_end(alloc, input)?;
    let made = moved(alloc, &whole, &order)?;
    let Some(text) = made else {
        return Ok(None);
    };
    if text.len() > MOST_BYTES {
        return Ok(None);
    }
    let read = read_back(alloc, &text)?;
    let Some(other) = read else {
        return Ok(None);
    };
    if !is_arrangement(plan, &colouring, &order, &other) {
        return Ok(None);
    }
    Ok(Some(text))
}
