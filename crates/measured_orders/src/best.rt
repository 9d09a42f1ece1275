//! The best order of a script's jobs that was measured.
ghost use Rattle.std.specs.Prelude.{◌≡◌, ◌≤◌, IfOk, MatchOption};
ghost use Rattle.std.specs.List.{range_with_len};
ghost use Rattle.lab_plan.specs.Limits.{most_jobs};
ghost use Rattle.arranged_scripts.specs.Arranged.{IsNotArranged};
ghost use Rattle.measured_orders.specs.Orders.{IsOrder, IsBest, IsBestOf};

use crate::climb::climbed;
use crate::gain::Gain;
use crate::measure::{is_better, measured};
use crate::trial::{Tried, as_it_is};
use arranged_scripts::{arranged_script, with_line_end};
use arranging::{colours_of, order_of};
use lab_plan::{JobNo, Plan};
use script_reader::laws::one_meaning;
use std::alloc::{AllocError, Allocator, Global};
use std::marker::Model;

/// A script in the best order that was found, and the measures of the script as it came and in this order.
#[derive(Drop)]
pub struct BestOrder<A: Allocator = Global> {
    text: Vec<u8, A>,
    gain: Gain,
}

impl<A: Allocator> Model for BestOrder<A> {
    ghost use Rattle.measured_orders.specs.Orders.{BestView};

    ghost Value = { BestView };

    ghost view = { λ b. record { text = b.text.items; gain = b.gain } };
}

impl<A: Allocator> BestOrder<A> {
    ghost use Rattle.std.specs.Prelude.{◌≡◌};

    /// The script in this order.
    pub fn text(&self) -> &[u8]
        ensures { result.now ≡ self.now.text }
    {
        &self.text
    }

    /// The measures of the script as it came and in this order.
    pub fn gain(&self) -> Gain
        ensures { result ≡ self.now.gain }
    {
        self.gain
    }
}

/// The jobs as they stand.
fn as_they_stand<A: Allocator>(alloc: A, jobs: usize) -> Result<Vec<JobNo, A>, AllocError>
    requires { jobs ≤ most_jobs }
    ensures { IfOk result (λ order. order.items ≡ range_with_len 0 jobs) }
{
    let mut order = Vec::new(alloc);
    for job in 0..jobs {
        order.push(JobNo(job as u8))?;
    }
    Ok(order)
}

/// The jobs in the order of their colours.
fn by_colours<A: Allocator + Copy>(alloc: A, plan: &Plan<A>) -> Result<Vec<JobNo, A>, AllocError>
    ensures { IfOk result (λ order. IsOrder plan.now order.items) }
{
    // (asked for its clause that the plan keeps every limit)
    let _ = plan.jobs();
    let colouring = colours_of(alloc, plan)?;
    order_of(alloc, &colouring)
}

/// The best of the script as it came, of the script in the order of its jobs' colours, and of orders near to the better of these.
fn best_of<A: Allocator + Copy>(
    alloc: A,
    plan: &Plan<A>,
    script: &[u8],
    own: Tried<A>,
    other: Tried<A>,
    limit: u32,
) -> Result<Tried<A>, AllocError>
    ensures { IfOk result (IsBestOf plan.now limit script.now own other) }
{
    if is_better(other.measure, own.measure) {
        let order = by_colours(alloc, plan)?;
        return climbed(alloc, plan, script, order, other, limit);
    }
    let order = as_they_stand(alloc, plan.jobs())?;
    climbed(alloc, plan, script, order, own, limit)
}

/// A script of this plan with its jobs in the best order of those that were tried, each measured by its run of at most so many
/// rounds: the order as it is, that of `arranged_script`, and orders near to the better of these. At most 400 runs are made.
///
/// None only where `arranged_script` gives none, for the same reason. Memory is taken for the text a few times, for a second plan and for its run.
pub fn best_order<A: Allocator + Copy>(
    alloc: A,
    plan: &Plan<A>,
    input: &[u8],
    limit: u32,
) -> Result<Option<BestOrder<A>>, AllocError>
    ensures { IfOk result (λ found. MatchOption found (IsNotArranged plan.now input.now) (IsBest plan.now limit input.now)) }
{
    one_meaning();
    let before = measured(alloc, plan, limit)?;
    let made = arranged_script(alloc, plan, input)?;
    let Some(arranged) = made else {
        return Ok(None);
    };
    let tried = as_it_is(alloc, arranged, limit)?;
    let Some(other) = tried else {
        return Ok(None);
    };
    let own = Tried {
        text: Vec::from_slice(alloc, input)?,
        measure: before,
    };
    let script = with_line_end(alloc, input)?;
    let best = best_of(alloc, plan, &script, own, other, limit)?;
    let gain = Gain {
        before,
        after: best.measure,
    };
    Ok(Some(BestOrder {
        text: best.text,
        gain,
    }))
}
