//! A text that is tried: read back, and measured.
ghost use Rattle.std.specs.Prelude.{◌≡◌, IfOk, IfSome, IfNone};
ghost use Rattle.arranged_scripts.specs.Arranged.{IsNoScript};
ghost use Rattle.measured_orders.specs.Measures.{IsScriptMeasure};
ghost use Rattle.measured_orders.specs.Orders.{IsOrder, IsInOrder};

use crate::measure::{Measure, measured};
use arranged_scripts::{moved, read_back};
use arranging::has_jobs_of;
use lab_plan::{JobNo, Plan};
use script_reader::MOST_BYTES;
use std::alloc::{AllocError, Allocator, Global};
use std::marker::Model;

/// A text, and what its run is measured by.
#[derive(Drop)]
pub(crate) struct Tried<A: Allocator = Global> {
    pub(crate) text: Vec<u8, A>,
    pub(crate) measure: Measure,
}

impl<A: Allocator> Model for Tried<A> {
    ghost use Rattle.measured_orders.specs.Orders.{TriedView};

    ghost Value = { TriedView };

    ghost view = { λ t. record { text = t.text.items; measure = t.measure } };
}

/// A text as it is, measured. None only where it is no script.
pub(crate) fn as_it_is<A: Allocator + Copy>(
    alloc: A,
    text: Vec<u8, A>,
    limit: u32,
) -> Result<Option<Tried<A>>, AllocError>
    ensures same { IfOk result (λ made. IfSome made (λ t. t.text ≡ text.items)) }
    ensures ran { IfOk result (λ made. IfSome made (λ t. IsScriptMeasure t.text limit t.measure)) }
    ensures none { IfOk result (λ made. IfNone made (IsNoScript text.items)) }
{
    let read = read_back(alloc, &text)?;
    let Some(plan) = read else {
        return Ok(None);
    };
    let measure = measured(alloc, &plan, limit)?;
    Ok(Some(Tried { text, measure }))
}

/// The script with its jobs in this order, measured. None where it isn't read as these jobs in this order, which was never met, or
/// where it is longer than a run reads.
pub(crate) fn in_order<A: Allocator + Copy>(
    alloc: A,
    plan: &Plan<A>,
    script: &[u8],
    order: &[JobNo],
    limit: u32,
) -> Result<Option<Tried<A>>, AllocError>
    requires { IsOrder plan.now order.now }
    ensures { IfOk result (λ made. IfSome made (λ t. IsInOrder plan.now limit script.now order.now t.text t.measure)) }
{
    let made = moved(alloc, script, order)?;
    let Some(text) = made else {
        return Ok(None);
    };
    if text.len() > MOST_BYTES {
        return Ok(None);
    }
    let read = read_back(alloc, &text)?;
    let Some(other) = read else {
        return Ok(None);
    };
    if plan.version() != other.version() {
        return Ok(None);
    }
    if !has_jobs_of(plan, order, &other) {
        return Ok(None);
    }
    let measure = measured(alloc, &other, limit)?;
    Ok(Some(Tried { text, measure }))
}
