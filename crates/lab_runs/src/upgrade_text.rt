//! What an upgrade writes: a script and then a flush.
ghost use Rattle.lab_plan.specs.Upgrade.{script_text};
ghost use Rattle.report.specs.Taken.{Sends};

use lab_plan::Plan;
use lab_program::pass_on;
use report::{Sink, WriteFault, write_script};
use std::alloc::Allocator;

/// Sends the script of version 2 that means the plan.
pub(crate) fn send_script<A: Allocator, W: Sink>(
    plan: &Plan<A>,
    sink: &mut W,
) -> Result<(), WriteFault>
    ensures { Sends W.taken W.failures sink.old sink.new (script_text plan.now) result }
{
    match write_script(plan, sink) {
        Ok(()) => pass_on(sink),
        Err(fault) => Err(fault),
    }
}
