//! The report of a lab.
ghost use Rattle.std.specs.Prelude.{◌≡◌, IfSome};
ghost use Rattle.live_lab.specs.Prints.{IsPrint, HasReport, HasSomeReport};

use crate::lab::Lab;
use c_tells::MemorySink;
use headline::holds_of_every_run;
use interleaving::World;
use lab_program::Outcome;
use report::laws::report_of_events;
use report::{all_retired, write_report};
use std::alloc::Global;

/// A report, and how the run ended.
#[derive(Drop)]
pub struct Printed {
    pub text: Vec<u8, Global>,
    pub outcome: Outcome,
    ghost reported: { ∥ HasSomeReport text.items outcome ∥₁ },
}

/// The report of a world, and how its run ended, or none without memory.
fn written(alloc: Global, world: &World<'static, Global>) -> Option<(Vec<u8, Global>, Outcome)>
    ensures { IfSome result (λ w. IsPrint world.now w.0.items w.1) }
{
    let mut sink = MemorySink::new(alloc);
    match write_report(world, &mut sink) {
        Ok(()) => {
            let outcome = if all_retired(world) {
                Outcome::Finished
            } else {
                Outcome::Unfinished
            };
            Some((sink.into_bytes(), outcome))
        }
        Err(_) => None,
    }
}

impl Lab {
    /// The report of what was done in the lab so far, and whether every job is retired; or none without memory. The headline holds of it.
    pub fn print(&self, alloc: Global) -> Option<Printed>
        ensures text { IfSome result (λ p. IsPrint self.now.world p.text.items p.outcome) }
        ensures holds { IfSome result (λ p. HasReport self.now.world.plan p.text.items p.outcome) }
    {
        report_of_events();
        holds_of_every_run();
        // The plan is within every limit.
        let _ = self.world.plan().jobs();
        match written(alloc, &self.world) {
            Some((text, outcome)) => Some(Printed { text, outcome }),
            None => None,
        }
    }
}
