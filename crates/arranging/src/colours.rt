//! Colours of a plan's jobs.
ghost use Rattle.std.specs.Prelude.{IfOk};
ghost use Rattle.arranging.specs.Colours.{IsColouring, IsGreedy, IsLeast};

use crate::colour_count::count_of;
use crate::greedy::by_saturation;
use lab_plan::Plan;
use std::alloc::{AllocError, Allocator, Global};
use std::marker::Model;

/// A colour for each job of a plan, and how many colours there are.
#[derive(Drop)]
pub struct Colouring<A: Allocator = Global> {
    colours: Vec<u8, A>,
    count: usize,
}

impl<A: Allocator> Model for Colouring<A> {
    ghost use Rattle.arranging.specs.Colours.{ColouringView};

    ghost Value = { ColouringView };

    ghost view = { λ c. record { colours = c.colours.items; count = c.count } };
}

impl<A: Allocator> Colouring<A> {
    ghost use Rattle.std.specs.Prelude.{◌≡◌};

    /// The colour of each job by its number, counted from 0.
    pub fn colours(&self) -> &[u8]
        ensures { result.now ≡ self.now.colours }
    {
        &self.colours
    }

    /// How many colours there are.
    pub fn count(&self) -> usize
        ensures { result ≡ self.now.count }
    {
        self.count
    }
}

/// Colours of a plan's jobs, so that two jobs that share an instrument differ: by saturation (DSATUR), in as few colours as
/// that finds. Memory is taken for a byte a job, and time for some 200000 looks at pairs of jobs at most.
pub fn colours_of<A: Allocator + Copy, B: Allocator>(
    alloc: A,
    plan: &Plan<B>,
) -> Result<Colouring<A>, AllocError>
    ensures colouring { IfOk result (λ made. IsColouring plan.now made.colours made.count) }
    ensures greedy { IfOk result (λ made. IsGreedy plan.now made.colours) }
    ensures least { IfOk result (λ made. IsLeast made.colours made.count) }
{
    let colours = by_saturation(alloc, plan)?;
    let count = count_of(&colours);
    Ok(Colouring { colours, count })
}
