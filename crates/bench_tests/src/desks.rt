//! The ends of the edges of two or three jobs, the desks of two, and calls on a desk that have to be legal.
ghost use Rattle.turns.specs.Lists.{Each};
ghost use Rattle.edge_rule.specs.DeskView.{Owns};

use edge_rule::{Bench, Desk, PhaseEvent, command, glance, store_phase};
use edge_word::PhaseWord;
use instrument_log::Entry;
use lab_plan::JobNo;
use session_layer::{may_phase, may_reach};
use std::alloc::Allocator;
use std::process::Abort;

/// Jobs and edges are plain numbers in a table: one with a `JobNo` in it isn't a constant to the prover, and is costly.
pub(crate) const A: u8 = 0;

pub(crate) const B: u8 = 1;

pub(crate) const C: u8 = 2;

/// The edges of three jobs; of two there is only the first.
pub(crate) const AB: u16 = 0;

pub(crate) const AC: u16 = 1;

pub(crate) const BC: u16 = 2;

/// The desks of a bench for two jobs.
pub(crate) fn both<'p, T: Allocator>(
    rt: &impl Abort,
    bench: &Bench<'p, T>,
    mut desks: Vec<Desk<T>, T>,
) -> (Desk<T>, Desk<T>)
    requires own { Each (Owns bench.now) desks.items }
    ensures { Owns bench.now result.0 × Owns bench.now result.1 }
{
    let Some(second) = desks.pop() else {
        panic!(rt; "no desk");
    };
    let Some(first) = desks.pop() else {
        panic!(rt; "one desk");
    };
    (first, second)
}

/// Stores a phase, which has to be legal.
pub(crate) fn store<T: Allocator>(
    rt: &impl Abort,
    bench: &Bench<T>,
    desk: &mut Desk<T>,
    what: PhaseEvent,
)
    requires own { Owns bench.now desk.old }
    ensures { Owns bench.now desk.new }
{
    assert!(rt; may_phase(bench, desk, what));
    store_phase(bench, desk, what);
}

/// Does the next command, which has to be legal.
pub(crate) fn commanded<T: Allocator>(
    rt: &impl Abort,
    bench: &Bench<T>,
    desk: &mut Desk<T>,
) -> Entry
    requires own { Owns bench.now desk.old }
    ensures { Owns bench.now desk.new }
{
    assert!(rt; may_reach(bench, desk));
    command(bench, desk)
}

/// Looks how far another job is.
pub(crate) fn glanced<T: Allocator>(
    rt: &impl Abort,
    bench: &Bench<T>,
    desk: &mut Desk<T>,
    other: JobNo,
) -> PhaseWord
    requires own { Owns bench.now desk.old }
    ensures { Owns bench.now desk.new }
{
    let me = desk.job();
    let jobs = bench.plan().jobs();
    assert!(rt; (other.0 as usize) < jobs && other.0 != me.0);
    glance(bench, desk, other)
}
