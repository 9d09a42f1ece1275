//! The laboratories of the tests: scripts, their plans, and benches that are opened and closed.
ghost use Rattle.turns.specs.Lists.{Each};
ghost use Rattle.edge_rule.specs.DeskView.{Owns};

use edge_rule::{Bench, Closed, Desk};
use lab_plan::Plan;
use script_reader::read_plan;
use std::alloc::{Allocator, Global};
use std::process::Abort;
use std::test::Fail;

/// Jobs a and b, which add 1 on the scale in one session each.
pub(crate) const TWO: &str =
    "lab 1\njob a\nsession\nscale add 1\nend\njob b\nsession\nscale add 1\nend\n";

/// The same, with a second session of a.
pub(crate) const TWICE: &str =
    "lab 1\njob a\nsession\nscale add 1\nend\nsession\nscale add 1\nend\njob b\nsession\nscale add 1\nend\n";

/// The first, with a patience for the session of b.
pub(crate) const PATIENCE_0: &str =
    "lab 2\njob a\nsession\nscale add 1\nend\njob b\nsession patience 0\nscale add 1\nend\n";

pub(crate) const PATIENCE_1: &str =
    "lab 2\njob a\nsession\nscale add 1\nend\njob b\nsession patience 1\nscale add 1\nend\n";

pub(crate) const PATIENCE_3: &str =
    "lab 2\njob a\nsession\nscale add 1\nend\njob b\nsession patience 3\nscale add 1\nend\n";

/// One job, with two commands.
pub(crate) const ALONE: &str = "lab 1\njob a\nsession\nscale set 5\nscale read\nend\n";

/// Job a has no session.
pub(crate) const IDLER: &str = "lab 1\njob a\njob b\nsession\nscale add 1\nend\n";

/// Jobs a and b, which add 1 in one session each, on instruments of their own.
pub(crate) const APART: &str =
    "lab 1\njob a\nsession\nscale add 1\nend\njob b\nsession\nlamp add 1\nend\n";

/// No job at all.
pub(crate) const NOBODY: &str = "lab 1\n";

/// Three jobs in a ring: a and b have the lamp in common, a and c the scale, b and c the pump.
pub(crate) const RING: &str =
    "lab 1\njob a\nsession\nlamp add 1\nscale add 1\nend\njob b\nsession\nlamp add 1\npump add 1\nend\njob c\nsession\npump add 1\nscale add 1\nend\n";

/// Jobs a, b and c, which add 1 on the same three instruments in one session each.
pub(crate) const THREE: &str =
    "lab 1\njob a\nsession\nlamp add 1\npump add 1\nscale add 1\nend\njob b\nsession\nlamp add 1\npump add 1\nscale add 1\nend\njob c\nsession\nlamp add 1\npump add 1\nscale add 1\nend\n";

/// Four jobs, each with two sessions on one scale that all have in common.
pub(crate) const FOUR: &str =
    "lab 1\njob a\nsession\nscale add 1\nend\nsession\nscale add 1\nend\njob b\nsession\nscale add 1\nend\nsession\nscale add 1\nend\njob c\nsession\nscale add 1\nend\nsession\nscale add 1\nend\njob d\nsession\nscale add 1\nend\nsession\nscale add 1\nend\n";

/// A script of 32 jobs: the last, the hub, has an instrument in common with each other.
pub(crate) fn star_script(alloc: Global) -> Result<String, Fail> {
    let mut text = String::new(alloc);
    let mut hub = String::new(alloc);
    for number in 0..31u32 {
        let job = format!(in alloc; "job j{number}\nsession\ni{number} add 1\nend\n")?;
        let command = format!(in alloc; "i{number} add 1\n")?;
        text.push_str(&job)?;
        hub.push_str(&command)?;
    }
    Ok(format!(in alloc; "lab 1\n{text}job hub\nsession\n{hub}end\n")?)
}

pub(crate) fn plan_of<T: Allocator + Copy>(rt: &impl Abort, alloc: T, script: &str) -> Plan<T> {
    match read_plan(alloc, script.as_bytes()) {
        Ok(plan) => plan,
        Err(_) => panic!(rt; "no plan"),
    }
}

/// A bench in the initial state, and the desks of its jobs.
pub(crate) fn opened<'p, T: Allocator + Copy>(
    rt: &impl Abort,
    alloc: T,
    plan: &'p Plan<T>,
) -> (Bench<'p, T>, Vec<Desk<T>, T>)
    ensures { Each (Owns result.0) result.1.items }
{
    match Bench::open(alloc, plan) {
        Ok(made) => made,
        Err(_) => panic!(rt; "no bench"),
    }
}

/// What is left of the bench.
pub(crate) fn closed<'p, T: Allocator>(
    rt: &impl Abort,
    alloc: T,
    bench: Bench<'p, T>,
    desks: Vec<Desk<T>, T>,
) -> Closed<'p, T>
    requires { Each (Owns bench) desks.items }
{
    match bench.close(alloc, desks) {
        Ok(left) => left,
        Err(_) => panic!(rt; "not closed"),
    }
}
