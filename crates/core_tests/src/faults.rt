//! Scripts, where no run of `labrun` shows it: two texts of causes, further sessions, memory that runs out, and that each law can be called.
use crate::rows::check;
use lab_plan::Plan;
use script_reader::laws::{one_meaning, one_meaning_with_steps, sessions_are_granted};
use script_reader::upgrade_law::{upgrade_is_short, upgrade_means_plan};
use script_reader::{ScriptCause, ScriptFault, read_plan};
use std::alloc::{Allocator, Global};
use std::process::Abort;

mod further;
mod memory;

type Fault = Option<(usize, ScriptCause)>;

fn told<T: Drop>(answer: Result<T, ScriptFault>) -> Fault {
    match answer {
        Ok(_) => None,
        Err(fault) => Some((fault.line, fault.cause)),
    }
}

pub(crate) fn plan_of<A: Allocator + Copy>(rt: &impl Abort, alloc: A, script: &[u8]) -> Plan<A> {
    match read_plan(alloc, script) {
        Ok(plan) => plan,
        Err(_) => panic!(rt; "no plan"),
    }
}

/// The causes that need a machine without memory, or a plan that is in use.
const PRINTED: [(ScriptCause, &str); 2] = [
    (ScriptCause::NoMemory, "S12 no memory"),
    (ScriptCause::NotItsOwn, "S14 not an instrument of the job"),
];

fn check_printed(rt: &impl Abort, alloc: Global, cause: ScriptCause, text: &str) {
    match format!(in alloc; "{cause}") {
        Ok(printed) => check(rt, text, printed.as_str(), text),
        Err(_) => panic!(rt; "no memory for a text"),
    }
}

#[test]
fn causes_are_printed(rt: HostRuntime) {
    for &(cause, text) in &PRINTED {
        check_printed(&rt, rt.alloc(), cause, text);
    }
}

/// The laws are contracts: what is called does nothing.
#[test]
fn laws_of_scripts() {
    one_meaning();
    one_meaning_with_steps();
    upgrade_means_plan();
    upgrade_is_short();
    sessions_are_granted();
}
