//! Which measure is better, and scripts that were made and are read back. What `labview arrange N` writes stands in
//! `checks/cases/of_labview/measured.py`.
use arranged_scripts::read_back;
use arranging::has_jobs_of;
use lab_plan::{JobNo, Plan};
use measured_orders::{Measure, is_better};
use std::alloc::Global;
use std::process::Abort;

/// Whether a run is finished, its rounds, and those that were waited.
type Wanted = (bool, u32, u128);

fn measure((finished, rounds, waited): Wanted) -> Measure {
    Measure {
        finished,
        rounds,
        waited,
    }
}

/// Of each pair the first is better, and the second isn't.
const BETTER: [(Wanted, Wanted); 5] = [
    ((true, 8, 60), (true, 9, 50)),
    ((true, 9, 49), (true, 9, 50)),
    ((true, 9, 50), (false, 9, 0)),
    ((true, 9, 50), (false, 1, 1)),
    ((false, 9, 1), (false, 9, 2)),
];

fn is_first_better(rt: &impl Abort, better: Measure, worse: Measure) {
    assert!(rt; is_better(better, worse), "{better:?}");
    assert!(rt; !is_better(worse, better), "{worse:?}");
    assert!(rt; !is_better(better, better), "{better:?}");
}

#[test]
fn measures_by_hand(rt: HostRuntime) {
    for (better, worse) in &BETTER {
        is_first_better(&rt, measure(*better), measure(*worse));
    }
}

const SWAPPED: [JobNo; 2] = [JobNo(1), JobNo(0)];

const AS_THEY_COME: [JobNo; 2] = [JobNo(0), JobNo(1)];

/// Two jobs, and the same with b first.
const A_FIRST: &str = "lab 1\njob a\nsession\nscale add 1\nend\njob b\nsession\nscale add 2\nend\n";

const B_FIRST: &str = "lab 1\njob b\nsession\nscale add 2\nend\njob a\nsession\nscale add 1\nend\n";

/// The plan of a script that was made.
fn plan_again(rt: &impl Abort, alloc: Global, script: &str) -> Plan<Global> {
    match read_back(alloc, script.as_bytes()) {
        Ok(Some(plan)) => plan,
        _ => panic!(rt; "no plan"),
    }
}

fn are_swapped(rt: &impl Abort, plan: &Plan<Global>, other: &Plan<Global>) {
    assert!(rt; plan.jobs() == 2);
    assert!(rt; has_jobs_of(plan, &SWAPPED, other));
    assert!(rt; !has_jobs_of(plan, &AS_THEY_COME, other));
}

/// What was made is read as the same jobs; what is no script isn't read.
#[test]
fn scripts_are_read_back(rt: HostRuntime) {
    let plan = plan_again(&rt, rt.alloc(), B_FIRST);
    let other = plan_again(&rt, rt.alloc(), A_FIRST);
    are_swapped(&rt, &plan, &other);
    match read_back(rt.alloc(), b"lab 1\nsession\n") {
        Ok(None) => (),
        _ => panic!(rt; "read back"),
    }
}
