//! Who keeps whom waiting, in words.
use crate::faults::plan_of;
use crate::rows::check;
use block_lines::{Block, add_blocks, largest_three};
use lab_plan::{InstrumentNo, JobNo, Plan};
use std::alloc::Global;
use std::process::Abort;

const TWO: &str =
    "lab 1\njob a\nsession\nscale add 1\nlamp add 1\nend\njob b\nsession\nscale add 1\nlamp add 1\nend\n";

/// What is wanted after nine rounds: the last block has no round, and the first two together are the scale's.
const WANTED: &str = "rounds 9 unfinished
blocked b by a on scale rounds 7 held 3
blocked a by b on scale rounds 2 held 1
blocked b by a on lamp rounds 2 held 0
instrument scale blocked 9 held 4
instrument lamp blocked 2 held 0
";

const A: JobNo = JobNo(0);

const B: JobNo = JobNo(1);

const SCALE: InstrumentNo = InstrumentNo(0);

const LAMP: InstrumentNo = InstrumentNo(1);

fn block(job: JobNo, neighbour: JobNo, instrument: InstrumentNo, counts: (u32, u32)) -> Block {
    let (rounds, held) = counts;
    Block {
        job,
        neighbour,
        instrument,
        rounds,
        held,
    }
}

/// The text of blocks after nine rounds, each of which has to name jobs and an instrument of the plan.
fn told(rt: &impl Abort, alloc: Global, plan: &Plan, blocks: &[Block]) -> Vec<u8> {
    for block in blocks {
        assert!(rt; usize::from(block.job.0) < plan.jobs());
        assert!(rt; usize::from(block.neighbour.0) < plan.jobs());
        assert!(rt; usize::from(block.instrument.0) < plan.instruments());
    }
    let mut out = Vec::new(alloc);
    let is_added = add_blocks(alloc, &mut out, plan, 9, false, blocks).is_ok();
    check(rt, "blocks", is_added, true);
    out
}

fn check_told(rt: &impl Abort, alloc: Global, plan: &Plan) {
    let blocks = [
        block(A, B, SCALE, (2, 1)),
        block(B, A, SCALE, (7, 3)),
        block(B, A, LAMP, (2, 0)),
        block(A, B, LAMP, (0, 0)),
    ];
    let text = told(rt, alloc, plan, &blocks);
    check(rt, "blocks", text.as_slice(), WANTED.as_bytes());
}

#[test]
fn blocks_largest_first(rt: HostRuntime) {
    let plan = plan_of(&rt, rt.alloc(), TWO.as_bytes());
    check_told(&rt, rt.alloc(), &plan);
}

fn check_largest(rt: &impl Abort, alloc: Global, blocks: &[Block], wanted: &[Block]) {
    match largest_three(alloc, blocks) {
        Ok(few) => check(rt, "largest", few.as_slice(), wanted),
        Err(_) => panic!(rt; "no memory for blocks"),
    }
}

/// By hand: 7 is most, and of two places with 2 the first comes first. One with 1 is a fourth, and one with none is left out.
#[test]
fn three_largest_blocks(rt: HostRuntime) {
    let blocks = [
        block(B, B, LAMP, (1, 1)),
        block(A, B, SCALE, (2, 1)),
        block(A, B, LAMP, (0, 0)),
        block(B, A, LAMP, (2, 2)),
        block(B, A, SCALE, (7, 3)),
    ];
    let wanted = [
        block(B, A, SCALE, (7, 3)),
        block(A, B, SCALE, (2, 1)),
        block(B, A, LAMP, (2, 2)),
    ];
    check_largest(&rt, rt.alloc(), &blocks, &wanted);
}

#[test]
fn fewer_than_three_blocks(rt: HostRuntime) {
    let blocks = [block(A, B, LAMP, (0, 0)), block(B, A, LAMP, (1, 1))];
    let wanted = [block(B, A, LAMP, (1, 1))];
    check_largest(&rt, rt.alloc(), &blocks, &wanted);
}
