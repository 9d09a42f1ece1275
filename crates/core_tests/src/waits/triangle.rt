//! Three jobs, each two of which share an edge: who precedes whom, before and after a meal of the first. How the forks are during the meal
//! is in `checks/cases` (`of_labview/states.py`).
use super::{FORKS_HIGHER, Question, ask, go_on};
use crate::benches::{A, B, BEFORE_THE_MEAL, C, Do, MEAL_OF_THREE, THREE};
use interleaving::World;
use lab_plan::JobNo;
use std::alloc::Allocator;
use std::process::Abort;

pub(super) type Pair = (u8, u8);

/// Whether these pairs, and no others, are those of which the first job precedes the second.
fn are_pairs<T: Allocator>(world: &World<T>, pairs: &[Pair]) -> bool {
    for a in [A, B, C] {
        for b in [A, B, C] {
            if world.precedes(JobNo(a), JobNo(b)) != pairs.contains(&(a, b)) {
                return false;
            }
        }
    }
    true
}

fn is_pair(((a, b), pair): (&(JobNo, JobNo), &Pair)) -> bool {
    (a.0, b.0) == *pair
}

/// Whether the list of the pairs is this one.
fn lists<T: Allocator + Copy>(rt: &impl Abort, alloc: T, world: &World<T>, pairs: &[Pair]) -> bool {
    match world.precedence(alloc) {
        Ok(list) => list.len() == pairs.len() && list.iter().zip(pairs).all(is_pair),
        Err(_) => panic!(rt; "no memory"),
    }
}

pub(super) fn has_pairs<T: Allocator + Copy>(
    rt: &impl Abort,
    alloc: T,
    world: &mut World<'_, T>,
    steps: &[Do],
    pairs: &[Pair],
) -> bool {
    go_on(rt, world, steps);
    are_pairs(world, pairs) && lists(rt, alloc, world, pairs)
}

const BY_NUMBER: [Pair; 3] = [(A, B), (A, C), (B, C)];

const A_LAST: [Pair; 3] = [(B, A), (C, A), (B, C)];

/// From the meal on a is last, though not every fork is dirty as yet.
#[test]
fn triangle(rt: HostRuntime) {
    for place in 0..12 {
        let pairs = if place <= BEFORE_THE_MEAL {
            &BY_NUMBER
        } else {
            &A_LAST
        };
        let question = Question::Pairs(&MEAL_OF_THREE[..place], pairs);
        assert!(rt;
            ask(&rt, rt.alloc(), THREE, &FORKS_HIGHER, question),
            "after {place} steps not {pairs:?}"
        );
    }
}
