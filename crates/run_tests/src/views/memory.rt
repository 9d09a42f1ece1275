//! Memory that runs out: each allocation of a view is refused in turn. The view says so and writes nothing, or makes up for it.
use lab_program::FromRead;
use lab_views::{View, run_view, status_of_view};
use refusing_heap::RefusingHeap;
use report::ToWrite;
use std::alloc::Global;
use std::process::Abort;

/// A view on a heap that refuses this allocation, over a writer that takes its memory elsewhere: how many bytes it wrote,
/// its status, and how many allocations it asked for.
fn told_without(out: Global, view: View, text: &[u8], refused: u64) -> (usize, u8, u64) {
    let heap = RefusingHeap::new(out, refused);
    let mut bytes = Vec::new(out);
    let mut source = FromRead::new(text);
    let mut sink = ToWrite::new(&mut bytes);
    let answer = run_view(view, &heap, &mut source, &mut sink, &mut None);
    let status = status_of_view(&answer);
    (bytes.len(), status, heap.allocations())
}

/// Two jobs on one instrument.
const SCRIPT: &str = "lab 1\njob a\nsession\nscale add 1\nend\njob b\nsession\nscale add 1\nend\n";

const STEPS: &str =
    "lab 1\njob a\nsession\nscale add 1\nend\njob b\nsession\nscale add 1\nend\nsteps\nthirst a\nsit b\n";

const REPORT: &str =
    "lab 1\ninstrument scale 1\na 1 1/1 add 1 = 1\njob a sessions 1 of 1 meals 0 retired\nfinished\n";

/// A view, and a text for it.
const VIEWS: [(View, &str); 9] = [
    (View::Explain, STEPS),
    (View::Picture, REPORT),
    (View::Table, REPORT),
    (View::Trace { limit: 20 }, SCRIPT),
    (View::Waits { limit: 20 }, SCRIPT),
    (View::Blocks { limit: 20 }, SCRIPT),
    (View::Gantt { limit: 20 }, SCRIPT),
    (View::Arrange, SCRIPT),
    (View::ArrangeMeasured { limit: 20 }, SCRIPT),
];

/// How many of the allocations are told of if they are refused. If a list is collected, less room is asked for after a refusal, and nothing is
/// lost.
fn told_of(rt: &impl Abort, out: Global, view: View, text: &[u8]) -> u64 {
    let (written, status, all) = told_without(out, view, text, 0);
    assert!(rt; written > 0 && status == 0 && all > 0);
    let mut told = 0u64;
    for number in 0..all {
        let (after, status, _) = told_without(out, view, text, number + 1);
        let made_up = after == written && status == 0;
        assert!(rt; made_up || after == 0 && status == 5, "allocation {number}");
        if !made_up {
            told = told.saturating_add(1);
        }
    }
    told
}

#[test]
fn allocations_of_each_view(rt: HostRuntime) {
    for (view, text) in &VIEWS {
        let told = told_of(&rt, rt.alloc(), *view, text.as_bytes());
        assert!(rt; told > 0);
    }
}
