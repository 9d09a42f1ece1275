//! The colours of a script's jobs, and how many there are. What `labview arrange` writes stands in `checks/cases/of_labview/orders.py`.
use arranging::{colours_of, order_of};
use lab_plan::JobNo;
use script_reader::read_plan;
use std::alloc::{AllocError, Global};
use std::process::Abort;

/// Two jobs that share a scale, and one that shares nothing.
const SHARED: &str =
    "lab 1\njob a\nsession\ns add 1\nend\njob b\nsession\ns add 1\nend\njob c\nsession\nt add 1\nend\n";

/// The hub shares an instrument with each of the three others, which share nothing: it has the most neighbours, so it gets the first colour.
const STAR: &str = "lab 1
job a
session
x set 5
end
job b
session
y add 1
end
job hub
session
x read
y read
z read
end
job c
session
z add 2
end
";

/// All three share one thing, so each has a colour of its own.
const ONE_THING: &str =
    "lab 1\njob a\nsession\ns read\nend\njob b\nsession\ns read\nend\njob c\nsession\ns read\nend\n";

/// Five in a ring: a and c get the first colour, b and d the second, e the third.
const RING: &str = "lab 1
job a
session
ea read
ab read
end
job b
session
ab read
bc read
end
job c
session
bc read
cd read
end
job d
session
cd read
de read
end
job e
session
de read
ea read
end
";

/// Eight in a ring: every second job gets the first colour.
const RING_OF_EIGHT: &str = "lab 1
job a
session
ha read
ab read
end
job b
session
ab read
bc read
end
job c
session
bc read
cd read
end
job d
session
cd read
de read
end
job e
session
de read
ef read
end
job f
session
ef read
fg read
end
job g
session
fg read
gh read
end
job h
session
gh read
ha read
end
";

/// The colours of a script's jobs, how many there are, and the order of the jobs.
fn arrangement_of(alloc: Global, script: &str) -> Result<(Vec<u8>, usize, Vec<JobNo>), AllocError> {
    let Ok(plan) = read_plan(alloc, script.as_bytes()) else {
        return Err(AllocError);
    };
    let colouring = colours_of(alloc, &plan)?;
    let order = order_of(alloc, &colouring)?;
    let colours = Vec::from_slice(alloc, colouring.colours())?;
    Ok((colours, colouring.count(), order))
}

/// A script, the colours of its jobs, how many there are, and the order of the jobs.
type Row = (&'static str, &'static [u8], usize, &'static [u8]);

const COLOURS: [Row; 6] = [
    (SHARED, &[0, 1, 0], 2, &[0, 2, 1]),
    (STAR, &[1, 1, 0, 1], 2, &[2, 0, 1, 3]),
    (ONE_THING, &[0, 1, 2], 3, &[0, 1, 2]),
    (RING, &[0, 1, 0, 1, 2], 3, &[0, 2, 1, 3, 4]),
    (
        RING_OF_EIGHT,
        &[0, 1, 0, 1, 0, 1, 0, 1],
        2,
        &[0, 2, 4, 6, 1, 3, 5, 7],
    ),
    ("lab 1\n", &[], 0, &[]),
];

fn are_jobs(jobs: &[JobNo], numbers: &[u8]) -> bool {
    if jobs.len() != numbers.len() {
        return false;
    }
    for place in 0..jobs.len() {
        let job = jobs[place];
        if job.0 != numbers[place] {
            return false;
        }
    }
    true
}

fn is_arrangement(rt: &impl Abort, row: &Row, (found, many, jobs): &(Vec<u8>, usize, Vec<JobNo>)) {
    let (script, colours, count, order) = *row;
    let is_so = found.as_slice() == colours && *many == count && are_jobs(jobs.as_slice(), order);
    assert!(rt; is_so, "{script}");
}

fn check_colours(rt: &impl Abort, alloc: Global, row: &Row) {
    match arrangement_of(alloc, row.0) {
        Ok(found) => is_arrangement(rt, row, &found),
        Err(_) => panic!(rt; "no arrangement"),
    }
}

#[test]
fn colours_by_hand(rt: HostRuntime) {
    for row in &COLOURS {
        check_colours(&rt, rt.alloc(), row);
    }
}
