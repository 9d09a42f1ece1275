//! Command lines of which no run of the program shows what they ask for: other names of it, and how many workers. All others are cases of
//! `checks/cases` (`of_labrun/words.py`).
use crate::rows::check;
use lab_runs::{Task, read_words};

const IDLE: Task = Task::Threads {
    workers: 1,
    turns: 0,
};

const MOST: Task = Task::Threads {
    workers: 32,
    turns: 1_000_000_000,
};

const TEN: Task = Task::Threads {
    workers: 32,
    turns: 10,
};

const SEVEN: Task = Task::Threads {
    workers: 2,
    turns: 7,
};

const LONG: Task = Task::Rounds {
    limit: 1_000_000_000,
};

const LINES: [(&[&str], Task); 11] = [
    (&["./labrun", "check"], Task::Check),
    (&["", "upgrade"], Task::Upgrade),
    (&[], Task::Rounds { limit: 10_000 }),
    (&["", "rounds", "1000000000"], LONG),
    (&["labrun", "threads", "1", "0"], IDLE),
    (&["labrun", "threads", "32", "1000000000"], MOST),
    (&["labrun", "threads", "0000000000000000000032", "010"], TEN),
    (&["labrun", "threads", "--", "2", "7"], SEVEN),
    (&["labrun", "threads", "2", "--", "7"], SEVEN),
    (&["labrun", "threads", "2", "7", "--"], SEVEN),
    (&["labrun", "threads", "+2", "7"], SEVEN),
];

#[test]
fn words(rt: HostRuntime) {
    for (row, (words, task)) in LINES.iter().enumerate() {
        let asked = read_words(rt.alloc(), words).ok();
        check(&rt, row, asked, Some(*task));
    }
}
