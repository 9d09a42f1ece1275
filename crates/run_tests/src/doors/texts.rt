//! From which lines of a text `bench 1` the lines of its script came. No call for C names the `end` of a line `uses`.
use crate::rows::check;
use bench_texts::origin;
use std::rt::HostRuntime;

/// Two jobs, of which one has a session of its own.
const BAY: &[u8] =
    b"# the bay\r\n bench 1\njob board\n\n# what it may use\n\tuses scope  supply \r\njob guest\nuses scope\nsession\nscope set 7\nend\njob idle";

/// A script, in which `uses` and `bench` are names.
const NO_BENCH: &[u8] = b"lab 1\njob uses\nsession\nuses read\nbench read\nend\n";

/// The ends of the first sessions, the line behind the first, and the end.
#[test]
fn lines_come_from_lines(rt: HostRuntime) {
    check(&rt, 1, origin(BAY, 9), 6);
    check(&rt, 2, origin(BAY, 10), 7);
    check(&rt, 3, origin(BAY, 13), 8);
    check(&rt, 4, origin(BAY, 18), 13);
    check(&rt, 5, origin(NO_BENCH, 4), 4);
}
