//! One line of a text, part by part.
use crate::rows::check;
use lab_plan::Verb;
use report::Line;
use std::process::Abort;

#[test]
fn a_line_of_each_part(rt: HostRuntime) {
    let mut line = Line::<120>::new();
    check(&rt, 0, line.as_bytes(), b"");
    line.text(b"x");
    line.number(0);
    line.text(b" ");
    line.number(4_294_967_295);
    line.text(b" ");
    line.count(18_446_744_073_709_551_615);
    line.text(b" ");
    line.verb(Verb::Set(7));
    line.verb(Verb::Read);
    line.verb(Verb::Add(999_999));
    check(
        &rt,
        1,
        line.as_bytes(),
        b"x0 4294967295 18446744073709551615 set 7readadd 999999",
    );
    line.clear();
    line.number(10);
    line.count(9);
    check(&rt, 2, line.as_bytes(), b"109");
}

fn check_number(rt: &impl Abort, number: u32, wanted: &str) {
    let mut line = Line::<14>::new();
    line.text(b"at ");
    line.number(number);
    check(rt, number, line.as_bytes(), wanted.as_bytes());
}

/// Numbers on both sides of a power of ten.
const NUMBERS: [(u32, &str); 12] = [
    (9, "at 9"),
    (10, "at 10"),
    (99, "at 99"),
    (100, "at 100"),
    (999, "at 999"),
    (1000, "at 1000"),
    (9999, "at 9999"),
    (10_000, "at 10000"),
    (999_999, "at 999999"),
    (1_000_000, "at 1000000"),
    (999_999_999, "at 999999999"),
    (1_000_000_000, "at 1000000000"),
];

#[test]
fn numbers_of_each_length(rt: HostRuntime) {
    for &(number, wanted) in &NUMBERS {
        check_number(&rt, number, wanted);
    }
}
