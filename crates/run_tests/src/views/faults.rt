//! What no run of `labview` shows of a report that is read: its version, and faults that are told in another way.
use report_reader::ReportCause::NotWhole;
use report_reader::{ReportCause, ReportFault, read_report};
use std::alloc::Global;
use std::process::Abort;

fn version_of(rt: &impl Abort, alloc: Global, text: &str) -> u8 {
    match read_report(alloc, text.as_bytes()) {
        Ok(report) => report.version(),
        Err(_) => panic!(rt; "no report"),
    }
}

#[test]
fn versions_of_reports(rt: HostRuntime) {
    assert!(rt; version_of(&rt, rt.alloc(), "lab 1\nfinished\n") == 1);
    assert!(rt; version_of(&rt, rt.alloc(), "lab 2\nfinished\n") == 2);
}

fn fault_of(alloc: Global, text: &str) -> Option<ReportFault> {
    match read_report(alloc, text.as_bytes()) {
        Ok(_) => None,
        Err(fault) => Some(fault),
    }
}

/// The beginning of a report that is also a script, so that `labview` calls it one, and the line of its fault.
const NOT_WHOLE: [(&str, usize); 2] = [("lab 1", 1), ("lab 1\n", 2)];

#[test]
fn reports_that_are_scripts(rt: HostRuntime) {
    for &(text, line) in &NOT_WHOLE {
        let fault = ReportFault {
            line,
            cause: NotWhole,
        };
        assert!(rt; fault_of(rt.alloc(), text) == Some(fault), "line {line}");
    }
}

/// (`labview` says this of any lack of memory.)
#[test]
fn lack_of_memory_is_printed(rt: HostRuntime) {
    let (alloc, cause) = (rt.alloc(), ReportCause::NoMemory);
    match format!(in alloc; "{cause}") {
        Ok(printed) => assert!(rt; printed.as_str() == "no memory"),
        Err(_) => panic!(rt; "no memory for a text"),
    }
}
