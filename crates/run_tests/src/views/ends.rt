//! How a program ends if there was no memory for its words.
use command_line::{NoTask, end_saying_why, end_without_task};
use std::alloc::{AllocError, Global};
use std::cell::RefCell;
use std::fmt::Display;
use std::io;
use std::process::{Abort, ExitCode};

/// A runtime that keeps what is printed on standard error, and prints nothing else.
#[derive(Drop)]
struct ErrorsKept {
    errors: RefCell<String>,
}

impl ErrorsKept {
    fn new(alloc: Global) -> ErrorsKept {
        ErrorsKept {
            errors: RefCell::new(String::new(alloc)),
        }
    }

    fn keep<D: Display + Drop>(&self, value: D, end: &str) -> io::Result<()> {
        match self.errors.try_borrow_mut() {
            Ok(mut text) => {
                write!(text, "{value}{end}")?;
                Ok(())
            }
            Err(_) => Err(io::Error::from(AllocError)),
        }
    }
}

impl Print for ErrorsKept {
    fn print<D: Display + Drop>(&self, value: D) -> io::Result<()> {
        self.keep(value, " on standard output")
    }

    fn println<D: Display + Drop>(&self, value: D) -> io::Result<()> {
        self.keep(value, " on standard output\n")
    }

    fn write_all(&self, _bytes: &[u8]) -> io::Result<()> {
        self.keep("bytes", " on standard output")
    }
}

impl Eprint for ErrorsKept {
    fn eprint<D: Display + Drop>(&self, value: D) -> io::Result<()> {
        self.keep(value, "")
    }

    fn eprintln<D: Display + Drop>(&self, value: D) -> io::Result<()> {
        self.keep(value, "\n")
    }
}

/// What was said, and the status.
fn check(rt: &impl Abort, kept: ErrorsKept, code: ExitCode) {
    let said = kept.errors.into_inner();
    assert!(rt; said.as_str() == "labrun: no memory\n", "said: {said}");
    assert!(rt; code == ExitCode::from(5), "{code:?}");
}

#[test]
fn ends_without_memory(rt: HostRuntime) {
    let kept = ErrorsKept::new(rt.alloc());
    let code = end_without_task(&kept, "labrun", NoTask::NoMemory);
    check(&rt, kept, code);
    let kept = ErrorsKept::new(rt.alloc());
    let code = end_saying_why(&kept, "labrun", NoTask::NoMemory);
    check(&rt, kept, code);
}
