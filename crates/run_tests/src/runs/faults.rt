//! Texts and statuses of the faults that no run of the program can be made to have at will, or whose status `examples/check` doesn't see. All
//! others are cases of `checks/cases` (`of_labrun/faults.py`).
use crate::rows::check;
use lab_program::{RunFault, status_of};
use script_reader::{ScriptCause, ScriptFault};
use std::test::Fail;

const FAULTS: [(RunFault, u8, &str); 4] = [
    (
        RunFault::Script(ScriptFault {
            line: 603,
            cause: ScriptCause::NoMemory,
        }),
        5,
        "line 603: S12 no memory",
    ),
    (RunFault::Read, 4, "read fault"),
    (RunFault::Write, 4, "write fault"),
    (RunFault::NoMemory, 5, "no memory"),
];

#[test]
fn faults(rt: HostRuntime) -> Result<(), Fail> {
    for (fault, status, text) in &FAULTS {
        let printed = format!(in rt.alloc(); "{fault}")?;
        check(&rt, *status, printed.as_str(), *text);
        check(&rt, *text, status_of(&Err(*fault)), *status);
    }
    Ok(())
}
