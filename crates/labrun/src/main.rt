//! The program `labrun`: its words, standard input, output and error, handed to `lab_runs`, which does the work.
#![tactic(auto)]

use command_line::{end_without_task, given_words};
use lab_program::{FromRead, RunFault, end};
use lab_runs::{PROGRAM, run_words};
use report::ToWrite;
use std::io::{self, BufWriter};
use std::process::ExitCode;

fn main(rt: HostRuntime) -> ExitCode {
    let alloc = rt.alloc();
    let words = match given_words(&rt, alloc) {
        Ok(words) => words,
        Err(reason) => return end_without_task(&rt, PROGRAM, reason),
    };
    let Ok(output) = BufWriter::new(alloc, io::writer(&rt)) else {
        return end(&rt, PROGRAM, Err(RunFault::NoMemory));
    };
    let mut source = FromRead::new(rt.reader());
    let mut sink = ToWrite::new(output);
    run_words(&rt, &rt, alloc, words.as_slice(), &mut source, &mut sink)
}
