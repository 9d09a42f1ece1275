//! The program `labview`: its words, standard input, output and error, handed to `run_words`, which does what the words ask for.
#![tactic(auto)]

mod words;

use crate::words::run_words;
use command_line::{end_saying_why, given_words};
use lab_program::{FromRead, RunFault, end};
use labview_words::PROGRAM;
use report::ToWrite;
use std::io::{self, BufWriter};
use std::process::ExitCode;

fn main(rt: HostRuntime) -> ExitCode {
    let alloc = rt.alloc();
    let words = match given_words(&rt, alloc) {
        Ok(words) => words,
        Err(reason) => return end_saying_why(&rt, PROGRAM, reason),
    };
    let Ok(output) = BufWriter::new(alloc, io::writer(&rt)) else {
        return end(&rt, PROGRAM, Err(RunFault::NoMemory));
    };
    let mut source = FromRead::new(rt.reader());
    let mut sink = ToWrite::new(output);
    run_words(&rt, alloc, words.as_slice(), &mut source, &mut sink)
}
