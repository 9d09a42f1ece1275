//! Words without a program's name, or with another, which no shell gives.
use command_line::NoTask;
use labview_words::{Task, View, read_words};

/// Whether the words ask for an explanation, or are refused.
fn is_told(answer: &Result<Task, NoTask>, is_taken: bool) -> bool {
    match answer {
        Ok(task) => is_taken && *task == Task::Show(View::Explain),
        Err(NoTask::Refused(_)) => !is_taken,
        Err(_) => false,
    }
}

/// A command line, and whether it is taken.
const LINES: [(&[&str], bool); 3] = [
    (&[], false),
    (&["explain"], false),
    (&["", "explain"], true),
];

#[test]
fn first_word_is_the_programs_name(rt: HostRuntime) {
    for &(words, is_taken) in &LINES {
        let answer = read_words(rt.alloc(), words);
        assert!(rt; is_told(&answer, is_taken), "{is_taken}");
    }
}
