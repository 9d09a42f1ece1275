//! The forms of a script's lines.
ghost use Rattle.std.specs.Prelude.{◌≡◌, MatchOption, None, Some};
ghost use Rattle.script_reader.specs.Fields.{fields};
ghost use Rattle.script_reader.specs.Line.{lab_line, job_line, session_line, alone, command_line, line_with, form_of, Unknown, Steps, End};
ghost use Rattle.script_reader.specs.Form.{line_of};

use crate::field::{is_blank, next_field, one_field};
use lab_plan::is_same_name;

/// The version of a script.
#[derive(Clone, Copy)]
pub(crate) enum Version {
    One,
    Two,
}

impl Version {
    ghost use Rattle.script_reader.specs.State.{is_two};

    /// Whether sessions may have a patience.
    pub(crate) fn is_two(self) -> bool
        ensures { result ≡ is_two self }
    {
        match self {
            Version::One => false,
            Version::Two => true,
        }
    }
}

/// A verb, with its number as it is spelled.
#[derive(Clone, Copy)]
pub(crate) enum VerbField<'a> {
    Set(&'a [u8]),
    Add(&'a [u8]),
    Read,
}

/// The form of a line that isn't skipped, with its names and numbers as they are spelled.
#[derive(Clone, Copy)]
pub(crate) enum Form<'a> {
    Header(Version),
    Job(&'a [u8]),
    Session,
    PatientSession(&'a [u8]),
    Command(&'a [u8], VerbField<'a>),
    End,
    Steps,
    Unknown,
}

fn lab_line(rest: &[u8]) -> Form
    ensures { line_of result ≡ lab_line (fields rest.now) }
{
    match one_field(rest) {
        None => Form::Unknown,
        Some(version) => {
            if is_same_name(version, b"1") {
                Form::Header(Version::One)
            } else if is_same_name(version, b"2") {
                Form::Header(Version::Two)
            } else {
                Form::Unknown
            }
        }
    }
}

fn job_line(rest: &[u8]) -> Form
    ensures { line_of result ≡ job_line (fields rest.now) }
{
    match one_field(rest) {
        None => Form::Unknown,
        Some(name) => Form::Job(name),
    }
}

fn session_line(rest: &[u8]) -> Form
    ensures { line_of result ≡ session_line (fields rest.now) }
{
    let Some((word, rest)) = next_field(rest) else {
        return Form::Session;
    };
    match one_field(rest) {
        Some(number) if is_same_name(word, b"patience") => Form::PatientSession(number),
        _ => Form::Unknown,
    }
}

fn end_line(rest: &[u8]) -> Form
    ensures { line_of result ≡ alone End (fields rest.now) }
{
    if is_blank(rest) {
        Form::End
    } else {
        Form::Unknown
    }
}

fn steps_line(rest: &[u8]) -> Form
    ensures { line_of result ≡ alone Steps (fields rest.now) }
{
    if is_blank(rest) {
        Form::Steps
    } else {
        Form::Unknown
    }
}

fn command_line<'a>(name: &'a [u8], rest: &'a [u8]) -> Form<'a>
    ensures { line_of result ≡ command_line name.now (fields rest.now) }
{
    let Some((verb, rest)) = next_field(rest) else {
        return Form::Unknown;
    };
    let Some((number, rest)) = next_field(rest) else {
        return if is_same_name(verb, b"read") {
            Form::Command(name, VerbField::Read)
        } else {
            Form::Unknown
        };
    };
    if !is_blank(rest) {
        return Form::Unknown;
    }
    if is_same_name(verb, b"set") {
        return Form::Command(name, VerbField::Set(number));
    }
    if is_same_name(verb, b"add") {
        return Form::Command(name, VerbField::Add(number));
    }
    Form::Unknown
}

/// The form of the line with this first field.
#[tactic(auto, unfolding(crate::specs::Line::line_with))]
fn line_with<'a>(first: &'a [u8], rest: &'a [u8]) -> Form<'a>
    ensures { line_of result ≡ line_with first.now (fields rest.now) }
{
    if is_same_name(first, b"lab") {
        return lab_line(rest);
    }
    if is_same_name(first, b"job") {
        return job_line(rest);
    }
    if is_same_name(first, b"session") {
        return session_line(rest);
    }
    if is_same_name(first, b"end") {
        return end_line(rest);
    }
    if is_same_name(first, b"steps") {
        return steps_line(rest);
    }
    if is_same_name(first, b"patience") {
        return Form::Unknown;
    }
    command_line(first, rest)
}

/// The form of a line, or None if the line is skipped.
pub(crate) fn form_of(line: &[u8]) -> Option<Form>
    ensures { MatchOption result (form_of line.now ≡ None) (λ form. form_of line.now ≡ Some (line_of form)) }
{
    let (first, rest) = next_field(line)?;
    if first[0] == b'#' {
        return None;
    }
    Some(line_with(first, rest))
}
