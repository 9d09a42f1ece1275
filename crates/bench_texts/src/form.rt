//! What a line of a text `bench 1` is, and where it stands.
ghost use Rattle.std.specs.Prelude.{◌≡◌};
ghost use Rattle.bstr.specs.Text.{without_terminator};
ghost use Rattle.script_reader.specs.Fields.{fields};
ghost use Rattle.bench_texts.specs.Forms.{view};
ghost use Rattle.bench_texts.specs.Lines.{are_names, behind, gives_session, is_header, is_skipped, line_count, line_of};

use crate::fields::{all_names, count, next_field, without_end};

/// Where a line stands.
#[derive(Clone, Copy, PartialEq, Eq, Debug)]
pub(crate) enum Place {
    /// Before the header.
    Head,
    /// Directly behind the line of a job.
    BehindJob,
    Inside,
}

/// What a line is. What stands behind a word `uses` is kept as it is written.
#[derive(Clone, Copy, Debug)]
pub(crate) enum Form<'a> {
    Skipped,
    Job,
    Uses(&'a [u8]),
    Other,
}

/// Whether a line `uses` with these fields names something, and nothing but instruments.
fn are_names(names: &[u8]) -> bool
    ensures { result ≡ are_names (fields names.now) }
{
    next_field(names).is_some() && all_names(names)
}

impl Place {
    /// Where the line behind such a line stands.
    pub(crate) fn behind(self, form: &Form) -> Place
        ensures { result ≡ behind self (view form.now) }
    {
        match form {
            Form::Skipped => self,
            Form::Job => Place::BehindJob,
            Form::Uses(_) => Place::Inside,
            Form::Other => Place::Inside,
        }
    }

    /// Whether such a line gives its job a first session here.
    pub(crate) fn gives_session(self, form: &Form) -> bool
        ensures { result ≡ gives_session self (view form.now) }
    {
        match (self, form) {
            (Place::BehindJob, Form::Uses(names)) => are_names(names),
            _ => false,
        }
    }

    /// How many lines such a line stands for here.
    pub(crate) fn line_count(self, form: &Form) -> usize
        ensures { result ≡ line_count self (view form.now) }
    {
        match form {
            Form::Uses(names) if self.gives_session(form) => count(names) + 2,
            _ => 1,
        }
    }
}

/// What a line is, as it stands in the text, with its end.
pub(crate) fn form_of(line: &[u8]) -> Form
    ensures { view result ≡ line_of line.now }
{
    let Some((first, rest)) = next_field(without_end(line)) else {
        return Form::Skipped;
    };
    if first[0] == b'#' {
        Form::Skipped
    } else if first == b"job".as_slice() {
        Form::Job
    } else if first == b"uses".as_slice() {
        Form::Uses(rest)
    } else {
        Form::Other
    }
}

/// Whether a line is skipped: it is empty, or a comment.
pub(crate) fn is_skipped(line: &[u8]) -> bool
    ensures { result ≡ is_skipped (line_of line.now) }
{
    match form_of(line) {
        Form::Skipped => true,
        _ => false,
    }
}

/// Whether a line is `bench 1`.
pub(crate) fn is_header(line: &[u8]) -> bool
    ensures { result ≡ is_header (fields (without_terminator line.now)) }
{
    let Some((word, rest)) = next_field(without_end(line)) else {
        return false;
    };
    let Some((version, rest)) = next_field(rest) else {
        return false;
    };
    word == b"bench".as_slice() && version == b"1".as_slice() && next_field(rest).is_none()
}
