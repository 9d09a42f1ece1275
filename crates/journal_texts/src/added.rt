//! The sessions that came, as a journal has them.
ghost use Rattle.std.specs.Prelude.{◌≡◌, ◌+◌, ◌^◌, ◌<◌, ◌++◌, [], true, drop, codes, length, if◌then◌else◌, IfOk, OnOk};
ghost use Rattle.std.specs.Option.{option_map};
ghost use Rattle.script_reader.specs.Script.{text_lines};
ghost use Rattle.journal_texts.specs.Additions.{is_more, is_end, is_inner, session_in, addition_of, additions_from, additions as additions_of};

use bstr::ByteSlice;
use std::alloc::{AllocError, Allocator, Global};
use std::marker::Model;

/// A session that came: the job that it is of, and its lines.
#[derive(Drop)]
pub struct Addition<A: Allocator = Global> {
    line: usize,
    job: Vec<u8, A>,
    session: Vec<u8, A>,
}

impl<A: Allocator> Model for Addition<A> {
    ghost use Rattle.journal_texts.specs.Additions.{Addition as AdditionView};

    ghost Value = { AdditionView };

    ghost view = { λ a. record { line = a.line; job = a.job.items; session = a.session.items } };
}

impl<A: Allocator> Addition<A> {
    /// The number of its first line in the journal.
    pub fn line(&self) -> usize
        ensures { result ≡ self.now.line }
    {
        self.line
    }

    /// The name of its job.
    pub fn job(&self) -> &[u8]
        ensures { result.now ≡ self.now.job }
    {
        &self.job
    }

    /// The lines of the session, as a script has them.
    pub fn session(&self) -> &[u8]
        ensures { result.now ≡ self.now.session }
    {
        &self.session
    }
}

/// Whether an addition begins with the line.
fn is_more(line: &[u8]) -> bool
    ensures { result ≡ is_more line.now }
{
    line.len() >= 6 && &line[..6] == b"#more ".as_slice()
}

/// Whether an addition ends with the line.
fn is_end(line: &[u8]) -> bool
    ensures { result ≡ is_end line.now }
{
    line == b"#+end".as_slice()
}

/// Whether the line is one of a session.
fn is_inner(line: &[u8]) -> bool
    ensures { result ≡ is_inner line.now }
{
    line.len() >= 2 && &line[..2] == b"#+".as_slice()
}

/// Adds a line without its `#+`.
fn add_inner<A: Allocator>(out: &mut Vec<u8, A>, line: &[u8]) -> Result<(), AllocError>
    requires { is_inner line.now ≡ true }
    ensures { OnOk result (out.new.items ≡ out.old.items ++ (drop 2 line.now ++ codes "\n")) }
{
    out.extend_from_slice(&line[2..])?;
    out.extend_from_slice(b"\n")
}

/// The session that begins a text, if it is whole.
fn session_in<A: Allocator>(alloc: A, text: &[u8]) -> Result<Option<Vec<u8, A>>, AllocError>
    ensures { IfOk result (λ found. option_map (λ session. session.items) found ≡ session_in (text_lines text.now)) }
{
    let mut session = Vec::new(alloc);
    for line in text.lines() {
        if is_end(line) {
            session.extend_from_slice(b"end\n")?;
            return Ok(Some(session));
        }
        if !is_inner(line) {
            return Ok(None);
        }
        add_inner(&mut session, line)?;
    }
    Ok(None)
}

/// Adds the addition that begins with a line, if its session, in the text behind it, is whole.
fn add_one<A: Allocator + Copy>(
    alloc: A,
    all: &mut Vec<Addition<A>, A>,
    number: usize,
    line: &[u8],
    rest: &[u8],
) -> Result<(), AllocError>
    ensures { OnOk result (all.new.items ≡ all.old.items
        ++ (if is_more line.now then addition_of number (drop 6 line.now) (session_in (text_lines rest.now)) else [])) }
{
    if !is_more(line) {
        return Ok(());
    }
    let Some(session) = session_in(alloc, rest)? else {
        return Ok(())
    };
    let mut job = Vec::new(alloc);
    job.extend_from_slice(&line[6..])?;
    all.push(Addition {
        line: number,
        job,
        session,
    })?;
    Ok(())
}

/// Those of a text whose first line has this number.
fn additions_from<A: Allocator + Copy>(
    alloc: A,
    text: &[u8],
    first: usize,
) -> Result<Vec<Addition<A>, A>, AllocError>
    requires { first + length (text_lines text.now) < 2 ^ 64 }
    ensures { IfOk result (λ all. all.items ≡ additions_from first (text_lines text.now)) }
{
    let mut all = Vec::new(alloc);
    let mut lines = text.lines();
    let mut number = first;
    while let Some(line) = lines.next() {
        add_one(alloc, &mut all, number, line, lines.as_bytes())?;
        number += 1;
    }
    Ok(all)
}

/// The sessions that a journal says came, in its order, behind its line `steps`. An addition that breaks off, as in a file that was cut while it was
/// written, is none.
pub fn additions<A: Allocator + Copy>(
    alloc: A,
    text: &[u8],
) -> Result<Vec<Addition<A>, A>, AllocError>
    ensures { IfOk result (λ all. all.items ≡ additions_of text.now) }
{
    let mut lines = text.lines();
    let mut number = 1usize;
    while let Some(line) = lines.next() {
        number += 1;
        if line == b"steps".as_slice() {
            return additions_from(alloc, lines.as_bytes(), number);
        }
    }
    Ok(Vec::new(alloc))
}
