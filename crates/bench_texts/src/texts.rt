//! The script that a text stands for.
ghost use Rattle.std.specs.Prelude.{◌≡◌, ◌++◌, IfOk, OnOk};
ghost use Rattle.std.specs.List.{flat_map};
ghost use Rattle.bstr.specs.Text.{lines_of};
ghost use Rattle.script_reader.specs.Fields.{fields};
ghost use Rattle.bench_texts.specs.declared.form.Place.TheVariants.{Head};
ghost use Rattle.bench_texts.specs.Forms.{view};
ghost use Rattle.bench_texts.specs.Lines.{begin_line, other_text, read_line, session_of, text_of, uses_text};
ghost use Rattle.bench_texts.specs.Texts.{is_for_bench, lab_text, text_from};

use crate::fields::next_field;
use crate::form::{Form, Place, form_of, is_header, is_skipped};
use bstr::ByteSlice;
use std::alloc::{AllocError, Allocator};

/// Whether a text is one for a bench: its first line that is neither empty nor a comment is `bench 1`.
pub fn is_for_bench(text: &[u8]) -> bool
    ensures { result ≡ is_for_bench text.now }
{
    for line in text.lines_with_terminator() {
        if !is_skipped(line) {
            return is_header(line);
        }
    }
    false
}

/// Adds a line that reads each of these instruments.
fn add_reads<A: Allocator>(out: &mut Vec<u8, A>, names: &[u8]) -> Result<(), AllocError>
    ensures { OnOk result (out.new.items ≡ out.old.items ++ flat_map read_line (fields names.now)) }
{
    let mut rest = names;
    while let Some((name, more)) = next_field(rest) {
        out.extend_from_slice(name)?;
        out.extend_from_slice(b" read\n")?;
        rest = more;
    }
    Ok(())
}

#[tactic(auto, unfolding(crate::specs::Lines::begin_line))]
fn add_begin<A: Allocator>(out: &mut Vec<u8, A>) -> Result<(), AllocError>
    ensures { OnOk result (out.new.items ≡ out.old.items ++ begin_line) }
{
    out.extend_from_slice(b"session patience 0\n")
}

fn add_session<A: Allocator>(out: &mut Vec<u8, A>, names: &[u8]) -> Result<(), AllocError>
    ensures { OnOk result (out.new.items ≡ out.old.items ++ session_of (fields names.now)) }
{
    add_begin(out)?;
    add_reads(out, names)?;
    out.extend_from_slice(b"end\n")
}

/// Adds what a line `uses` stands for.
fn add_uses<A: Allocator>(
    out: &mut Vec<u8, A>,
    place: Place,
    names: &[u8],
) -> Result<(), AllocError>
    ensures { OnOk result (out.new.items ≡ out.old.items ++ uses_text place (fields names.now)) }
{
    if place.gives_session(&Form::Uses(names)) {
        return add_session(out, names);
    }
    if place == Place::BehindJob && next_field(names).is_some() {
        return out.extend_from_slice(b"job -\n");
    }
    out.extend_from_slice(b"uses\n")
}

fn add_other<A: Allocator>(
    out: &mut Vec<u8, A>,
    place: Place,
    line: &[u8],
) -> Result<(), AllocError>
    ensures { OnOk result (out.new.items ≡ out.old.items ++ other_text place line.now) }
{
    match place {
        Place::Head => out.extend_from_slice(b"lab 2\n"),
        Place::BehindJob => out.extend_from_slice(line),
        Place::Inside => out.extend_from_slice(line),
    }
}

/// Adds what a line stands for.
fn add_line<A: Allocator>(
    out: &mut Vec<u8, A>,
    place: Place,
    line: &[u8],
    form: &Form,
) -> Result<(), AllocError>
    ensures { OnOk result (out.new.items ≡ out.old.items ++ text_of place line.now (view form.now)) }
{
    match form {
        Form::Skipped => out.extend_from_slice(line),
        Form::Job => add_other(out, place, line),
        Form::Uses(names) => add_uses(out, place, names),
        Form::Other => add_other(out, place, line),
    }
}

/// What all lines of a text stand for.
fn made<A: Allocator>(alloc: A, text: &[u8]) -> Result<Vec<u8, A>, AllocError>
    ensures { IfOk result (λ out. out.items ≡ text_from Head (lines_of text.now)) }
{
    let mut out = Vec::new(alloc);
    let mut place = Place::Head;
    for line in text.lines_with_terminator() {
        let form = form_of(line);
        add_line(&mut out, place, line, &form)?;
        place = place.behind(&form);
    }
    Ok(out)
}

/// The script that a text stands for, whether or not that has a fault: of a text `bench 1` a script `lab 2`, and of any other text itself.
pub fn lab_text<A: Allocator>(alloc: A, text: &[u8]) -> Result<Vec<u8, A>, AllocError>
    ensures { IfOk result (λ out. out.items ≡ lab_text text.now) }
{
    if is_for_bench(text) {
        return made(alloc, text);
    }
    Vec::from_slice(alloc, text)
}
