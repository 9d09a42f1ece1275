//! The fields of a line, which spaces and tabs separate.
ghost use Rattle.std.specs.Prelude.{◌≡◌, ◌≤◌, ◌<◌, ◌∷◌, [], length, IfSome, MatchOption};
ghost use Rattle.std.specs.List.{list_all};
ghost use Rattle.bstr.specs.Text.{without_terminator};
ghost use Rattle.lab_plan.specs.Names.{is_name};
ghost use Rattle.script_reader.specs.Fields.{fields};

use bstr::ByteSlice;
use lab_plan::name::is_name;

/// A line without its line feed, and without a carriage return before that.
pub(crate) fn without_end(line: &[u8]) -> &[u8]
    ensures { result.now ≡ without_terminator line.now }
{
    let n = line.len();
    if n == 0 || line[n - 1] != b'\n' {
        return line;
    }
    if n == 1 || line[n - 2] != b'\r' {
        return &line[..n - 1];
    }
    &line[..n - 2]
}

/// A line up to its first space or tab, and what follows that.
fn cut_at_gap(line: &[u8]) -> (&[u8], &[u8])
    ensures field { 0 < length result.0.now → fields line.now ≡ result.0.now ∷ fields result.1.now }
    ensures no_field { length result.0.now ≡ 0 → fields line.now ≡ fields result.1.now }
    ensures shorter { 0 < length line.now → length result.1.now < length line.now }
{
    match line.find_byteset(b" \t") {
        Some(end) => (&line[..end], &line[end + 1..]),
        None => (line, &[]),
    }
}

/// The first field of a line, and what follows it, whose fields are the others.
#[tactic(auto, using(script_reader::proofs::FieldLemmas::no_bytes))]
pub(crate) fn next_field(line: &[u8]) -> Option<(&[u8], &[u8])>
    ensures fields { MatchOption result (fields line.now ≡ []) (λ r. (fields line.now ≡ r.0.now ∷ fields r.1.now) × (0 < length r.0.now)) }
    ensures shorter { IfSome result (λ r. length r.1.now < length line.now) }
{
    let mut rest = line;
    while !rest.is_empty() {
        let (field, behind) = cut_at_gap(rest);
        if !field.is_empty() {
            return Some((field, behind));
        }
        rest = behind;
    }
    None
}

/// How many fields a line has.
pub(crate) fn count(line: &[u8]) -> usize
    ensures value { result ≡ length (fields line.now) }
    ensures most { result ≤ length line.now }
{
    let mut rest = line;
    let mut n = 0usize;
    while let Some((_, more)) = next_field(rest) {
        n += 1;
        rest = more;
    }
    n
}

/// Whether each field of a line is a name.
pub(crate) fn all_names(line: &[u8]) -> bool
    ensures { result ≡ list_all is_name (fields line.now) }
{
    let mut rest = line;
    while let Some((name, more)) = next_field(rest) {
        if !is_name(name) {
            return false;
        }
        rest = more;
    }
    true
}
