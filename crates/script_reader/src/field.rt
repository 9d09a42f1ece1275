//! The fields of a line, which spaces and tabs separate.
ghost use Rattle.std.specs.Prelude.{◌≡◌, ◌≢◌, ◌<◌, ◌↔◌, [], ◌∷◌, length, IfSome, IsTrue, MatchOption};
ghost use Rattle.script_reader.specs.Fields.{fields};

use bstr::ByteSlice;

/// A line up to its first space or tab, and what follows that.
fn cut_at_gap(line: &[u8]) -> (&[u8], &[u8])
    ensures field { 0 < length result.0.now → fields line.now ≡ result.0.now ∷ fields result.1.now }
    ensures no_field { length result.0.now ≡ 0 → fields line.now ≡ fields result.1.now }
    ensures shorter { 0 < length line.now → length result.1.now < length line.now }
{
    match line.find_byteset(b" \t") {
        Some(end) => (&line[..end], &line[end + 1..]),
        None => (line, &[]),
    }
}

/// The first field of a line, and what follows it, whose fields are the others.
#[tactic(auto, using(crate::proofs::FieldLemmas::no_bytes))]
pub(crate) fn next_field(line: &[u8]) -> Option<(&[u8], &[u8])>
    ensures fields { MatchOption result (fields line.now ≡ []) (λ r. (fields line.now ≡ r.0.now ∷ fields r.1.now) × (0 < length r.0.now)) }
    ensures shorter { IfSome result (λ r. length r.1.now < length line.now) }
{
    let mut rest = line;
    while !rest.is_empty() {
        let (field, behind) = cut_at_gap(rest);
        if !field.is_empty() {
            return Some((field, behind));
        }
        rest = behind;
    }
    None
}

/// The only field of a line.
pub(crate) fn one_field(line: &[u8]) -> Option<&[u8]>
    ensures { MatchOption result (length (fields line.now) ≢ 1) (λ field. fields line.now ≡ field.now ∷ []) }
{
    let (first, rest) = next_field(line)?;
    match next_field(rest) {
        None => Some(first),
        Some(_) => None,
    }
}

/// Whether a line has no field.
pub(crate) fn is_blank(line: &[u8]) -> bool
    ensures { IsTrue result ↔ (fields line.now ≡ []) }
{
    next_field(line).is_none()
}
