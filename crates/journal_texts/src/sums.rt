//! The sums of a journal.
ghost use Rattle.std.specs.Prelude.{◌≡◌, ℕ, ◌+◌, ◌^◌, ◌<◌, List, [], true, length};
ghost use Rattle.sha2.specs.Sha256.{sha256};
ghost use Rattle.script_reader.specs.Script.{text_lines};
ghost use Rattle.journal_texts.specs.Sums.{is_begin, is_sum, is_wrong, wrong_from, wrong_sum};

use crate::digits::digits_of;
use bstr::ByteSlice;
use sha2::{Digest, Sha256};

/// Whether a text begins behind the line.
fn is_begin(line: &[u8]) -> bool
    ensures { result ≡ is_begin line.now }
{
    line == b"#steps".as_slice()
}

/// Whether the line is a sum.
fn is_sum(line: &[u8]) -> bool
    ensures { result ≡ is_sum line.now }
{
    line.len() >= 5 && &line[..5] == b"#sum ".as_slice()
}

/// Whether a sum isn't that of the text with this digest.
fn is_other(digest: [u8; 32], line: &[u8]) -> bool
    requires { is_sum line.now ≡ true }
    ensures { (text : List ℕ) → digest ≡ sha256 text → result ≡ is_wrong text line.now }
{
    let digits = digits_of(digest);
    &line[5..] != digits.as_slice()
}

/// The number of the first wrong sum of lines of which the first has this number.
fn wrong_from(text: &[u8], first: usize) -> Option<usize>
    requires { first + length (text_lines text.now) < 2 ^ 64 }
    ensures { result ≡ wrong_from first [] (text_lines text.now) }
{
    let mut hasher = Sha256::new();
    let mut number = first;
    for line in text.lines() {
        if is_sum(line) {
            if is_other(hasher.finalize(), line) {
                return Some(number);
            }
            hasher = Sha256::new();
        } else if is_begin(line) {
            hasher = Sha256::new();
        } else {
            hasher.update(line);
            hasher.update(b"\n");
        }
        number += 1;
    }
    None
}

/// The number of the line of the first sum that is wrong, behind the line `steps`.
pub fn wrong_sum(text: &[u8]) -> Option<usize>
    ensures { result ≡ wrong_sum text.now }
{
    let mut lines = text.lines();
    let mut number = 1usize;
    while let Some(line) = lines.next() {
        number += 1;
        if line == b"steps".as_slice() {
            return wrong_from(lines.as_bytes(), number);
        }
    }
    None
}
