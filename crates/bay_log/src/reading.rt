//! What is read of a file.
ghost use Rattle.std.specs.Prelude.{◌≡◌, ◌++◌, codes, IfOk, IfErr, IfSome};
ghost use Rattle.std.specs.Str.{bytes_eq};
ghost use Rattle.hex.specs.Hex.{encode_lower};
ghost use Rattle.std.specs.List.{position};
ghost use Rattle.bay_log.specs.declared.reading.Fault.TheVariants.{Memory};
ghost use Rattle.bay_log.specs.Lines.{Fits, is_head, is_none};
ghost use Rattle.bay_log.specs.Bodies.{is_line_feed, next_of};
ghost use Rattle.bay_log.specs.Reads.{IsRead, IsWhyNotRead};

use crate::digits::digits_of_sum;
use crate::fields::line_of;
use crate::line::Line;
use crate::sum::sum_of;
use std::alloc::{AllocError, AllocFailed, Global};

/// The lines of a file.
#[derive(Drop)]
pub struct Found {
    /// Its whole lines, in order.
    pub lines: Vec<Line, Global>,
    /// How many bytes they take.
    pub used: usize,
    /// The sum of the last one.
    pub sum: [u8; 8],
}

/// Why a file isn't read.
#[derive(Clone, Copy, PartialEq, Eq, Debug)]
pub enum Fault {
    /// There is no memory.
    Memory,
    /// This line, counted from 1, isn't one: none of a journal, not in its place, or changed.
    Wrong(usize),
}

impl From<AllocError> for Fault {
    ghost from_gives = { λ _ e. e ≡ Memory };

    fn from(_e: AllocError) -> Fault {
        Fault::Memory
    }
}

impl<T: Drop> From<AllocFailed<T>> for Fault {
    ghost from_gives = { λ _ e. e ≡ Memory };

    fn from(_e: AllocFailed<T>) -> Fault {
        Fault::Memory
    }
}

/// The place of the first line feed.
fn line_end(bytes: &[u8]) -> Option<usize>
    ensures { result ≡ position is_line_feed bytes.now }
{
    bytes.iter().position(|byte| *byte == b'\n')
}

/// Whether the line is the head of a file.
fn is_head(line: &Line) -> bool
    ensures { result ≡ is_head line.now }
{
    matches!(line, Line::Head { .. })
}

/// The digits of a sum, and a blank.
fn sum_words(sum: [u8; 8]) -> [u8; 17]
    ensures { result ≡ encode_lower sum ++ codes " " }
{
    let mut words = [b' '; 17];
    words[..16].copy_from_slice(&digits_of_sum(sum));
    words
}

/// Whether a line begins with this sum.
fn has_sum(front: &[u8], sum: [u8; 8]) -> bool
    ensures { result ≡ bytes_eq front.now (encode_lower sum ++ codes " ") }
{
    front == sum_words(sum).as_slice()
}

/// The line that has these words, behind one with this sum, and its own sum.
#[tactic(auto, unfolding(crate::specs::Bodies::next_of))]
fn next_of(
    alloc: Global,
    before: [u8; 8],
    first: bool,
    words: &[u8],
) -> Result<Option<(Line, [u8; 8])>, AllocError>
    ensures of { IfOk result (λ found. found ≡ next_of before first words.now) }
    ensures fits { IfOk result (λ found. IfSome found (λ next. Fits next.0)) }
{
    if words.len() < 17 {
        return Ok(None);
    }
    let (front, body) = words.split_at(17);
    let sum = sum_of(before, body);
    if !has_sum(front, sum) {
        return Ok(None);
    }
    let Some(line) = line_of(alloc, body)? else {
        return Ok(None);
    };
    if is_head(&line) != first {
        return Ok(None);
    }
    Ok(Some((line, sum)))
}

/// The whole lines of a file: what stands behind the last line feed is passed over. A file has no more lines than bytes.
pub fn read(alloc: Global, bytes: &[u8]) -> Result<Found, Fault>
    ensures lines { IfOk result (λ found. IsRead bytes.now found) }
    ensures fault { IfErr result (λ e. IsWhyNotRead bytes.now e) }
{
    let mut lines = Vec::new(alloc);
    let mut used = 0;
    let mut sum = [0u8; 8];
    while let Some(end) = line_end(&bytes[used..]) {
        let words = &bytes[used..used + end];
        let Some(next) = next_of(alloc, sum, lines.is_empty(), words)? else {
            return Err(Fault::Wrong(lines.len() + 1));
        };
        let (line, own) = next;
        lines.push(line)?;
        sum = own;
        used += end + 1;
    }
    Ok(Found { lines, used, sum })
}
