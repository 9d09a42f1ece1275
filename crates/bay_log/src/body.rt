//! The words of a line, and the line that has these words.
ghost use Rattle.std.specs.Prelude.{◌≡◌, ◌+◌, ◌≤◌, ◌++◌, length, IfOk, if◌then◌else◌, Some, None};
ghost use Rattle.std.specs.Str.{bytes_eq};
ghost use Rattle.arrayvec.specs.ArrayVec.{array_vec_len};
ghost use Rattle.bay_log.specs.Lines.{body, entry_text, how_text, limit_text, Fits, EntryFits};

use crate::digits::{digits_32, digits_64, digits_128, digits_of_hash};
use crate::how::How;
use crate::line::{Entry, Line};
use arrayvec::ArrayVec;

/// The words of a line: at most 522 bytes, and no memory.
pub(crate) type Words = ArrayVec<u8, 522>;

/// Adds a text.
fn put(out: &mut Words, text: &[u8])
    requires { array_vec_len out.old + length text.now ≤ 522 }
    ensures text { out.new.items ≡ out.old.items ++ text.now }
    ensures len { array_vec_len out.new ≡ array_vec_len out.old + length text.now }
{
    let _ = out.try_extend_from_slice(text);
}

/// The word for how it ended.
fn text_of(how: How) -> &'static [u8]
    ensures word { result.now ≡ how_text how }
    ensures short { length result.now ≤ 11 }
{
    match how {
        How::LetGo => b"let_go",
        How::Left => b"left",
        How::Lapsed => b"lapsed",
        How::NotWritten => b"not_written",
        How::Limit => b"limit",
        How::Grace => b"grace",
        How::TakenAway => b"taken_away",
        How::Replaced => b"replaced",
        How::Stopped => b"stopped",
    }
}

/// The digits of a limit, or dashes.
fn limit_text(limit: Option<u64>) -> [u8; 16]
    ensures { result ≡ limit_text limit }
{
    match limit {
        None => *b"----------------",
        Some(limit) => digits_64(limit),
    }
}

/// Adds what an ask holds.
#[tactic(auto, unfolding(crate::specs::Lines::entry_text))]
fn put_entry(out: &mut Words, entry: Entry)
    requires { array_vec_len out.old ≤ 100 }
    ensures text { out.new.items ≡ out.old.items ++ entry_text entry }
    ensures len { array_vec_len out.new ≡ array_vec_len out.old + 126 }
    ensures fits { EntryFits entry }
{
    put(out, &digits_32(entry.class));
    put(out, b" ");
    put(out, &digits_64(entry.needs));
    put(out, b" ");
    put(out, &digits_128(entry.owner));
    put(out, b" ");
    put(out, &digits_64(entry.since));
    put(out, b" ");
    put(out, &limit_text(entry.limit));
    put(out, b" ");
    put(out, &digits_64(entry.asked));
    put(out, b" ");
    put(out, &digits_64(entry.token));
}

/// The words of a line.
#[tactic(auto, unfolding(crate::specs::Lines::body))]
pub(crate) fn body(line: &Line) -> Words
    ensures text { result.items ≡ body line.now }
    ensures fits { Fits line.now }
    ensures short { array_vec_len result ≤ 522 }
{
    let mut out = Words::new();
    match line {
        Line::Head {
            bay,
            base,
            next,
            granted,
        } => {
            put(&mut out, b"bay ");
            put(&mut out, &digits_of_hash(*bay));
            put(&mut out, b" ");
            put(&mut out, &digits_64(*base));
            put(&mut out, b" ");
            put(&mut out, &digits_64(*next));
            put(&mut out, b" ");
            put(&mut out, &digits_64(*granted));
        }
        Line::Hold { ask, entry } => {
            put(&mut out, b"hold ");
            put(&mut out, &digits_64(*ask));
            put(&mut out, b" ");
            put_entry(&mut out, *entry);
        }
        Line::Back { from, to } => {
            put(&mut out, b"back ");
            put(&mut out, &digits_64(*from));
            put(&mut out, b" ");
            put(&mut out, &digits_64(*to));
        }
        Line::End { ask, how, at } => {
            put(&mut out, b"end ");
            put(&mut out, &digits_64(*ask));
            put(&mut out, b" ");
            put(&mut out, text_of(*how));
            put(&mut out, b" ");
            put(&mut out, &digits_64(*at));
        }
        Line::Note { ask, text } => {
            put(&mut out, b"note ");
            put(&mut out, &digits_64(*ask));
            put(&mut out, b" ");
            put(&mut out, text.as_bytes());
        }
    }
    out
}
