//! One line of a text, on the stack.
ghost use Rattle.std.specs.Prelude.{◌≡◌, ◌+◌, ◌≤◌, ◌++◌, [], length, decimal};
ghost use Rattle.lab_plan.specs.Texts.{verb_text};

use itoa::write_digits;
use lab_plan::Verb;
use std::marker::Model;

/// One line of a text: at most `N` bytes, and no memory.
#[derive(Drop)]
pub struct Line<const N: usize> {
    /// The line is the first `len` of these bytes.
    bytes: [u8; N],
    len: usize,
}

impl<const N: usize> Model for Line<N> {
    ghost use Rattle.std.specs.Prelude.{List, ℕ, ◌≤◌, take};

    ghost Value = { List ℕ };

    ghost view = { λ l. take l.len l.bytes };

    ghost invariant = { λ l. l.len ≤ N };
}

/// How many digits the number has.
fn digits_of(number: u64) -> usize
    ensures { result ≡ length (decimal number) }
{
    let mut count = 1;
    let mut rest = number;
    while rest >= 10 {
        rest /= 10;
        count += 1;
    }
    count
}

impl<const N: usize> Line<N> {
    /// An empty line.
    pub fn new() -> Line<N>
        ensures { result ≡ [] }
    {
        Line {
            bytes: [0; N],
            len: 0,
        }
    }

    /// The line as it is.
    pub fn as_bytes(&self) -> &[u8]
        ensures { result.now ≡ self.now }
    {
        let bytes = &self.bytes[..];
        &bytes[..self.len]
    }

    /// Makes the line empty.
    pub fn clear(&mut self)
        ensures { self.new ≡ [] }
    {
        self.len = 0;
    }

    /// Adds a text.
    pub fn text(&mut self, text: &[u8])
        requires { length self.old + length text.now ≤ N }
        ensures text { self.new ≡ self.old ++ text.now }
        ensures len { length self.new ≡ length self.old + length text.now }
    {
        let end = self.len + text.len();
        let bytes = &mut self.bytes[..];
        bytes[self.len..end].copy_from_slice(text);
        self.len = end;
    }

    /// Adds a number in decimal.
    fn digits(&mut self, number: u64)
        requires { length self.old + length (decimal number) ≤ N }
        ensures { self.new ≡ self.old ++ decimal number }
    {
        let end = self.len + digits_of(number);
        let _ = write_digits(number, &mut self.bytes, end);
        self.len = end;
    }

    /// Adds a number in decimal, at most 10 digits.
    pub fn number(&mut self, number: u32)
        requires { length self.old + 10 ≤ N }
        ensures text { self.new ≡ self.old ++ decimal number }
        ensures len { length self.new ≤ length self.old + 10 }
    {
        self.digits(u64::from(number));
    }

    /// Adds a count in decimal, at most 20 digits.
    pub fn count(&mut self, count: usize)
        requires { length self.old + 20 ≤ N }
        ensures text { self.new ≡ self.old ++ decimal count }
        ensures len { length self.new ≤ length self.old + 20 }
    {
        self.digits(count as u64);
    }

    /// Adds a verb with its number, at most 14 bytes.
    pub fn verb(&mut self, verb: Verb)
        requires { length self.old + 14 ≤ N }
        ensures text { self.new ≡ self.old ++ verb_text verb }
        ensures len { length self.new ≤ length self.old + 14 }
    {
        match verb {
            Verb::Set(number) => {
                self.text(b"set ");
                self.number(number);
            }
            Verb::Add(number) => {
                self.text(b"add ");
                self.number(number);
            }
            Verb::Read => self.text(b"read"),
        }
    }
}
