//! The whole lines of a text.
ghost use Rattle.journal_texts.specs.Lines.{AreWholeLines};

/// How many bytes there are up to behind the last line feed: none if there is no line feed.
pub fn whole_lines(bytes: &[u8]) -> usize
    ensures { AreWholeLines bytes.now result }
{
    let mut n = bytes.len();
    while n > 0 && bytes[n - 1] != b'\n' {
        n -= 1;
    }
    n
}
