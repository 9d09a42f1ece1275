//! From which line of a text a line of its script came.
ghost use Rattle.std.specs.Prelude.{◌≡◌};
ghost use Rattle.bench_texts.specs.Texts.{origin as origin_of};

use crate::form::{Place, form_of};
use crate::texts::is_for_bench;
use bstr::ByteSlice;

/// The number of the line of a text from which a line of its script came. What is behind the script's end came from behind the text's.
pub fn origin(text: &[u8], number: usize) -> usize
    ensures { result ≡ origin_of text.now number }
{
    if !is_for_bench(text) {
        return number;
    }
    let mut place = Place::Head;
    let mut left = number;
    let mut at = 1usize;
    for line in text.lines_with_terminator() {
        let form = form_of(line);
        let count = place.line_count(&form);
        if left <= count {
            return at;
        }
        left -= count;
        at += 1;
        place = place.behind(&form);
    }
    at
}
