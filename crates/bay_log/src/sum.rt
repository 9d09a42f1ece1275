//! The sums of lines.
ghost use Rattle.std.specs.Prelude.{◌≡◌, take, []};
ghost use Rattle.bay_log.specs.Lines.{body, sum_of, line_text, Fits};

use crate::body::body;
use crate::digits::digits_of_sum;
use crate::line::Line;
use arrayvec::ArrayVec;
use sha2::{Digest, Sha256};

/// The first 8 bytes of a digest.
fn front_of(digest: [u8; 32]) -> [u8; 8]
    ensures { result ≡ take 8 digest }
{
    let mut sum = [0u8; 8];
    sum.copy_from_slice(&digest[..8]);
    sum
}

/// The sum of a line with these words.
#[tactic(auto, unfolding(crate::specs::Lines::sum_of))]
pub(crate) fn sum_of(before: [u8; 8], words: &[u8]) -> [u8; 8]
    ensures { result ≡ sum_of before words.now }
{
    let mut hasher = Sha256::new();
    hasher.update(before);
    hasher.update(words);
    front_of(hasher.finalize())
}

/// Adds a line, from the sum of the line before it. Answers its own sum.
#[tactic(auto, unfolding(crate::specs::Lines::line_words))]
pub(crate) fn put_line(text: &mut ArrayVec<u8, 540>, before: [u8; 8], line: &Line) -> [u8; 8]
    requires { text.old.items ≡ [] }
    ensures text { text.new.items ≡ line_text before line.now }
    ensures sum { result ≡ sum_of before (body line.now) }
    ensures fits { Fits line.now }
{
    let words = body(line);
    let sum = sum_of(before, &words);
    let _ = text.try_extend_from_slice(&digits_of_sum(sum));
    let _ = text.try_extend_from_slice(b" ");
    let _ = text.try_extend_from_slice(&words);
    let _ = text.try_extend_from_slice(b"\n");
    sum
}
