//! Numbers as a report spells them.
ghost use Rattle.std.specs.Prelude.{◌≡◌};
ghost use Rattle.report_reader.specs.Number.{number_of};

use itoa::Buffer;

/// The number below 2^32 that is written so: without a sign, and without leading zeros.
pub(crate) fn number_of(word: &[u8]) -> Option<u32>
    ensures { result ≡ number_of word.now }
{
    let Ok(text) = str::from_utf8(word) else {
        return None;
    };
    let Ok(number) = text.parse::<u32>() else {
        return None;
    };
    if Buffer::new().format(number).as_bytes() == word {
        Some(number)
    } else {
        None
    }
}
