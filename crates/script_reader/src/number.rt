//! Numbers as they are spelled in a script.
ghost use Rattle.std.specs.Prelude.{◌≡◌, ◌≤◌, true};
ghost use Rattle.std.specs.List.{list_all};
ghost use Rattle.lab_plan.specs.Limits.{largest_number};
ghost use Rattle.lab_plan.specs.Names.{is_digit};
ghost use Rattle.script_reader.specs.Number.{is_number, number_of};

use lab_plan::is_digit;

fn are_digits(bytes: &[u8]) -> bool
    ensures { result ≡ list_all is_digit bytes.now }
{
    bytes.iter().all(|byte| is_digit(*byte))
}

/// Whether the bytes spell a number from 0 to the largest, without leading zeros.
pub(crate) fn is_number(bytes: &[u8]) -> bool
    ensures { result ≡ is_number bytes.now }
{
    if bytes.is_empty() || bytes.len() > 6 {
        return false;
    }
    if !are_digits(bytes) {
        return false;
    }
    bytes[0] != b'0' || bytes.len() == 1
}

/// The number that the bytes spell.
pub(crate) fn number_of(bytes: &[u8]) -> u32
    requires { is_number bytes.now ≡ true }
    ensures number { result ≡ number_of bytes.now }
    ensures small { result ≤ largest_number }
{
    let mut number = 0u32;
    for byte in bytes {
        number = 10 * number + (*byte - b'0') as u32;
    }
    number
}
