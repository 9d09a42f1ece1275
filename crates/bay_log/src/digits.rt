//! Numbers as hex digits.
ghost use Rattle.std.specs.Prelude.{◌≡◌, length};
ghost use Rattle.std.specs.Int.{w32, w64};
ghost use Rattle.hex.specs.Hex.{encode_lower};
ghost use Rattle.bay_log.specs.Digits.{digits, digits_of_128, number_of, IsHash};
ghost use Rattle.bay_log.specs.Bodies.{number_of_128, hash_of};

use hex::{decode_to_slice, encode_to_slice};

/// The digits of a number of 32 bits.
#[tactic(auto, unfolding(crate::specs::Digits::digits))]
pub(crate) fn digits_32(number: u32) -> [u8; 8]
    ensures { result ≡ digits w32 number }
{
    let mut digits = [0u8; 8];
    let _ = encode_to_slice(number.to_be_bytes(), &mut digits);
    digits
}

/// The digits of a number of 64 bits.
#[tactic(auto, unfolding(crate::specs::Digits::digits))]
pub(crate) fn digits_64(number: u64) -> [u8; 16]
    ensures { result ≡ digits w64 number }
{
    let mut digits = [0u8; 16];
    let _ = encode_to_slice(number.to_be_bytes(), &mut digits);
    digits
}

/// The digits of a number of 128 bits.
pub(crate) fn digits_128(number: u128) -> [u8; 32]
    ensures { result ≡ digits_of_128 number }
{
    let high = (number / 18446744073709551616) as u64;
    let low = (number % 18446744073709551616) as u64;
    let mut digits = [0u8; 32];
    let (front, back) = digits.split_at_mut(16);
    front.copy_from_slice(&digits_64(high));
    back.copy_from_slice(&digits_64(low));
    digits
}

/// The digits of the hash of a bay.
pub(crate) fn digits_of_hash(hash: [u8; 32]) -> [u8; 64]
    ensures digits { result ≡ encode_lower hash }
    ensures hash { IsHash hash }
{
    let mut digits = [0u8; 64];
    let _ = encode_to_slice(hash, &mut digits);
    digits
}

/// The digits of a sum.
pub(crate) fn digits_of_sum(sum: [u8; 8]) -> [u8; 16]
    ensures { result ≡ encode_lower sum }
{
    let mut digits = [0u8; 16];
    let _ = encode_to_slice(sum, &mut digits);
    digits
}

/// The number of 32 bits that has these digits.
#[tactic(auto, unfolding(crate::specs::Digits::number_of))]
pub(crate) fn number_32(text: &[u8]) -> Option<u32>
    ensures { result ≡ number_of w32 text.now }
{
    let mut bytes = [0u8; 4];
    match decode_to_slice(text, &mut bytes) {
        Ok(()) => Some(u32::from_be_bytes(bytes)),
        Err(_) => None,
    }
}

/// The number of 64 bits that has these digits.
#[tactic(auto, unfolding(crate::specs::Digits::number_of))]
pub(crate) fn number_64(text: &[u8]) -> Option<u64>
    ensures { result ≡ number_of w64 text.now }
{
    let mut bytes = [0u8; 8];
    match decode_to_slice(text, &mut bytes) {
        Ok(()) => Some(u64::from_be_bytes(bytes)),
        Err(_) => None,
    }
}

/// The number of 128 bits that has these digits.
#[tactic(auto, unfolding(crate::specs::Bodies::number_of_128))]
pub(crate) fn number_128(text: &[u8]) -> Option<u128>
    requires { length text.now ≡ 32 }
    ensures { result ≡ number_of_128 text.now }
{
    let high = number_64(&text[0..16])?;
    let low = number_64(&text[16..32])?;
    Some(high as u128 * 18446744073709551616 + low as u128)
}

/// The hash that has these digits.
#[tactic(auto, unfolding(crate::specs::Bodies::hash_of))]
pub(crate) fn hash_of(text: &[u8]) -> Option<[u8; 32]>
    ensures { result ≡ hash_of text.now }
{
    let mut bytes = [0u8; 32];
    match decode_to_slice(text, &mut bytes) {
        Ok(()) => Some(bytes),
        Err(_) => None,
    }
}
