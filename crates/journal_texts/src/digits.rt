//! The digits of a sum.
ghost use Rattle.std.specs.Prelude.{◌≡◌, take};
ghost use Rattle.hex.specs.Hex.{encode_lower};

use hex::encode_to_slice;

/// The first 8 bytes of a digest as hex digits.
pub(crate) fn digits_of(digest: [u8; 32]) -> [u8; 16]
    ensures { result ≡ encode_lower (take 8 digest) }
{
    let mut digits = [0u8; 16];
    let _ = encode_to_slice(&digest[..8], &mut digits);
    digits
}
