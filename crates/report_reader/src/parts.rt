//! The parts of a text.
ghost use Rattle.std.specs.Prelude.{◌≡◌, ◌<◌, ◌==◌, length, map, IfOk};
ghost use Rattle.std.specs.List.{slice_split};

use bstr::ByteSlice;
use std::alloc::{AllocError, Allocator};

/// The parts between the places where this byte stands: one at least.
pub(crate) fn parts<A: Allocator>(
    alloc: A,
    text: &[u8],
    at: u8,
) -> Result<Vec<&[u8], A>, AllocError>
    ensures parts { IfOk result (λ parts. map (λ part. part.now) parts.items ≡ slice_split (λ b. b == at) text.now) }
    ensures some { IfOk result (λ parts. 0 < length parts.items) }
{
    let mut parts = Vec::new(alloc);
    let mut rest = text;
    while let Some(end) = rest.find_byte(at) {
        parts.push(&rest[..end])?;
        rest = &rest[end + 1..];
    }
    parts.push(rest)?;
    Ok(parts)
}
