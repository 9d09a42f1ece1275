//! Names of jobs and instruments.
ghost use Rattle.std.specs.Prelude.{◌≡◌, IfOk};
ghost use Rattle.std.specs.List.{list_all};
ghost use Rattle.std.specs.Str.{bytes_eq};
ghost use Rattle.lab_plan.specs.Names.{is_letter, is_digit, is_name_byte, is_reserved, is_name};

use std::alloc::{AllocError, Allocator, Global};
use std::marker::Model;

/// The name of a job or an instrument, as its bytes.
#[derive(Drop)]
pub(crate) struct Name<A: Allocator = Global> {
    bytes: Vec<u8, A>,
}

impl<A: Allocator> Model for Name<A> {
    ghost use Rattle.std.specs.Prelude.{List, ℕ};

    ghost Value = { List ℕ };

    ghost view = { λ n. n.bytes.items };
}

impl<A: Allocator> Name<A> {
    pub(crate) fn new(alloc: A, bytes: &[u8]) -> Result<Name<A>, AllocError>
        ensures { IfOk result (λ n. n ≡ bytes.now) }
    {
        Ok(Name {
            bytes: Vec::from_slice(alloc, bytes)?,
        })
    }

    pub(crate) fn is(&self, bytes: &[u8]) -> bool
        ensures { result ≡ bytes_eq bytes.now self.now }
    {
        is_same_name(bytes, &self.bytes)
    }

    pub(crate) fn as_bytes(&self) -> &[u8]
        ensures { result.now ≡ self.now }
    {
        &self.bytes
    }
}

/// Whether both are one name. Their ends are compared first: names that share a beginning mostly differ there.
pub fn is_same_name(a: &[u8], b: &[u8]) -> bool
    ensures { result ≡ bytes_eq a.now b.now }
{
    a.len() == b.len() && a.last() == b.last() && a == b
}

fn is_letter(byte: u8) -> bool
    ensures { result ≡ is_letter byte }
{
    b'a' <= byte && byte <= b'z'
}

/// Whether the byte is a digit, from `0` to `9`.
pub fn is_digit(byte: u8) -> bool
    ensures { result ≡ is_digit byte }
{
    b'0' <= byte && byte <= b'9'
}

fn is_name_byte(byte: u8) -> bool
    ensures { result ≡ is_name_byte byte }
{
    is_letter(byte) || is_digit(byte) || byte == b'-'
}

fn are_name_bytes(bytes: &[u8]) -> bool
    ensures { result ≡ list_all is_name_byte bytes.now }
{
    bytes.iter().all(|byte| is_name_byte(*byte))
}

#[tactic(auto, unfolding(crate::specs::Names::is_reserved))]
fn is_reserved(bytes: &[u8]) -> bool
    ensures { result ≡ is_reserved bytes.now }
{
    is_same_name(bytes, b"lab")
        || is_same_name(bytes, b"job")
        || is_same_name(bytes, b"session")
        || is_same_name(bytes, b"end")
        || is_same_name(bytes, b"steps")
        || is_same_name(bytes, b"patience")
}

/// Whether the bytes may name a job or an instrument: 1 to 16 bytes, a lowercase letter, then
/// lowercase letters, digits and `-`, and none of the six words of the other lines of a
/// script (`lab`, `job`, `session`, `end`, `steps`, `patience`).
pub fn is_name(bytes: &[u8]) -> bool
    ensures { result ≡ is_name bytes.now }
{
    if bytes.is_empty() || bytes.len() > 16 {
        return false;
    }
    if !is_letter(bytes[0]) {
        return false;
    }
    if !are_name_bytes(bytes) {
        return false;
    }
    !is_reserved(bytes)
}
