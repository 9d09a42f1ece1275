//! The whole input, up to its limit.
ghost use Rattle.std.specs.Prelude.{◌≡◌, ◌+◌, ◌-◌, ◌≤◌, vec_len, IfOk, OnOk, IfSome, IsErrOf};
ghost use Rattle.lab_program.specs.Input.{ConsumesUpTo, Grows, IsTooLong};
ghost use Rattle.lab_program.specs.Faults.{read_failures};

use crate::source::Source;
use script_reader::MOST_BYTES;
use std::alloc::Allocator;

/// Why an input was not read.
#[derive(Clone, Copy, Debug, PartialEq, Eq, Drop)]
pub enum ReadFault {
    /// A read failed.
    Read,
    /// The input goes on past its limit.
    TooLong,
    /// An allocation failed.
    NoMemory,
}

/// Reads a piece of the input, empty only at the end.
fn read_piece<R: Source, A: Allocator>(
    source: &mut R,
    bytes: &mut Vec<u8, A>,
) -> Result<usize, ReadFault>
    requires { vec_len bytes.old ≤ 16777216 }
    ensures grows { IfOk result (Grows (R.left source.old) (R.left source.new) bytes.old.items bytes.new.items) }
    ensures limit { OnOk result (vec_len bytes.new ≤ 16777217) }
    ensures most { ConsumesUpTo (R.left source.old) (R.left source.new) (16777217 - vec_len bytes.old) }
    ensures count { R.failures source.new ≡ R.failures source.old + read_failures result }
    ensures short { IsErrOf result ReadFault.TooLong → ⊥ }
{
    let mut buffer = [0u8; 4096];
    let room = (MOST_BYTES + 1 - bytes.len()).min(4096);
    let Ok(n) = source.read(&mut buffer[..room]) else {
        return Err(ReadFault::Read);
    };
    if bytes.extend_from_slice(&buffer[..n]).is_err() {
        return Err(ReadFault::NoMemory);
    }
    Ok(n)
}

/// Reads to the end, or until the limit is passed; then one byte past it was read.
pub fn read_input<R: Source, A: Allocator>(
    alloc: A,
    source: &mut R,
) -> Result<Vec<u8, A>, ReadFault>
    ensures whole { IfOk result (λ v. IfSome (R.left source.old) (λ all. v.items ≡ all)) }
    ensures limit { IfOk result (λ v. vec_len v ≤ 16777216) }
    ensures long { IsErrOf result ReadFault.TooLong → IsTooLong (R.left source.old) }
    ensures most { ConsumesUpTo (R.left source.old) (R.left source.new) 16777217 }
    ensures count { R.failures source.new ≡ R.failures source.old + read_failures result }
{
    let mut bytes = Vec::new(alloc);
    while bytes.len() <= MOST_BYTES {
        if read_piece(source, &mut bytes)? == 0 {
            return Ok(bytes);
        }
    }
    Err(ReadFault::TooLong)
}
