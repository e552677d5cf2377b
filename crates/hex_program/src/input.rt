//! Reads the whole input before an operation runs over it.

ghost use Rattle.std.specs.Prelude.{IfOk, IfErr};
ghost use Rattle.hex_program.specs.Serving.{FailsBefore, ReadsAll, ReadsSome};

use crate::failure::Failure;
use std::alloc::Allocator;
use std::io::Read;

/// The maximum length of the input, in bytes.
pub const INPUT_LIMIT: usize = 16_777_216;

/// The number of bytes that one read asks for.
pub const READ_CHUNK: usize = 65_536;

/// Reads all of an input of at most [`INPUT_LIMIT`] bytes. A read that fails is not tried again,
/// not even after an interrupt.
///
/// # Errors
///
/// The first of these that happens:
///
/// - [`Failure::ReadFailed`] if a read failed.
/// - [`Failure::OutOfMemory`] if an allocation failed.
/// - [`Failure::InputTooLong`] if the input has more than [`INPUT_LIMIT`] bytes.
///
/// ```rust
/// let mut input: &[u8] = b"hello";
/// let bytes = read_input(rt.alloc(), &mut input)?;
/// assert_eq!(rt; bytes.as_slice(), b"hello".as_slice());
/// ```
#[inline(never)]
pub fn read_input<A: Allocator + Drop, R: Read>(
    alloc: A,
    input: &mut R,
) -> Result<Vec<u8, A>, Failure>
    ensures ok { IfOk result (λ v. ReadsAll (R.remaining input.old) (R.remaining input.new) v.items) }
    ensures err { IfErr result (λ f. ReadsSome (R.remaining input.old) (R.remaining input.new) × FailsBefore (R.remaining input.old) f) }
{
    let mut chunk = [0u8; READ_CHUNK];
    let mut all = Vec::new(alloc);
    // This capacity suffices for any input, so the bytes need not be moved. If the reservation
    // fails, the vector grows as needed.
    let _ = all.reserve_exact(INPUT_LIMIT + READ_CHUNK);
    'reads: while all.len() <= INPUT_LIMIT {
        match input.read(&mut chunk) {
            Ok(0) => return Ok(all),
            Ok(n) => {
                if all.extend_from_slice(&chunk[..n]).is_err() {
                    return Err(Failure::OutOfMemory);
                }
            }
            Err(_) => return Err(Failure::ReadFailed),
        }
    }
    Err(Failure::InputTooLong)
}
