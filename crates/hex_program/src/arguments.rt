//! The arguments of both programs.

ghost use Rattle.std.specs.Prelude.{◌≡◌, ◌⊎◌, IfErr, IfOk};
ghost use Rattle.hex_program.specs.declared.failure.Failure.TheVariants.{NotUtf8, OutOfMemory, ReadFailed};

use crate::failure::Failure;
use std::alloc::AllocError;
use std::env::{self, Env};
use std::io::ErrorKind;

/// Calls `program` with the arguments of the process, without the program's name. Returns the exit
/// status that `program` returns.
///
/// # Errors
///
/// `program` is not called.
///
/// - [`Failure::OutOfMemory`] if an allocation failed.
/// - [`Failure::NotUtf8`] if an argument is not UTF-8.
/// - [`Failure::ReadFailed`] if the system does not give an argument.
///
/// ```rust
/// let status = with_words(&rt, |words| u8::from(words.is_empty()))?;
/// assert!(rt; status <= 1);
/// ```
pub fn with_words<R: Env + Alloc, F: FnOnce(&[&str]) -> u8>(
    rt: &R,
    program: F,
) -> Result<u8, Failure>
    requires { F.IsAlwaysCallable program }
    ensures ok { IfOk result (λ status. (words : _) × F.post program words status) }
    ensures err { IfErr result (λ failure. (failure ≡ ReadFailed) ⊎ ((failure ≡ OutOfMemory) ⊎ (failure ≡ NotUtf8))) }
{
    let arguments = match env::args(rt) {
        Ok(arguments) => arguments,
        Err(e) if e.kind() == ErrorKind::OutOfMemory => return Err(Failure::OutOfMemory),
        Err(e) if e.kind() == ErrorKind::InvalidData => return Err(Failure::NotUtf8),
        Err(_) => return Err(Failure::ReadFailed),
    };
    let words: Result<Vec<String<R::A>, R::A>, AllocError> = arguments.skip(1).collect(rt.alloc());
    let words = words.map_err(|_| Failure::OutOfMemory)?;
    let texts: Result<Vec<&str, R::A>, AllocError> = words
        .iter()
        .map(|word| word.as_str())
        .collect(rt.alloc());
    let texts = texts.map_err(|_| Failure::OutOfMemory)?;
    Ok(program(texts.as_slice()))
}
