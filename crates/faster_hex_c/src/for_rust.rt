//! Functions that only our Rust crate links. Its `hex_check_with_case` calls a function of its own for
//! each policy. If the policy were a parameter, the numbers that belong to it would be read from tables.

ghost use Rattle.std.specs.Prelude.{◌≡◌, ◌↔◌, IsTrue, None};
ghost use Rattle.hex_core.specs.declared.digit.CheckCase.TheVariants as policy;
ghost use Rattle.hex_core.specs.Search.{first_invalid};

use crate::{Source, plan};
use hex_core::CheckCase;

/// Returns whether every byte of `src` is a hex digit. Letters must be lowercase.
#[unsafe(no_mangle)]
pub extern "C" fn faster_hex_check_lower(src: Source) -> bool
    ensures { IsTrue result ↔ (first_invalid policy.Lower src.entry.0.now ≡ None) }
{
    plan().check(src.0, CheckCase::Lower)
}

/// Returns whether every byte of `src` is a hex digit. Letters must be uppercase.
#[unsafe(no_mangle)]
pub extern "C" fn faster_hex_check_upper(src: Source) -> bool
    ensures { IsTrue result ↔ (first_invalid policy.Upper src.entry.0.now ≡ None) }
{
    plan().check(src.0, CheckCase::Upper)
}
