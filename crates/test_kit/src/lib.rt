//! What all tests share: the sources of calls, what calls must give, a comparison with what they gave, a buffer to
//! write to, and a reader, a writer and an allocator that fail.
#![tactic(auto)]

pub mod destination;
pub mod fakes;
pub mod model;
pub mod refusing;
pub mod seen;
pub mod source;

use std::alloc::Global;
use std::fmt::Display;

/// Returns whether a value prints `want`, without and with flags in the format string.
pub fn prints<T: Display>(alloc: Global, value: &T, want: &[u8]) -> bool {
    match format!(in alloc; "{value}{value:*>+#90.3}") {
        Ok(twice) => twice.as_str().as_bytes().strip_prefix(want) == Some(want),
        Err(_) => false,
    }
}
