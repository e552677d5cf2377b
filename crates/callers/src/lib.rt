//! Examples of code that uses `faster_hex`, written as a user would write them. Each function is
//! proved.
#![tactic(auto)]

pub mod buffers;
pub mod checksum;
pub mod chunks;
pub mod digest;
pub mod digest_lists;
pub mod dump;
pub mod groups;
pub mod json;
pub mod probes;
pub mod texts;
pub mod undump;
