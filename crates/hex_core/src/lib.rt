//! This crate is the base of `faster_hex`. It has the values of hex digits, the error type, the
//! search for the first invalid byte, and the plans. A plan is one implementation of the functions
//! that check, decode and encode.
#![tactic(auto)]

mod backend;
mod check;
mod decode;
pub mod digit;
mod digit_lanes;
mod encode;
pub mod error;
mod lane_probe;
pub mod lanes;
pub mod laws;
pub mod look_ups;
mod maps;
mod plain;
mod rows;
mod search;
mod slice_probe;
mod slices;
mod tables;
mod vector;
mod widths;

pub use crate::backend::{Backend, backends};
pub use crate::digit::{CheckCase, digit_value};
pub use crate::error::Error;
pub use crate::plain::Vectors;
pub use crate::search::{Probe, covered, locate};
pub use crate::slice_probe::SliceProbe;

/// The plans, and the search by a probe. All of these are also at the root.
///
/// ```rust
/// use hex_core::plan::{SliceProbe, backends, locate};
///
/// let [scalar, ..] = backends();
/// let mut probe = SliceProbe::new(scalar, b"00ff0g", CheckCase::None);
/// assert_eq!(rt; locate(&mut probe), Some(5));
/// ```
pub mod plan {
    pub use crate::backend::{Backend, backends};
    pub use crate::search::{Probe, covered, locate};
    pub use crate::slice_probe::SliceProbe;
}
