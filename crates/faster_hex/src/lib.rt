//! Hexadecimal encoding and decoding of bytes, as a port of the Rust crate `faster-hex` 1.0.0.
//! [CALLING.md](../CALLING.md) lists the calls: for buffers, arrays, vectors and strings, and for
//! groups, white space, streams, digest lists and JSON.
//!
//! ```rust
//! let mut buffer = [0; 2];
//! hex_decode(b"aB01", &mut buffer)?;
//! assert_eq!(rt; buffer, [0xab, 1]);
//! assert_eq!(rt; hex_string(rt.alloc(), &buffer)?.as_str(), "ab01");
//! ```
//!
//! # JSON
//!
//! The modules of this table read and write bytes as the string of a JSON value. For each of them
//! there is a module for `Option`, whose name begins with `option_`. All of them accept what they
//! write.
//!
//! | Module | Prefix | Writes | Reads |
//! |---|---|---|---|
//! | [`withpfx_ignorecase`], and the root | `0x` | lowercase | either case |
//! | [`nopfx_ignorecase`] | none | lowercase | either case |
//! | [`withpfx_lowercase`] | `0x` | lowercase | lowercase |
//! | [`nopfx_lowercase`] | none | lowercase | lowercase |
//! | [`withpfx_uppercase`] | `0x` | uppercase | uppercase |
//! | [`nopfx_uppercase`] | none | uppercase | uppercase |
//!
//! ```rust
//! let value = faster_hex::serialize(rt.alloc(), &[0xab, 1])?;
//! let bytes = faster_hex::deserialize(rt.alloc(), &value)?;
//! assert_eq!(rt; bytes.as_slice(), [0xab, 1].as_slice());
//! let value = faster_hex::array::serialize(rt.alloc(), &[0xab, 1])?;
//! let bounded = faster_hex::deserialize_bounded::<2>(rt.alloc(), &value)?;
//! assert_eq!(rt; bounded.as_slice(), bytes.as_slice());
//! ```
//!
//! These are their errors, in the order in which they are tested. The modules whose names have
//! `nopfx_` do not have `InvalidPrefix`. Those for `Option` have the same errors, but reading `null`
//! and writing `None` never fail.
//!
//! | Call | Errors, of [`AdapterError`] |
//! |---|---|
//! | `serialize` | `Codec(Overflow)`, `Codec(OutOfMemory)` |
//! | `deserialize` | `NotText`, `InvalidPrefix`, `InvalidLength`, `Codec(OutOfMemory)`, `Codec(InvalidChar)` |
//! | `deserialize_bounded` | the same, and `OverBound` after `InvalidLength` |
//! | `array::deserialize` | `NotText`, `InvalidPrefix`, `InvalidLength`, `Codec(LengthMismatch)`, `Codec(InvalidChar)` |
#![tactic(auto)]

pub mod adapters;
pub mod laws;
mod modules;
mod option_modules;

pub use crate::adapters::AdapterError;
pub use crate::modules::withpfx_ignorecase::{array, deserialize, deserialize_bounded, serialize};
pub use crate::modules::{
    nopfx_ignorecase, nopfx_lowercase, nopfx_uppercase, withpfx_ignorecase, withpfx_lowercase,
    withpfx_uppercase,
};
pub use crate::option_modules::{
    option_nopfx_ignorecase, option_nopfx_lowercase, option_nopfx_uppercase,
    option_withpfx_ignorecase, option_withpfx_lowercase, option_withpfx_uppercase,
};
pub use hex_codec::{
    Group, decode, encode, grouped, heapless_08, hex_append, hex_append_into, hex_append_upper,
    hex_check, hex_check_with_case, hex_decode, hex_decode_array, hex_decode_array_with_case,
    hex_decode_into, hex_decode_spaced, hex_decode_vec, hex_decode_vec_with_case,
    hex_decode_with_case, hex_encode, hex_encode_into, hex_encode_upper, hex_string,
    hex_string_upper, spaced,
};
pub use hex_core::{
    Backend, CheckCase, Error, Probe, SliceProbe, backends, covered, digit_value, locate,
};
pub use hex_io::{
    Align, Hex, HexFlags, Sink, SinkFault, SliceSink, WriteFault, WriterSink, digests, format,
    stream,
};
