//! This crate encodes and decodes hex digits. It works on slices, arrays, vectors, strings and
//! texts of a fixed capacity. It also handles digits in groups, and decodes digits with white space.
#![tactic(auto)]

mod chunks;
pub mod decode;
pub mod encode;
mod group;
pub mod grouped;
pub mod heapless_08;
pub mod laws;
mod pieces;
pub mod spaced;
pub mod strings;

pub use crate::decode::{
    hex_check, hex_check_with_case, hex_decode, hex_decode_array, hex_decode_array_with_case,
    hex_decode_into, hex_decode_vec, hex_decode_vec_with_case, hex_decode_with_case,
};
pub use crate::encode::{
    hex_append, hex_append_into, hex_append_upper, hex_encode, hex_encode_into, hex_encode_upper,
    hex_string, hex_string_upper,
};
pub use crate::group::Group;
pub use crate::grouped::GroupFault;
pub use crate::spaced::hex_decode_spaced;
