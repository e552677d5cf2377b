//! This crate has sinks, a view of bytes that prints them as padded hex digits, functions that
//! encode and decode from a reader into a sink, and digest lists as programs such as `sha256sum`
//! print and check them.
#![tactic(auto)]

pub mod digests;
mod digits;
pub mod format;
pub mod laws;
mod lines;
mod padding;
mod sink;
pub mod stream;

pub use crate::format::{
    Align, Hex, HexFlags, Sink, SinkFault, SliceSink, WriteFault, WriterSink, put_all,
};
