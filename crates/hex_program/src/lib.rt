//! This crate has the programs `fhex` and `fhex-stream` as functions. The operations of `fhex`
//! write to any sink. Each whole program takes its arguments, an input and two outputs.
#![tactic(auto)]

pub mod arguments;
pub mod failure;
pub mod input;
pub mod operation;
pub mod program;
pub mod stream;
pub mod unretried;
pub mod vectors;

pub use crate::arguments::with_words;
pub use crate::failure::{Failure, StreamFailure};
pub use crate::input::{INPUT_LIMIT, read_input};
pub use crate::operation::{Op, RunFault, run};
pub use crate::program::{refuse, serve};
pub use crate::stream::{StreamOp, refuse_stream, serve_stream};
pub use crate::unretried::Unretried;
