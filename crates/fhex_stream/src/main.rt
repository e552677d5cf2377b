//! `fhex-stream` encodes standard input of any length as hex digits, in one line or in lines of 60,
//! or decodes it.
#![tactic(auto)]

use hex_program::{refuse_stream, serve_stream, with_words};
use std::process::ExitCode;

// Runs the program over the standard streams. Returns the exit status.
fn run(rt: &HostRuntime, words: &[&str]) -> u8 {
    let mut input = rt.stdin();
    let (status, _, _) = serve_stream(words, &mut input, rt.stdout(), rt.stderr());
    status
}

fn main(rt: HostRuntime) -> ExitCode {
    match with_words(&rt, |words| run(&rt, words)) {
        Ok(status) => ExitCode::from(status),
        Err(failure) => ExitCode::from(refuse_stream(rt.stderr(), failure).0),
    }
}
