//! `fhex` encodes standard input as hex digits, or decodes it.
#![tactic(auto)]

use hex_program::{Unretried, refuse, serve, with_words};
use std::io::{BufWriter, Stdout};
use std::process::ExitCode;

// The size of the output buffer, in bytes.
const OUTPUT_BUFFER: usize = 65_536;

// Returns standard output with a buffer. If there is no memory for the buffer, its size is 0.
fn output(rt: &HostRuntime) -> BufWriter<Unretried<Stdout>> {
    let buffered = |size: usize| {
        let inner = Unretried { inner: rt.stdout() };
        BufWriter::with_capacity(rt.alloc(), size, inner)
    };
    match buffered(OUTPUT_BUFFER) {
        Ok(out) => out,
        Err(_) => buffered(0).unwrap(),
    }
}

// Runs the program over the standard streams. Returns the exit status.
fn run(rt: &HostRuntime, words: &[&str]) -> u8 {
    let mut input = rt.stdin();
    let (status, out, _) = serve(rt.alloc(), words, &mut input, output(rt), rt.stderr());
    // Dropping the buffer would write again what a failed write has left.
    let _ = out.into_parts();
    status
}

fn main(rt: HostRuntime) -> ExitCode {
    match with_words(&rt, |words| run(&rt, words)) {
        Ok(status) => ExitCode::from(status),
        Err(failure) => ExitCode::from(refuse(rt.stderr(), failure).0),
    }
}
