//! Tests of `hex_program`, and of writers that fail. A test has lists of calls or loops, and counts its inputs.
#![tactic(auto)]

#[cfg(test)]
use std::process::Abort;

// Calls a method once for each list of arguments.
#[cfg(test)]
macro_rules! calls {
    ($tested:ident.$method:ident: $($($argument:expr),+;)*) => {
        $($tested.$method($($argument),+);)*
    };
}

#[cfg(test)]
mod failures;
#[cfg(test)]
mod lengths;
#[cfg(test)]
mod long;
#[cfg(test)]
mod operations;
#[cfg(test)]
mod run;
#[cfg(test)]
mod streams;
#[cfg(test)]
mod vectors;
#[cfg(test)]
mod words;
#[cfg(test)]
mod writers;

// Ends a test. `text` is about the first call that gave a wrong result, and must be empty.
#[cfg(test)]
fn ends(rt: &impl Abort, text: &str) {
    assert_eq!(rt; text, "");
}
