//! Calls of the JSON adapters, with what they must read and write.
#![tactic(auto)]

#[cfg(test)]
use std::process::Abort;

#[cfg(test)]
mod adapter;
#[cfg(test)]
mod examples;
#[cfg(test)]
mod memory;
#[cfg(test)]
mod modules;
#[cfg(test)]
mod reading;
#[cfg(test)]
mod tries;

// Ends a test. `text` is about the first call that gave a wrong result, and must be empty.
#[cfg(test)]
fn ends(rt: &impl Abort, text: &str) {
    assert_eq!(rt; text, "");
}
