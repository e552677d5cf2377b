//! Tests of calls, by families of inputs. A family is a loop, or a list of calls with their results. Each input is
//! tried by all calls that must give the same result.
#![tactic(auto)]

#[cfg(test)]
use std::process::Abort;

#[cfg(test)]
mod answers;
#[cfg(test)]
mod decoding;
#[cfg(test)]
mod documented;
#[cfg(test)]
mod encoding;
#[cfg(test)]
mod faults;
#[cfg(test)]
mod feeds;
#[cfg(test)]
mod grouped;
#[cfg(test)]
mod lanes;
#[cfg(test)]
mod lists;
#[cfg(test)]
mod noticed;
#[cfg(test)]
mod owned;
#[cfg(test)]
mod padded;
#[cfg(test)]
mod reading;
#[cfg(test)]
mod searching;
#[cfg(test)]
mod sinks;
#[cfg(test)]
mod sized;
#[cfg(test)]
mod slices;
#[cfg(test)]
mod spaced;
#[cfg(test)]
mod streams;
#[cfg(test)]
mod wholes;

// Ends a test. `text` is about the first call that gave a wrong result, and must be empty.
#[cfg(test)]
fn ends(rt: &impl Abort, text: &str) {
    assert_eq!(rt; text, "");
}
