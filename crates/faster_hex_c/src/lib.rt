//! The functions that C and Rust link. They are thin wrappers around the functions of the library,
//! and they have the same guarantees. Each call of `faster_hex.h` that checks, searches or converts
//! runs the function here that has its name. The header says what a caller must ensure about pointers,
//! because nothing here can check a pointer.
#![tactic(auto)]

mod for_rust;

ghost use Rattle.std.specs.Prelude.{◌≡◌, ◌↔◌, IsTrue, None};
ghost use Rattle.hex_core.specs.declared.digit.CheckCase.TheVariants as policy;
ghost use Rattle.hex_core.specs.Search.{first_invalid};
ghost use Rattle.faster_hex_c.specs.Answers.{ChecksBy, DecodesBy, DecodesTo, EncodesTo, FindsInvalid, answer_of, policy_of};
ghost use Rattle.faster_hex_c.specs.Answers.{DecodesGrouped, DecodesSpacedBy, EncodesGrouped, group_answer_of};

use hex_codec::grouped::{read_by, write_by};
use hex_codec::spaced::decode_by;
use hex_codec::{Group, GroupFault};
use hex_core::{Backend, CheckCase, Error, Vectors, backends};

// The status codes, with the names that they have in `faster_hex.h`.
const DONE: u8 = 0;

const ODD_LENGTH: u8 = 1;

const OUTPUT_TOO_SMALL: u8 = 2;

const INVALID_CHAR: u8 = 3;

const OVERFLOW: u8 = 4;

const UNKNOWN_POLICY: u8 = 5;

const NOT_A_GROUP: u8 = 6;

const BAD_LENGTH: u8 = 7;

/// The bytes to read. C passes this struct as a pointer and a length, as it would pass a slice. But
/// a function with a slice as a parameter would first replace a null pointer. That is not needed,
/// because a null pointer has length 0, so it is never read.
#[repr(C)]
#[derive(Clone, Copy)]
pub struct Source<'a>(pub &'a [u8]);

/// The bytes to write to. C passes a pointer and a length, as for [`Source`].
#[repr(C)]
#[derive(Drop)]
pub struct Destination<'a>(pub &'a mut [u8]);

/// The result of a function that is called from C or Rust.
#[repr(C)]
#[derive(Clone, Copy, Debug, PartialEq, Eq)]
pub struct Answer {
    /// The number of bytes written if the status is 0, the number of bytes needed if it is 2, the
    /// index of the first invalid byte if it is 3, and otherwise 0.
    pub number: usize,
    /// 0 means success, 1 an odd length, 2 too little room, 3 an invalid byte, 4 a length that
    /// exceeds `usize`, 5 an unknown policy, 6 numbers that make no group, and 7 a length that no
    /// grouped text has.
    pub status: u8,
    /// The first invalid byte if the status is 3, and otherwise 0.
    pub byte: u8,
}

// Returns the policy that this number names, if there is one.
fn policy(number: u8) -> Option<CheckCase>
    ensures { result ≡ policy_of number }
{
    match number {
        0 => Some(CheckCase::None),
        1 => Some(CheckCase::Lower),
        2 => Some(CheckCase::Upper),
        _ => None,
    }
}

// The answer if a number names no policy.
const NO_POLICY: Answer = Answer {
    number: 0,
    status: UNKNOWN_POLICY,
    byte: 0,
};

// Returns the answer for a result.
fn answer_of(outcome: Result<usize, Error>) -> Answer
    ensures { result ≡ answer_of outcome }
{
    let (number, status, byte) = match outcome {
        Ok(written) => (written, DONE, 0),
        Err(Error::OddLength) => (0, ODD_LENGTH, 0),
        Err(Error::OutputTooSmall { required }) => (required, OUTPUT_TOO_SMALL, 0),
        Err(Error::InvalidChar { index, byte }) => (index, INVALID_CHAR, byte),
        // The only other error of the functions called here is `Overflow`.
        Err(_) => (0, OVERFLOW, 0),
    };
    Answer {
        number,
        status,
        byte,
    }
}

// The answer if the arguments make no group.
const NO_GROUP: Answer = Answer {
    number: 0,
    status: NOT_A_GROUP,
    byte: 0,
};

// Returns the answer for a result of decoding grouped text.
fn group_answer_of(outcome: Result<usize, GroupFault>) -> Answer
    ensures { result ≡ group_answer_of outcome }
{
    let (number, status, byte) = match outcome {
        Ok(read) => (read, DONE, 0),
        Err(GroupFault::OutputTooSmall { required }) => (required, OUTPUT_TOO_SMALL, 0),
        Err(GroupFault::InvalidByte { index, byte }) => (index, INVALID_CHAR, byte),
        Err(GroupFault::BadLength) => (0, BAD_LENGTH, 0),
    };
    Answer {
        number,
        status,
        byte,
    }
}

// Returns the number of the build. `scripts/library.awk` replaces the call of this function by the
// number of each build. The function has no contract, so its callers are proved for every number.
#[inline(never)]
fn level() -> u8 {
    2
}

// Returns the plan that all functions use. Few programs run the baseline build, so that build takes
// `scalar`, which has the least code. docs/DECISIONS.md has the other reasons.
#[inline(always)]
fn plan() -> Backend {
    let [scalar, ..] = backends();
    match level() {
        1 => scalar,
        3 => Backend::plain_for(Vectors::Of32),
        4 => Backend::plain_for(Vectors::Of64),
        5 => Backend::plain_for(Vectors::LookUp64),
        _ => Backend::plain(),
    }
}

/// Returns whether every byte of `src` is a hex digit. Letters may have either case.
#[unsafe(no_mangle)]
pub extern "C" fn faster_hex_check(src: Source) -> bool
    ensures { IsTrue result ↔ (first_invalid policy.None src.entry.0.now ≡ None) }
{
    plan().check(src.0, CheckCase::None)
}

/// Returns whether every byte of `src` is a hex digit that the policy accepts. The policy 0 accepts
/// both cases, 1 accepts lowercase, 2 accepts uppercase, and any other number accepts no source.
#[unsafe(no_mangle)]
pub extern "C" fn faster_hex_check_with_case(src: Source, case: u8) -> bool
    ensures { ChecksBy case src.entry.0.now result }
{
    match policy(case) {
        Some(case) => plan().check(src.0, case),
        None => false,
    }
}

/// Finds the first byte of `src` that the policy does not accept. The policy 0 accepts both cases,
/// 1 accepts lowercase, and 2 accepts uppercase. The status is 5 for any other policy, else 3 if a
/// byte is invalid, else 0.
#[unsafe(no_mangle)]
pub extern "C" fn faster_hex_first_invalid(src: Source, case: u8) -> Answer
    ensures { FindsInvalid case src.entry.0.now result }
{
    let Some(case) = policy(case) else {
        return NO_POLICY;
    };
    match plan().first_invalid(src.0, case) {
        None => answer_of(Ok(0)),
        Some(index) => answer_of(Err(Error::InvalidChar {
            index,
            byte: src.0[index],
        })),
    }
}

/// Encodes `src` into the start of `dst`, in uppercase if `upper` is true. The errors are status 4
/// and then 2, in the order in which they are tested. An error leaves all of `dst` unchanged.
#[unsafe(no_mangle)]
pub extern "C" fn faster_hex_encode(src: Source, dst: Destination, upper: bool) -> Answer
    ensures { EncodesTo upper src.entry.0.now dst.entry.0.now dst.exit.0.now result }
{
    answer_of(plan().encode_into(src.0, dst.0, upper))
}

/// Decodes `src` into the start of `dst`. Letters may have either case. The errors are status 1, 2
/// and then 3, in the order in which they are tested. An error leaves all of `dst` unchanged.
#[unsafe(no_mangle)]
pub extern "C" fn faster_hex_decode(src: Source, dst: Destination) -> Answer
    ensures { DecodesTo policy.None src.entry.0.now dst.entry.0.now dst.exit.0.now result }
{
    answer_of(plan().decode_into(src.0, dst.0, CheckCase::None))
}

/// Decodes `src` into the start of `dst`, if the policy accepts its digits. The policy 0 accepts
/// both cases, 1 accepts lowercase, and 2 accepts uppercase. Any other policy is an error with
/// status 5, which is tested first. The other errors are those of [`faster_hex_decode`], in the
/// same order. An error leaves all of `dst` unchanged.
#[unsafe(no_mangle)]
pub extern "C" fn faster_hex_decode_with_case(src: Source, dst: Destination, case: u8) -> Answer
    ensures { DecodesBy case src.entry.0.now dst.entry.0.now dst.exit.0.now result }
{
    match policy(case) {
        Some(case) => answer_of(plan().decode_into(src.0, dst.0, case)),
        None => NO_POLICY,
    }
}

/// Decodes `src` into the start of `dst`, if the policy accepts its digits, and skips ASCII white
/// space among them. The policies are those of [`faster_hex_decode_with_case`]. The errors are
/// status 5, 1, 2 and then 3, in the order in which they are tested. Only bytes that are not white
/// space count for status 1 and 2. An error leaves all of `dst` unchanged.
#[unsafe(no_mangle)]
pub extern "C" fn faster_hex_decode_spaced(src: Source, dst: Destination, case: u8) -> Answer
    ensures { DecodesSpacedBy case src.entry.0.now dst.entry.0.now dst.exit.0.now result }
{
    match policy(case) {
        Some(case) => answer_of(decode_by(plan(), src.0, dst.0, case)),
        None => NO_POLICY,
    }
}

/// Encodes `src` into the start of `dst` in groups of `every` bytes, with `sep` between two groups.
/// The letters are uppercase if `upper` is true. It is an error with status 6 if `every` is 0, or
/// if `sep` is not ASCII or is a hex digit. This is tested first, then the errors with status 4 and
/// 2. An error leaves all of `dst` unchanged.
#[unsafe(no_mangle)]
pub extern "C" fn faster_hex_encode_grouped(
    src: Source,
    dst: Destination,
    upper: bool,
    every: usize,
    sep: u8,
) -> Answer
    ensures { EncodesGrouped every sep upper src.entry.0.now dst.entry.0.now dst.exit.0.now result }
{
    match Group::new(every, sep) {
        Some(group) => answer_of(write_by(plan(), src.0, dst.0, group, upper)),
        None => NO_GROUP,
    }
}

/// Decodes a text of such groups into the start of `dst`, if the policy accepts its digits. The
/// policies are those of [`faster_hex_decode_with_case`]. The errors are status 5, 6, 7, 2 and then
/// 3, in the order in which they are tested. An error leaves all of `dst` unchanged.
#[unsafe(no_mangle)]
pub extern "C" fn faster_hex_decode_grouped(
    src: Source,
    dst: Destination,
    case: u8,
    every: usize,
    sep: u8,
) -> Answer
    ensures { DecodesGrouped case every sep src.entry.0.now dst.entry.0.now dst.exit.0.now result }
{
    let Some(case) = policy(case) else {
        return NO_POLICY;
    };
    match Group::new(every, sep) {
        Some(group) => group_answer_of(read_by(plan(), src.0, dst.0, group, case)),
        None => NO_GROUP,
    }
}
