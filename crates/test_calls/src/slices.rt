//! The calls on slices, with each plan and without one. Methods named `encode`, `decode` or `check` are given the
//! result that each call must give. `encodes`, `decodes` and `checks` compute it.

use hex_codec::{
    hex_check, hex_check_with_case, hex_decode, hex_decode_into, hex_decode_with_case, hex_encode,
    hex_encode_into, hex_encode_upper,
};
use hex_core::{Backend, CheckCase, Error, Vectors, backends};
use test_kit::destination::Destination;
use test_kit::model::{decoded, encoded, first_invalid};
use test_kit::seen::{Given, Seen};
use test_kit::source::placed;

/// The policies.
pub const POLICIES: [CheckCase; 3] = [CheckCase::None, CheckCase::Lower, CheckCase::Upper];

// The longest source or result.
const LONGEST: usize = 8_200;

/// Returns the named plans, and those of the builds.
pub fn plans() -> [Backend; 9] {
    let [scalar, sse41, avx2, avx512, neon] = backends();
    [
        scalar,
        sse41,
        avx2,
        avx512,
        neon,
        Backend::plain(),
        Backend::plain_for(Vectors::Of32),
        Backend::plain_for(Vectors::Of64),
        Backend::plain_for(Vectors::LookUp64),
    ]
}

/// The error of an invalid byte.
pub fn invalid<'a>(index: usize, byte: u8) -> Result<&'a [u8], Error> {
    Err(Error::InvalidChar { index, byte })
}

/// The error of a destination that is too small.
pub fn too_small<'a>(required: usize) -> Result<&'a [u8], Error> {
    Err(Error::OutputTooSmall { required })
}

/// The destination of the calls of a test, and what they gave.
#[derive(Drop)]
pub struct Slices {
    pub seen: Seen,
    pub to: Destination,
}

impl Slices {
    /// Returns the state before the first call.
    pub fn new() -> Slices {
        Slices {
            seen: Seen::new(),
            to: Destination::new(),
        }
    }

    /// Returns the text about the first call that gave a wrong result. It is empty if there was none and `tried` inputs
    /// were tried.
    pub fn ended(&mut self, tried: usize) -> &str {
        self.seen.ended(tried)
    }

    // Tries the two calls of a plan that decode.
    fn plan_decodes(&mut self, plan: Backend, given: Given<'_>, want: Result<&[u8], Error>) {
        let Given {
            case,
            number,
            src,
            ..
        } = given;
        let got = plan.decode_slice(src, self.to.lend(number), case);
        self.seen.gives(given, "decode_slice", got, want);
        self.to.is_left(&mut self.seen, given, "decode_slice", want);
        let got = plan.decode_into(src, self.to.lend(number), case);
        self.seen.counts(given, "decode_into", got, want);
        self.to.is_left(&mut self.seen, given, "decode_into", want);
    }

    /// Tries each call that decodes.
    pub fn are_decoded(&mut self, given: Given<'_>, want: Result<&[u8], Error>) {
        for plan in plans() {
            self.plan_decodes(plan, given.by(plan.name()), want);
        }
        self.are_decoded_without_plan(given, want);
    }

    /// Tries each call that decodes and takes no plan.
    pub fn are_decoded_without_plan(&mut self, given: Given<'_>, want: Result<&[u8], Error>) {
        let Given {
            case,
            number,
            src,
            ..
        } = given;
        let got = hex_decode_with_case(src, self.to.lend(number), case);
        self.seen.gives(given, "hex_decode_with_case", got, want);
        self.to
            .is_left(&mut self.seen, given, "hex_decode_with_case", want);
        let got = hex_decode_into(src, self.to.lend(number), case);
        self.seen.counts(given, "hex_decode_into", got, want);
        self.to
            .is_left(&mut self.seen, given, "hex_decode_into", want);
        if case == CheckCase::None {
            let got = hex_decode(src, self.to.lend(number));
            self.seen.gives(given, "hex_decode", got, want);
            self.to.is_left(&mut self.seen, given, "hex_decode", want);
        }
    }

    /// Tries each decoding call with `room` bytes of room. Each must give `want`.
    pub fn decode(&mut self, case: CheckCase, room: usize, src: &[u8], want: Result<&[u8], Error>) {
        self.seen.tries();
        self.are_decoded(Given::new(case, room, src), want);
    }

    /// Does the same as `decode`, and computes what the calls must give.
    pub fn decodes(&mut self, case: CheckCase, room: usize, src: &[u8]) {
        let mut bytes = [0; LONGEST / 2];
        self.decode(case, room, src, decoded(src, case, room, &mut bytes));
    }

    /// Does the same as `decodes`, with a source `from` bytes into a buffer and a destination moved by `shift` bytes,
    /// both modulo 32.
    pub fn decodes_at(
        &mut self,
        from: usize,
        shift: usize,
        case: CheckCase,
        room: usize,
        src: &[u8],
    ) {
        self.seen.tries();
        let (mut buffer, mut bytes) = ([0; LONGEST], [0; LONGEST / 2]);
        let src = placed(src, from % 32, &mut buffer);
        self.to.shift = shift % 32;
        self.are_decoded(
            Given::new(case, room, src),
            decoded(src, case, room, &mut bytes),
        );
    }

    // Tries the two calls of a plan that encode.
    fn plan_encodes(&mut self, plan: Backend, given: Given<'_>, want: Result<&[u8], Error>) {
        let (src, room, is_upper) = (given.src, given.number, given.is_upper());
        let got = plan.encode_slice(src, self.to.lend(room), is_upper);
        self.seen.gives(given, "encode_slice", got, want);
        self.to.is_left(&mut self.seen, given, "encode_slice", want);
        let got = plan.encode_into(src, self.to.lend(room), is_upper);
        self.seen.counts(given, "encode_into", got, want);
        self.to.is_left(&mut self.seen, given, "encode_into", want);
    }

    /// Tries each call that encodes.
    pub fn are_encoded(&mut self, given: Given<'_>, want: Result<&[u8], Error>) {
        let Given { number, src, .. } = given;
        for plan in plans() {
            self.plan_encodes(plan, given.by(plan.name()), want);
        }
        let got = if given.is_upper() {
            hex_encode_upper(src, self.to.lend(number))
        } else {
            hex_encode(src, self.to.lend(number))
        };
        self.seen.gives(given, "hex_encode", got, want);
        self.to.is_left(&mut self.seen, given, "hex_encode", want);
        let got = hex_encode_into(src, self.to.lend(number), given.is_upper());
        self.seen.counts(given, "hex_encode_into", got, want);
        self.to
            .is_left(&mut self.seen, given, "hex_encode_into", want);
    }

    /// Tries each encoding call with `room` bytes of room. Each must give `want`. The policy `Upper` stands for
    /// uppercase digits, and any other for lowercase ones.
    pub fn encode(&mut self, case: CheckCase, room: usize, src: &[u8], want: Result<&[u8], Error>) {
        self.seen.tries();
        self.are_encoded(Given::new(case, room, src), want);
    }

    /// Does the same as `encode`, and computes what the calls must give.
    pub fn encodes(&mut self, case: CheckCase, room: usize, src: &[u8]) {
        let mut text = [0; LONGEST];
        self.encode(
            case,
            room,
            src,
            encoded(src, case == CheckCase::Upper, room, &mut text),
        );
    }

    /// Tries each call that checks digits. Each must give `want`.
    pub fn check(&mut self, case: CheckCase, src: &[u8], want: bool) {
        self.seen.tries();
        let given = Given::new(case, 0, src);
        for plan in plans() {
            self.seen.is(given.by(plan.name()), "check", plan.check(src, case), want);
        }
        self.seen.is(
            given,
            "hex_check_with_case",
            hex_check_with_case(src, case),
            want,
        );
        if case == CheckCase::None {
            self.seen.is(given, "hex_check", hex_check(src), want);
        }
    }

    /// Does the same as `check`, and computes what the calls must give.
    pub fn checks(&mut self, case: CheckCase, src: &[u8]) {
        self.check(case, src, first_invalid(src, case).is_none());
    }
}
