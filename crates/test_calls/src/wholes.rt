//! The calls into destinations that are exactly as long as the result, and the search for the first invalid byte.

use crate::slices::{Slices, plans};
use hex_core::{Backend, CheckCase};
use test_kit::model::{decode_pairs, encoded, first_invalid};
use test_kit::seen::Given;
use test_kit::source::{first, placed};

// The longest source.
const LONGEST: usize = 8_300;

// How many digits `decode_owned` tests and decodes at a time by each plan; 0 if it tests all digits first.
const OWNED_BLOCKS: [usize; 9] = [0, 0, 64, 128, 64, 128, 128, 128, 128];

// Returns how many bytes a plan with blocks of `block` digits has stored if the first invalid byte is at a place.
fn stored_before(place: usize, block: usize) -> usize {
    place.checked_div(block).unwrap_or(0).saturating_mul(block) / 2
}

impl Slices {
    // Tries `decode`, or `decode_owned` if `is_owned` is true, with a source of even length. The call must leave the
    // bytes `left` in its destination.
    fn is_decoded(&mut self, plan: Backend, given: Given<'_>, is_owned: bool, left: &[u8]) {
        let Given { case, src, .. } = given;
        let dst = self.to.lend(src.len() / 2);
        if src.len() % 2 == 1 || dst.len() != src.len() / 2 {
            // A source of odd length is skipped. With any other source the buffer was too short, which is an error.
            self.seen.is(given, "lend", src.len() % 2, 1);
            return;
        }
        let is_decoded = if is_owned {
            plan.decode_owned(src, dst, case)
        } else {
            plan.decode(src, dst, case)
        };
        let call = if is_owned { "decode_owned" } else { "decode" };
        self.seen.is(given, call, is_decoded, first_invalid(src, case).is_none());
        self.to
            .is_left(&mut self.seen, given, call, Ok::<_, u8>(left));
    }

    // Tries `decode_valid`, if the plan takes the source for valid. The call must leave the bytes `left`.
    fn is_valid(&mut self, plan: Backend, given: Given<'_>, left: &[u8]) {
        let Given { case, src, .. } = given;
        let dst = self.to.lend(src.len() / 2);
        if plan.check(src, case) && src.len() % 2 == 0 && dst.len() == src.len() / 2 {
            plan.decode_valid(src, dst, case);
            self.to
                .is_left(&mut self.seen, given, "decode_valid", Ok::<_, u8>(left));
        }
    }

    /// Tries each call of a plan that checks, searches or, if its length is even, decodes a whole source.
    pub fn are_read(&mut self, case: CheckCase, src: &[u8]) {
        let mut bytes = [0; LONGEST / 2];
        let place = first_invalid(src, case);
        let bytes = decode_pairs(first(src, place.unwrap_or(src.len())), &mut bytes);
        for (plan, block) in plans().into_iter().zip(OWNED_BLOCKS) {
            let given = Given::new(case, block, src).by(plan.name());
            self.seen
                .is(given, "check", plan.check(src, case), place.is_none());
            self.seen.finds(given, "first_invalid", plan.first_invalid(src, case), place);
            let (decoded, stored) = match place {
                Some(place) => (0, stored_before(place, block)),
                None => (bytes.len(), bytes.len()),
            };
            self.is_decoded(plan, given, false, first(bytes, decoded));
            self.is_decoded(plan, given, true, first(bytes, stored));
            self.is_valid(plan, given, bytes);
        }
    }

    /// Does the same as `are_read`, and counts the source as an input.
    pub fn reads(&mut self, case: CheckCase, src: &[u8]) {
        self.seen.tries();
        self.are_read(case, src);
    }

    // Tries each call that writes the text of some bytes.
    fn are_written(&mut self, given: Given<'_>, text: &[u8]) {
        for plan in plans() {
            let given = given.by(plan.name());
            let dst = self.to.lend(text.len());
            if given.src.len() != dst.len() / 2 || dst.len() % 2 == 1 {
                self.seen.is(given, "lend", false, true);
                return;
            }
            plan.encode(given.src, dst, given.is_upper());
            self.to
                .is_left(&mut self.seen, given, "encode", Ok::<_, u8>(text));
        }
        self.are_encoded(given, Ok(text));
    }

    /// Encodes bytes, which must give `text`, and decodes them again, by all calls and into exactly the room needed.
    /// The bytes are `from` bytes into a buffer, and the digits `shift` bytes into another one.
    pub fn goes_round(
        &mut self,
        case: CheckCase,
        bytes: &[u8],
        text: &[u8],
        from: usize,
        shift: usize,
    ) {
        self.seen.tries();
        let (mut source, mut digits) = ([0; LONGEST], [0; LONGEST]);
        let (bytes, text) = (
            placed(bytes, from, &mut source),
            placed(text, shift, &mut digits),
        );
        self.to.shift = shift;
        self.are_written(Given::new(case, text.len(), bytes), text);
        self.to.shift = from;
        for case in [case, CheckCase::None] {
            self.are_read(case, text);
            self.are_decoded(Given::new(case, bytes.len(), text), Ok(bytes));
        }
    }

    /// Does the same as `goes_round`, and computes the text.
    pub fn goes_round_at(&mut self, case: CheckCase, bytes: &[u8], from: usize, shift: usize) {
        let mut text = [0; LONGEST];
        let text = encoded(bytes, case == CheckCase::Upper, LONGEST, &mut text);
        self.goes_round(case, bytes, text.unwrap_or_default(), from, shift);
    }
}
