//! The destination of a call, between bytes that the call must not write.

use crate::seen::{Given, Seen};

// Each byte of a destination before a call. It is no digit.
const FILL: u8 = 0xa5;

// How many bytes guard each side of a destination.
const GUARD: usize = 64;

const WHOLE: usize = 12_500;

/// Some bytes of a larger buffer, which is filled before each call.
#[derive(Drop)]
pub struct Destination {
    whole: [u8; WHOLE],
    // The bytes of `whole` after it is filled.
    filled: [u8; WHOLE],
    room: usize,
    /// How many bytes precede the destination, besides the guard.
    pub shift: usize,
}

impl Destination {
    /// Returns a buffer.
    pub fn new() -> Destination {
        Destination {
            whole: [FILL; WHOLE],
            filled: [FILL; WHOLE],
            room: 0,
            shift: 0,
        }
    }

    // Returns where the destination begins.
    fn start(&self) -> usize {
        self.shift.saturating_add(GUARD)
    }

    /// Fills the buffer, and lends `room` bytes of it, or none if it has fewer.
    pub fn lend(&mut self, room: usize) -> &mut [u8] {
        let start = self.start();
        let end = start.saturating_add(room);
        self.room = room;
        let whole = self.whole.get_mut(..end.saturating_add(GUARD));
        let whole = whole.unwrap_or_default();
        whole.fill(FILL);
        whole.get_mut(start..end).unwrap_or_default()
    }

    // Returns whether the bytes that were lent begin with `front`, and all other bytes are as they were filled.
    fn holds(&self, front: &[u8]) -> bool {
        let behind = self.room.saturating_add(GUARD);
        let whole = self.whole.split_at_checked(self.start());
        let (before, rest) = whole.unwrap_or_default();
        let rest = rest.get(..behind).unwrap_or_default();
        let kept = rest.get(front.len()..).unwrap_or_default();
        let is_kept = !kept.is_empty() && self.is_filled(before) && self.is_filled(kept);
        is_kept && rest.starts_with(front)
    }

    fn is_filled(&self, bytes: &[u8]) -> bool {
        self.filled.get(..bytes.len()) == Some(bytes)
    }

    /// Compares what a call wrote with what it must write, which is nothing if it fails.
    pub fn is_left<E: Drop>(
        &self,
        seen: &mut Seen,
        given: Given<'_>,
        call: &'static str,
        want: Result<&[u8], E>,
    ) -> bool {
        let front = want.unwrap_or_default();
        seen.is(given, call, self.holds(front), true)
    }
}
