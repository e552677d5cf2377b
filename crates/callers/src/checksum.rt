//! A hasher that is a sink, and the checksum of the bytes that the digits of a reader spell. Each
//! function is proved.

ghost use Rattle.std.specs.Prelude.{◌≡◌, ◌++◌, ◌∷◌, ℕ, List, None, Ok, Some, [], length};
ghost use Rattle.callers.specs.Checksums.{Sums, checksum};

use faster_hex::stream::{StreamFault, decode_spaced_stream};
use faster_hex::{CheckCase, Sink, SinkFault};
use std::io::Read;
use std::marker::Model;
use std::mem;
use std::snapshot::Snapshot;

// A list of bytes, as its last byte and a snapshot of the bytes before it. A snapshot takes no
// memory. Only contracts see its value.
#[derive(Drop)]
#[cycle(log)]
struct Log {
    before: Option<Snapshot<Log>>,
    last: u8,
}

impl Model for Log {
    ghost use Rattle.std.specs.Prelude.{◌++◌, ◌∷◌, ℕ, List, [], length, option_map};
    ghost use Rattle.std.specs.Option.{unwrap_or};
    ghost use Rattle.std.proofs.Common.{arith, length-append};

    ghost Value = { List ℕ };

    ghost view = { λ log. unwrap_or (option_map (λ before. before.value ++ log.last ∷ []) log.before) [] };

    ghost size = { length };

    ghost size_decreases = { λ log smaller. Prim.grind (arith, length-append) };
}

// Returns a snapshot of an empty list.
fn nothing() -> Snapshot<Log>
    ensures { result.value ≡ [] }
{
    Snapshot::of(&Log {
        before: None,
        last: 0,
    })
}

// Returns a snapshot of a list with one more byte.
fn and_then(before: Snapshot<Log>, last: u8) -> Snapshot<Log>
    ensures { result.value ≡ before.value ++ last ∷ [] }
{
    Snapshot::of(&Log {
        before: Some(before),
        last,
    })
}

/// A hasher that computes the checksum FNV-1a. Contracts see it as the list of the bytes that it
/// has taken. It does not store these bytes.
#[derive(Drop)]
pub struct Hasher {
    sum: u64,
    taken: Snapshot<Log>,
}

impl Model for Hasher {
    ghost Value = { List ℕ };

    ghost view = { λ hasher. hasher.taken.value };

    ghost invariant = { λ hasher. hasher.sum ≡ checksum hasher.taken.value };
}

impl Hasher {
    /// Returns a hasher that has taken nothing.
    pub fn new() -> Hasher
        ensures { result ≡ [] }
    {
        Hasher {
            sum: 0xcbf2_9ce4_8422_2325,
            taken: nothing(),
        }
    }

    /// Returns the checksum of the bytes that it has taken.
    pub fn sum(&self) -> u64
        ensures { result ≡ checksum self.now }
    {
        self.sum
    }

    // Takes a byte.
    fn push(&mut self, byte: u8)
        ensures { self.new ≡ self.old ++ byte ∷ [] }
    {
        self.sum = (self.sum ^ u64::from(byte)).wrapping_mul(0x0100_0000_01b3);
        let before = mem::replace(&mut self.taken, nothing());
        self.taken = and_then(before, byte);
    }
}

impl Sink for Hasher {
    ghost state = { λ taken. record { taken = Some taken; failures = 0; free = None; loan = None } };

    fn failures(&self) -> u64 {
        0
    }

    fn put(&mut self, piece: &[u8]) -> Result<usize, SinkFault>
        ensures all { result ≡ Ok (length piece.now) }
        ensures taken { self.new ≡ self.old ++ piece.now }
    {
        for byte in piece {
            self.push(*byte);
        }
        Ok(piece.len())
    }
}

/// Returns the checksum of the bytes that the digits of a reader spell. White space among the
/// digits is skipped.
///
/// # Errors
///
/// The errors are those of [`decode_spaced_stream`], except for [`StreamFault::Write`], because the
/// hasher takes every piece.
///
/// ```rust
/// let mut input: &[u8] = b"66 6f\n6F62 6172\n";
/// assert_eq!(rt; sum_of(&mut input), Ok(0x8594_4171_f739_67e8));
/// ```
pub fn sum_of<R: Read>(reader: &mut R) -> Result<u64, StreamFault>
    ensures { Sums (R.remaining reader.old) (R.remaining reader.new) result }
{
    let mut hasher = Hasher::new();
    decode_spaced_stream(reader, &mut hasher, CheckCase::None)?;
    Ok(hasher.sum())
}
