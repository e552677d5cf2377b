//! A probe as a user might write it, and a search with it. Each function is proved.

ghost use Rattle.std.specs.Prelude.{◌≡◌};
ghost use Rattle.hex_core.specs.Search.{first_invalid, steps};

use faster_hex::{CheckCase, Probe, hex_check_with_case, locate};
use hex_core::laws::the_first_invalid_byte_is_the_first;

// A sector of a disk, which counts how it is read.
#[derive(Drop)]
struct Sector {
    bytes: [u8; 512],
    case: CheckCase,
    looks: usize,
    tests: usize,
}

impl Probe for Sector {
    ghost state = { λ p. record { source = p.bytes; policy = p.case; block = 64; looks = p.looks; tests = p.tests } };

    fn len(&self) -> usize {
        self.bytes.len()
    }

    fn case(&self) -> CheckCase {
        self.case
    }

    fn block(&self) -> usize {
        64
    }

    fn looks(&self) -> usize {
        self.looks
    }

    fn tests(&self) -> usize {
        self.tests
    }

    fn look(&mut self, i: usize) -> u8 {
        self.looks += 1;
        self.bytes[i]
    }

    fn test(&mut self, start: usize, width: usize) -> bool {
        the_first_invalid_byte_is_the_first();
        self.tests += 1;
        hex_check_with_case(&self.bytes[start..start + width], self.case)
    }
}

/// What a search has found, and its steps.
#[derive(Clone, Copy, Debug, PartialEq, Eq)]
pub struct Found {
    /// The index of the first invalid byte, or `None` if all bytes are valid.
    pub place: Option<usize>,
    /// The number of blocks tested.
    pub tests: usize,
    /// The number of single bytes looked at.
    pub looks: usize,
}

/// Finds the first invalid byte in a sector, and counts the steps.
///
/// ```rust
/// let mut bytes = [b'0'; 512];
/// bytes[66] = b'g';
/// let found = find_in_sector(bytes, CheckCase::None);
/// assert_eq!(rt; found.place, Some(66));
/// assert_eq!(rt; (found.tests, found.looks), (2, 3));
/// ```
pub fn find_in_sector(bytes: [u8; 512], case: CheckCase) -> Found
    ensures place { result.place ≡ first_invalid case bytes }
    ensures tests { result.tests ≡ (steps case bytes).tests }
    ensures looks { result.looks ≡ (steps case bytes).looks }
{
    let mut sector = Sector {
        bytes,
        case,
        looks: 0,
        tests: 0,
    };
    let place = locate(&mut sector);
    Found {
        place,
        tests: sector.tests(),
        looks: sector.looks(),
    }
}
