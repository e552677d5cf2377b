//! The results of the calls of a test, compared with what they must give. The first wrong one is kept as a text.

use arrayvec::ArrayString;
use hex_core::CheckCase;
use std::convert::AsSlice;
use std::fmt::{self, Display, Write as _};

// The most bytes of a source or a result that are shown.
const SHOWN: usize = 40;

/// The arguments of a call: the name of its plan, empty if the call takes none; the policy; a number, for most calls
/// the room of the destination; and the source.
#[derive(Clone, Copy)]
pub struct Given<'a> {
    pub plan: &'static str,
    pub case: CheckCase,
    pub number: usize,
    pub src: &'a [u8],
}

impl<'a> Given<'a> {
    /// Returns the arguments of a call that takes no plan.
    pub fn new(case: CheckCase, number: usize, src: &'a [u8]) -> Given<'a> {
        Given {
            plan: "",
            case,
            number,
            src,
        }
    }

    /// Returns these arguments for a call of a plan.
    pub fn by(self, plan: &'static str) -> Given<'a> {
        Given { plan, ..self }
    }

    /// Returns whether the policy is that of uppercase digits.
    pub fn is_upper(self) -> bool {
        self.case == CheckCase::Upper
    }
}

// The arguments as a text about a call shows them: plan, policy, number and source.
impl Display for Given<'_> {
    fn fmt<W: fmt::Write>(&self, f: &mut fmt::Formatter<W>) -> fmt::Result {
        let policy = match self.case {
            CheckCase::None => "any",
            CheckCase::Lower => "lower",
            CheckCase::Upper => "upper",
        };
        write!(f, "{} {policy} {}, ", self.plan, self.number)?;
        write!(f, "{}", Digits(self.src))
    }
}

/// Shows bytes: the digits of the first 40, and how many bytes there are.
#[derive(Clone, Copy)]
pub struct Digits<'a>(pub &'a [u8]);

impl Display for Digits<'_> {
    fn fmt<W: fmt::Write>(&self, f: &mut fmt::Formatter<W>) -> fmt::Result {
        for i in 0..self.0.len().min(SHOWN) {
            write!(f, "{:02x}", self.0[i])?;
        }
        write!(f, " ({} bytes)", self.0.len())
    }
}

/// The number of inputs that a test tried, and a text about the first call that gave a wrong result.
#[derive(Drop)]
pub struct Seen {
    tried: usize,
    text: ArrayString<1_000>,
}

impl Seen {
    /// Returns the state before the first input.
    pub fn new() -> Seen {
        Seen {
            tried: 0,
            text: ArrayString::new(),
        }
    }

    /// Counts an input.
    pub fn tries(&mut self) {
        self.tried = self.tried.saturating_add(1);
    }

    /// Returns the text about the first call that gave a wrong result. It is empty if there was none and `tried` inputs
    /// were tried.
    pub fn ended(&mut self, tried: usize) -> &str {
        if self.text.is_empty() && self.tried != tried {
            let _ = write!(
                self.text,
                "{} inputs, and not {tried}, were tried",
                self.tried
            )
            .is_ok();
        }
        self.text.as_str()
    }

    /// Compares what a call gave with what it must give: bytes, or an error.
    pub fn gives<G: Display + Drop, T: AsSlice<u8> + Drop, E: Display + PartialEq + Drop>(
        &mut self,
        given: G,
        call: &'static str,
        got: Result<T, E>,
        want: Result<&[u8], E>,
    ) -> bool {
        match (&got, &want) {
            (Ok(got), Ok(want)) if got.as_slice() == *want => return true,
            (Err(got), Err(want)) if got == want => return true,
            _ => {}
        }
        if self.begin(given, call) {
            self.put_result(want);
            let _ = self.text.try_push_str(", came ").is_ok();
            self.put_result(got);
        }
        false
    }

    /// Compares the number of bytes that a call wrote with those that it must write.
    pub fn counts<G: Display + Drop, E: Display + PartialEq + Drop>(
        &mut self,
        given: G,
        call: &'static str,
        got: Result<usize, E>,
        want: Result<&[u8], E>,
    ) -> bool {
        match (&got, &want) {
            (Ok(count), Ok(bytes)) => self.is(given, call, *count, bytes.len()),
            (Err(got), Err(want)) if got == want => true,
            (Ok(count), Err(want)) => self.differs(given, call, count, want),
            (Err(got), _) => self.differs(given, call, got, "a number of bytes or another error"),
        }
    }

    /// Compares a value that a call gave with the one that it must give.
    pub fn is<G: Display + Drop, T: Display + PartialEq + Drop>(
        &mut self,
        given: G,
        call: &'static str,
        got: T,
        want: T,
    ) -> bool {
        got == want || self.differs(given, call, got, want)
    }

    /// Compares the place that a call found, if any, with the one that it must find.
    pub fn finds<G: Display + Drop>(
        &mut self,
        given: G,
        call: &'static str,
        got: Option<usize>,
        want: Option<usize>,
    ) -> bool {
        let none = usize::MAX;
        got == want || self.differs(given, call, got.unwrap_or(none), want.unwrap_or(none))
    }

    // Writes the text about a call and its two results, unless there is one about an earlier call. Returns false.
    fn differs<G: Display + Drop, T: Display + Drop, U: Display + Drop>(
        &mut self,
        given: G,
        call: &'static str,
        got: T,
        want: U,
    ) -> bool {
        if self.begin(given, call) {
            let _ = write!(self.text, "{want}, came {got}").is_ok();
        }
        false
    }

    // Begins the text about a call and returns true, unless there is one about an earlier call.
    fn begin<G: Display + Drop>(&mut self, given: G, call: &'static str) -> bool {
        let is_first = self.text.is_empty();
        if is_first {
            let _ = write!(self.text, "{call} {given}: wanted ").is_ok();
        }
        is_first
    }

    fn put_result<T: AsSlice<u8> + Drop, E: Display + Drop>(&mut self, gave: Result<T, E>) {
        let _ = match gave {
            Ok(bytes) => write!(self.text, "{}", Digits(bytes.as_slice())).is_ok(),
            Err(error) => write!(self.text, "{error}").is_ok(),
        };
    }
}
