//! Tries inputs by all calls that must give the same result, and compares what they give.

ghost use Rattle.std.specs.Prelude.{◌<◌};

use crate::adapter::{Adapter, Answer, Got, ok};
use crate::modules::{read, read_array, write};
use faster_hex::AdapterError;
use serde_json::Value;
use std::alloc::{Allocator, Global};
use std::convert::AsSlice;
use test_kit::seen::{Given, Seen};

/// An input, with the most bytes that may be read, and what must be read.
#[derive(Clone, Copy)]
pub struct Case<'a> {
    pub by: Adapter,
    pub max: Option<usize>,
    pub src: &'a [u8],
    pub want: Answer<'a>,
}

impl<'a> Case<'a> {
    /// Returns an input that is read.
    pub fn new(by: Adapter, max: Option<usize>, src: &'a [u8], want: Answer<'a>) -> Case<'a> {
        Case { by, max, src, want }
    }

    fn given(self) -> Given<'a> {
        let max = self.max.unwrap_or_default();
        Given::new(self.by.format.case, max, self.src)
    }
}

/// What the calls of a test gave, and their allocator.
#[derive(Drop)]
pub struct Tries {
    pub seen: Seen,
    pub alloc: Global,
}

// Returns the value of a JSON text, or of its field if `field` is not empty.
fn parsed(alloc: Global, json: &[u8], field: &str) -> Option<Value> {
    let mut whole = Value::from_str(alloc, str::from_utf8(json).ok()?).ok()?;
    if field.is_empty() {
        Some(whole)
    } else {
        Some(whole.get_mut(field)?.take())
    }
}

impl Tries {
    /// Returns the state before the first input.
    pub fn new(alloc: Global) -> Tries {
        let seen = Seen::new();
        Tries { seen, alloc }
    }

    /// Notes whether a step gave what it must.
    pub fn notes(&mut self, case: Case<'_>, step: &'static str, is_right: bool) {
        self.seen.is(case.given(), step, is_right, true);
    }

    /// Compares bytes or none.
    pub fn is<T: AsSlice<u8> + Drop>(&mut self, case: Case<'_>, call: &'static str, got: Got<T>) {
        let (is_none, wants_none) = (matches!(got, Ok(None)), matches!(case.want, Ok(None)));
        self.seen.is(case.given(), "none", is_none, wants_none);
        if let Some(got) = got.transpose() {
            let want = case.want.map(Option::unwrap_or_default);
            self.seen.gives(case.given(), call, got, want);
        }
    }

    /// Compares bytes or none. The bytes have no more capacity than they need.
    pub fn vec<A>(&mut self, case: Case<'_>, call: &'static str, got: Got<Vec<u8, A>>)
    where
        A: Allocator + Drop,
    {
        if let Ok(Some(bytes)) = &got {
            self.notes(case, "capacity", bytes.capacity() == bytes.len());
        }
        self.is(case, call, got);
    }

    /// Compares what was written: its JSON text, or the bytes that are read again if the case has a bound.
    pub fn value(&mut self, case: Case<'_>, call: &'static str, got: Result<Value, AdapterError>) {
        match got {
            Ok(value) => self.written(case, call, &value),
            Err(e) => self.is::<&[u8]>(case, call, Err(e)),
        }
    }

    // A text has no more capacity than it needs.
    fn written(&mut self, case: Case<'_>, call: &'static str, value: &Value) {
        if let Value::String(text) = value {
            self.notes(case, "capacity", text.capacity() == text.len());
        }
        if case.max.is_some() {
            read::<{ usize::MAX }>(self, case, value);
        } else if let Ok(text) = value.to_string(self.alloc) {
            self.is(case, call, Ok(Some(text.as_str().as_bytes())));
        } else {
            self.notes(case, "to_string", false);
        }
    }

    /// Returns the value that a case reads.
    pub fn parsed(&mut self, case: Case<'_>) -> Option<Value> {
        let value = parsed(self.alloc, case.src, case.by.field);
        self.notes(case, "from_str", value.is_some());
        value
    }

    /// Reads a JSON text.
    pub fn reads(&mut self, by: Adapter, json: &[u8], want: Answer<'_>) {
        self.reads_within::<{ usize::MAX }>(by, json, want);
    }

    /// Reads a JSON text within `MAX` bytes.
    pub fn reads_within<const MAX: usize>(&mut self, by: Adapter, json: &[u8], want: Answer<'_>) {
        let case = Case::new(by, Some(MAX), json, want);
        self.seen.tries();
        if let Some(value) = self.parsed(case) {
            read::<MAX>(self, case, &value);
        }
    }

    /// Reads a JSON text as an array of `N` bytes.
    pub fn reads_array<const N: usize>(&mut self, by: Adapter, json: &[u8], want: Answer<'_>)
        requires { N < 600 }
    {
        let case = Case::new(by, Some(N), json, want);
        self.seen.tries();
        if let Some(value) = self.parsed(case) {
            read_array::<N>(self, case, &value);
        }
    }

    /// Writes bytes or none as a JSON text.
    pub fn writes(&mut self, by: Adapter, src: Option<&[u8]>, json: &[u8]) {
        self.seen.tries();
        let case = Case::new(by, None, src.unwrap_or_default(), ok(json));
        write(self, case, src);
    }

    /// Writes bytes, and reads them again.
    pub fn writes_and_reads(&mut self, by: Adapter, src: &[u8]) {
        self.seen.tries();
        let case = Case::new(by, Some(usize::MAX), src, ok(src));
        write(self, case, Some(src));
    }
}
