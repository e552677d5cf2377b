//! The calls of the adapters, of their modules, and of the root.

ghost use Rattle.std.specs.Prelude.{◌<◌};

use crate::tries::{Case, Tries};
use faster_hex::*;
use serde_json::Value;
use std::alloc::Allocator;

// Compares what a module gives for the first call, or for the second one if it is an optional module. The root has the
// calls of `withpfx_ignorecase`.
macro_rules! module {
    ($tries:ident.$see:ident, $case:ident, $module:ident, ($($call:tt)*)) => {
        $tries.$see($case, stringify!($module::$($call)*), $module::$($call)*)
    };
    ($tries:ident.$see:ident, $case:ident, $plain:tt, $option:tt) => {{
        let (is_optional, format) = ($case.by.is_optional, $case.by.format);
        if !is_optional && format == adapters::WireFormat::WITHPFX_IGNORECASE {
            module!($tries.$see, $case, faster_hex, $plain);
        }
        match (is_optional, format.prefixed, format.case) {
            (false, true, CheckCase::None) => module!($tries.$see, $case, withpfx_ignorecase, $plain),
            (false, true, CheckCase::Lower) => module!($tries.$see, $case, withpfx_lowercase, $plain),
            (false, true, CheckCase::Upper) => module!($tries.$see, $case, withpfx_uppercase, $plain),
            (false, false, CheckCase::None) => module!($tries.$see, $case, nopfx_ignorecase, $plain),
            (false, false, CheckCase::Lower) => module!($tries.$see, $case, nopfx_lowercase, $plain),
            (false, false, CheckCase::Upper) => module!($tries.$see, $case, nopfx_uppercase, $plain),
            (true, true, CheckCase::None) => module!($tries.$see, $case, option_withpfx_ignorecase, $option),
            (true, true, CheckCase::Lower) => module!($tries.$see, $case, option_withpfx_lowercase, $option),
            (true, true, CheckCase::Upper) => module!($tries.$see, $case, option_withpfx_uppercase, $option),
            (true, false, CheckCase::None) => module!($tries.$see, $case, option_nopfx_ignorecase, $option),
            (true, false, CheckCase::Lower) => module!($tries.$see, $case, option_nopfx_lowercase, $option),
            (true, false, CheckCase::Upper) => module!($tries.$see, $case, option_nopfx_uppercase, $option),
        }
    }};
}

/// Reads a value by the adapters alone.
pub fn read_by<A: Allocator + Drop>(tries: &mut Tries, case: Case<'_>, alloc: A, value: &Value) {
    let (format, max) = (case.by.format, case.max);
    if case.by.is_optional {
        module! { tries.vec, case, adapters, (read_option(alloc, format, max, value)) }
    } else {
        module! { tries.vec, case, adapters, (read(alloc, format, max, value).map(Some)) }
    }
}

/// Reads a value within `MAX` bytes, and also by the calls without a bound if `MAX` is the greatest number.
pub fn read<const MAX: usize>(tries: &mut Tries, case: Case<'_>, value: &Value) {
    let alloc = tries.alloc;
    if MAX == usize::MAX {
        module! { tries.vec, case, (deserialize(alloc, value).map(Some)), (deserialize(alloc, value)) }
        read_by(tries, Case { max: None, ..case }, alloc, value);
    }
    module! {
        tries.vec, case,
        (deserialize_bounded::<MAX>(alloc, value).map(Some)), (deserialize_bounded::<MAX>(alloc, value))
    }
    read_by(tries, case, alloc, value);
}

/// Reads a value as an array of `N` bytes.
pub fn read_array<const N: usize>(tries: &mut Tries, case: Case<'_>, value: &Value)
    requires { N < 600 }
{
    let format = case.by.format;
    module! {
        tries.is, case,
        (array::deserialize::<N>(value).map(Some)), (array::deserialize::<N>(value))
    }
    if case.by.is_optional {
        module! { tries.is, case, adapters, (read_option_array::<N>(format, value)) }
    } else {
        module! { tries.is, case, adapters, (read_array::<N>(format, value).map(Some)) }
    }
}

/// Writes bytes, or none if the adapters are optional. Only formats that read what they write have modules.
pub fn write(tries: &mut Tries, case: Case<'_>, src: Option<&[u8]>) {
    let (alloc, format) = (tries.alloc, case.by.format);
    let bytes = src.unwrap_or_default();
    if format.upper == (format.case == CheckCase::Upper) {
        module! { tries.value, case, (serialize(alloc, bytes)), (serialize(alloc, src)) }
        module! { tries.value, case, (array::serialize(alloc, bytes)), (array::serialize(alloc, src)) }
    }
    if case.by.is_optional {
        module! { tries.value, case, adapters, (write_option(alloc, format, src)) }
    } else {
        module! { tries.value, case, adapters, (write(alloc, format, bytes)) }
    }
}
