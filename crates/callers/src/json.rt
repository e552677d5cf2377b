//! Functions that use the JSON modules. Each is proved.

ghost use Rattle.std.specs.Prelude.{◌≡◌, ◌≤◌, ℕ, List, None, Some, Ok, IfOk, IsFalse, IsTrue, codes, length, option_map, MatchResult, vec_items};
ghost use Rattle.serde_json.specs.Data.{Data, string};
ghost use Rattle.serde_json.specs.Find.{get};
ghost use Rattle.serde_json.specs.View.{view};
ghost use Rattle.hex_core.specs.declared.error.Error.TheVariants as codec;
ghost use Rattle.faster_hex.specs.declared.adapters.AdapterError.TheVariants as adapter;
ghost use Rattle.faster_hex.specs.Adapters.{AnswersRead, Reads, WriteFailure, WritesOption, array_read_refusal, wire_text};
ghost use Rattle.faster_hex.specs.WireFormats as wire;
ghost use Rattle.callers.specs.Records.{AnswersField};

use faster_hex::laws::{
    a_bound_refuses_what_is_longer_alone, an_optional_array_has_its_length,
    none_and_an_empty_list_stay_apart, strict_writing_inverts_reading,
};
use faster_hex::{
    AdapterError, array, nopfx_ignorecase, nopfx_lowercase, option_nopfx_lowercase,
    option_nopfx_uppercase,
};
use serde_json::Value;
use std::alloc::Global;

/// Returns the identifier of a record, which is four bytes after `0x` in its field `id`, or `None`
/// if it has no such field. Allocates nothing. If the field holds an identifier, the result is that
/// identifier.
///
/// ```rust
/// use serde_json::Value;
///
/// let record = Value::from_str(rt.alloc(), r#"{"id": "0xDEADbeef"}"#)?;
/// assert_eq!(rt; record_id(&record), Ok(Some([0xde, 0xad, 0xbe, 0xef])));
/// ```
pub fn record_id(fields: &Value) -> Result<Option<[u8; 4]>, AdapterError>
    ensures answer { AnswersField (get (codes "id") (view fields.now)) result }
    ensures only { (field : Data) → (id : List ℕ) → get (codes "id") (view fields.now) ≡ Some field
        → Reads wire.withpfx_ignorecase None field id → length id ≡ 4 → result ≡ Ok (Some id) }
{
    let Some(field) = fields.get("id") else {
        return Ok(None);
    };
    match array::deserialize(field) {
        Ok(id) => Ok(Some(id)),
        Err(e) => Err(e),
    }
}

/// Returns the value of a field `id` for an identifier. [`record_id`] reads it as the same
/// identifier. The only possible error is a failed allocation.
///
/// ```rust
/// let id = write_id(rt.alloc(), &[0xab, 1, 0, 0xff])?;
/// let record = serde_json::json!(in rt.alloc(); {"id": id})?;
/// let text = record.to_string(rt.alloc())?;
/// assert_eq!(rt; text.as_str(), r#"{"id":"0xab0100ff"}"#);
/// ```
pub fn write_id(alloc: Global, id: &[u8; 4]) -> Result<Value, AdapterError>
    ensures { MatchResult result
        (λ value. Reads wire.withpfx_ignorecase None (view value) id.now)
        (λ e. WriteFailure wire.withpfx_ignorecase id.now e) }
{
    array::serialize(alloc, id)
}

/// Reads a signature of at most 64 bytes. If an unbounded read would return so few bytes, the
/// result is the same, and the only possible error is a failed allocation.
pub fn read_signature(alloc: Global, value: &Value) -> Result<Vec<u8>, AdapterError>
    ensures answer { AnswersRead wire.nopfx_ignorecase (Some 64) value.now result }
    ensures read { IfOk result (λ bytes. Reads wire.nopfx_ignorecase None (view value.now) (vec_items bytes)
        × (length (vec_items bytes) ≤ 64)) }
    ensures only { (bytes : List ℕ) → Reads wire.nopfx_ignorecase None (view value.now) bytes → length bytes ≤ 64
        → MatchResult result (λ read. vec_items read ≡ bytes) (λ e. e ≡ adapter.Codec codec.OutOfMemory) }
{
    a_bound_refuses_what_is_longer_alone();
    nopfx_ignorecase::deserialize_bounded::<64>(alloc, value)
}

/// Writes an optional note as a value, and reads it back. The result is the same note, or an error
/// if memory runs out.
///
/// ```rust
/// let note = Some(Vec::from_slice(rt.alloc(), b"hi")?);
/// assert_eq!(rt; reread_note(rt.alloc(), &note)?, note);
/// assert_eq!(rt; reread_note(rt.alloc(), &None)?, None);
/// ```
pub fn reread_note(alloc: Global, note: &Option<Vec<u8>>) -> Result<Option<Vec<u8>>, AdapterError>
    ensures { IfOk result (λ read. option_map vec_items read ≡ option_map vec_items note.now) }
{
    let bytes = match note {
        Some(bytes) => Some(bytes.as_slice()),
        None => None,
    };
    let value = option_nopfx_uppercase::serialize(alloc, bytes)?;
    option_nopfx_uppercase::deserialize(alloc, &value)
}

/// Writes the optional identifier of a parent as a value, and reads it back. The result is the
/// same, or an error if memory runs out.
///
/// ```rust
/// let parent = Some(*b"hello, 16 bytes!");
/// assert_eq!(rt; reread_parent(rt.alloc(), &parent)?, parent);
/// assert_eq!(rt; reread_parent(rt.alloc(), &None)?, None);
/// ```
pub fn reread_parent(
    alloc: Global,
    parent: &Option<[u8; 16]>,
) -> Result<Option<[u8; 16]>, AdapterError>
    ensures { IfOk result (λ read. read ≡ parent.now) }
{
    an_optional_array_has_its_length(parent);
    let bytes = if let Some(id) = parent {
        Some(id.as_slice())
    } else {
        None
    };
    let value = option_nopfx_lowercase::serialize(alloc, bytes)?;
    option_nopfx_lowercase::array::deserialize(&value)
}

/// Returns whether a value that a module `option_` has written is that of `None`. The value of a
/// list never is, even if the list is empty.
pub fn is_none_written(value: &Value, bytes: &[u8]) -> bool
    ensures none { WritesOption wire.nopfx_ignorecase None (view value.now) → IsTrue result }
    ensures list { WritesOption wire.nopfx_ignorecase (Some bytes.now) (view value.now) → IsFalse result }
{
    none_and_an_empty_list_stay_apart();
    value.is_null()
}

/// Reads a key of eight bytes. Its value must be the one that is written for it, with lowercase
/// digits and without prefix.
pub fn read_key(value: &Value) -> Result<[u8; 8], AdapterError>
    ensures { MatchResult result
        (λ key. view value.now ≡ string (wire_text wire.nopfx_lowercase key))
        (λ e. array_read_refusal wire.nopfx_lowercase 8 (view value.now) ≡ Some e) }
{
    strict_writing_inverts_reading();
    nopfx_lowercase::array::deserialize(value)
}
