//! Reads JSON values, and the values at the keys of an object. It is for files with one JSON object
//! whose keys are known in advance: manifests, and files of other crates.

ghost use Rattle.std.specs.Prelude.{◌≡◌, ◌≢◌, ◌⊎◌, ◌↔◌, ℕ, ◌^◌, ◌<◌, Some, IfErr, IfNone, IfOk, IfSome, IsErrOf, IsTrue, length, map, option_map};
ghost use Rattle.serde_json.specs.Data.{Data};
ghost use Rattle.serde_json.specs.View.{members_view, view};
ghost use Rattle.manifest.specs.Json.{HasNames, IsJson, array_at, digest_at, names_of, number_at, text_at, uuid_at, whole_number};

use crate::error::ManifestError;
use hex::FromHex;
use serde_json::{Map, Value};
use std::alloc::Global;
use uuid::Uuid;

/// Reads the value of a JSON text (RFC 8259) in UTF-8, of any length. The value is in memory of
/// `alloc`. Lists and objects may nest up to 127 levels. If an object has a key twice, the last
/// value counts.
///
/// # Errors
/// `NotJson` if the bytes are not the JSON text of a value. `NoMemory` if an allocation fails,
/// which never happens for empty input.
pub fn json_of(alloc: Global, bytes: &[u8]) -> Result<Value, ManifestError>
    ensures read { IfOk result (λ value. IsJson bytes.now (view value)) }
    ensures refused { (result ≡ Err ManifestError.NotJson) → (value : Data)
        → IsJson bytes.now value → ⊥ }
    ensures only { IfErr result
        (λ error. (error ≡ ManifestError.NotJson) ⊎ (error ≡ ManifestError.NoMemory)) }
    ensures memory { IsErrOf result ManifestError.NoMemory → 0 < length bytes.now }
{
    match Value::from_slice(alloc, bytes) {
        Ok(value) => Ok(value),
        Err(error) if error.is_memory() => Err(ManifestError::NoMemory),
        Err(_) => Err(ManifestError::NotJson),
    }
}

/// Whether an object has exactly these names, which must be in the order of their bytes.
fn are_names(members: &Map<String, Value>, names: &[&str]) -> bool
    ensures { IsTrue result ↔ (names_of (members_view members.now.entries)
        ≡ map (λ name. name.now) names.now) }
{
    let mut own = members.keys();
    for name in names {
        match own.next() {
            Some(next) if next.as_str() == *name => {}
            _ => return false,
        }
    }
    own.next().is_none()
}

/// Whether a value is an object with exactly these names. The names must be in the order of their
/// bytes, each once: otherwise no value has them. Does not allocate.
pub fn has_names(value: &Value, names: &[&str]) -> bool
    ensures { IsTrue result ↔ HasNames (map (λ name. name.now) names.now) (view value.now) }
{
    match value.as_object() {
        Some(members) => are_names(members, names),
        None => false,
    }
}

/// Returns the number of a value. It must be below 2^32 and written with digits only. Returns
/// `None` for any other value. Does not allocate.
pub fn number_of(value: &Value) -> Option<u32>
    ensures found { IfSome result (λ number. whole_number (view value.now) ≡ Some number) }
    ensures other { IfNone result ((number : ℕ) → number < 2 ^ 32
        → whole_number (view value.now) ≢ Some number) }
{
    u32::try_from(value.as_u64()?).ok()
}

/// Returns the number at a key. It must be below 2^32 and written with digits only. Returns `None`
/// for any other value at the key, or if the value isn't an object with this key. Does not
/// allocate.
pub fn number(value: &Value, key: &str) -> Option<u32>
    ensures found { IfSome result (λ number. number_at key.now (view value.now) ≡ Some number) }
    ensures other { IfNone result ((number : ℕ) → number < 2 ^ 32
        → number_at key.now (view value.now) ≢ Some number) }
{
    number_of(value.get(key)?)
}

/// Returns the text at a key. Returns `None` for any other value at the key, or if the value isn't
/// an object with this key. Does not allocate.
pub fn text<'v>(value: &'v Value, key: &str) -> Option<&'v str>
    ensures { option_map (λ text. text.now) result ≡ text_at key.now (view value.now) }
{
    value.get(key)?.as_str()
}

/// Returns the array at a key. Returns `None` for any other value at the key, or if the value isn't
/// an object with this key. Does not allocate.
pub fn array<'v>(value: &'v Value, key: &str) -> Option<&'v Vec<Value>>
    ensures { option_map (λ values. map view values.now.items) result
        ≡ array_at key.now (view value.now) }
{
    value.get(key)?.as_array()
}

/// Returns the UUID whose text is at a key, in any of its forms and in upper or lower case (RFC
/// 9562, section 4). Returns `None` for any other value at the key, or if the value isn't an object
/// with this key. Does not allocate.
pub fn uuid(value: &Value, key: &str) -> Option<Uuid>
    ensures { result ≡ uuid_at key.now (view value.now) }
{
    Uuid::parse_str(text(value, key)?).ok()
}

/// Returns the 32 bytes whose 64 hexadecimal digits, in upper or lower case, are the text at a key.
/// Returns `None` for any other value at the key, or if the value isn't an object with this key.
/// Does not allocate.
pub fn digest(value: &Value, key: &str) -> Option<[u8; 32]>
    ensures { result ≡ digest_at key.now (view value.now) }
{
    <[u8; 32]>::from_hex(text(value, key)?).ok()
}
