// The object that a text is, and what stands in it.
ghost use Rattle.std.specs.Prelude.{◌≡◌, ℕ, ◌≤◌, ◌↔◌, Some, None, IfOk, IsSome, IfSome, option_map};
ghost use Rattle.serde_json.specs.View.{view};
ghost use Rattle.json_values.specs.Objects.{between, object_of, text_at, whole_at};

use serde_json::Value;
use std::alloc::{AllocError, Global};

/// How many bytes a text may have.
const MOST_BYTES: usize = 2_097_152;

/// The object that a text of at most 2,097,152 bytes is. A longer text is not parsed.
pub fn object_of(alloc: Global, text: &[u8]) -> Result<Option<Value>, AllocError>
    ensures { IfOk result (λ found. option_map view found ≡ object_of text.now) }
{
    if text.len() > MOST_BYTES {
        return Ok(None);
    }
    match Value::from_slice(alloc, text) {
        Ok(value) => if value.is_object() {
            Ok(Some(value))
        } else {
            Ok(None)
        },
        Err(error) => if error.is_memory() {
            Err(AllocError)
        } else {
            Ok(None)
        },
    }
}

/// The text that the field says, where it says one.
pub fn text_at<'a>(name: &str, object: &'a Value) -> Option<&'a str>
    ensures { option_map (λ text. text.now) result ≡ text_at name.now (view object.now) }
{
    object.get(name).and_then(Value::as_str)
}

/// The whole number from 0 to 2^64-1 that the field says, where it says one.
pub fn whole_at(name: &str, object: &Value) -> Option<u64>
    ensures { result ≡ whole_at name.now (view object.now) }
{
    object.get(name).and_then(Value::as_u64)
}
