//! A content, as the journal notes it.
ghost use Rattle.std.specs.Prelude.{◌≡◌, IfOk};
ghost use Rattle.serde_json.specs.View.{view};
ghost use Rattle.office_notes.specs.Acts.{content_note};

use office_rules::{Content, digest_of};
use serde_json::{Map, Value};
use std::alloc::{AllocError, Global};

/// Writes the length and the SHA-256 of a content.
pub(crate) fn content_value(alloc: Global, content: &Content) -> Result<Value, AllocError>
    ensures { IfOk result (λ value. view value ≡ content_note content.now) }
{
    let bytes = content.bytes();
    let digits = hex::encode(alloc, digest_of(bytes))?;
    let mut map = Map::new(alloc);
    serde_json::put(&mut map, alloc, "bytes", Value::from(bytes.len() as u64))?;
    serde_json::put(&mut map, alloc, "sha256", Value::String(digits))?;
    Ok(Value::Object(map))
}
