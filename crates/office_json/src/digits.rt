//! Digests in base 16.
ghost use Rattle.std.specs.Prelude.{◌≡◌, IfOk};
ghost use Rattle.hex.specs.Hex.{encode_lower};
ghost use Rattle.serde_json.specs.Data.{string};
ghost use Rattle.serde_json.specs.View.{view};

use serde_json::Value;
use std::alloc::{AllocError, Global};

/// A digest, in 64 digits.
pub(crate) fn digest_value(alloc: Global, digest: &[u8; 32]) -> Result<Value, AllocError>
    ensures { IfOk result (λ value. view value ≡ string (encode_lower digest.now)) }
{
    let digits = hex::encode(alloc, digest)?;
    Value::try_from_str(alloc, digits.as_str())
}
