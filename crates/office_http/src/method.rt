//! The methods that paths take (RFC 9110, section 9), by the crate `http`.
ghost use Rattle.std.specs.Prelude.{◌≡◌, bytes_eq};

use http::Method;

/// Whether a method is the known one. Case counts.
pub(crate) fn is_method(method: &[u8], known: &Method) -> bool
    ensures { result ≡ bytes_eq method.now known.now }
{
    method == known.as_str().as_bytes()
}
