//! Numbers in a head: the length of a body, and the number of a thing in a path.
ghost use Rattle.std.specs.Prelude.{◌≡◌, min};
ghost use Rattle.std.specs.Option.{option_map};
ghost use Rattle.office_base.specs.Numerals.{number_named};
ghost use Rattle.office_http.specs.Numbers.{begins_with_zero, content_length, segment_number};

use office_base::{read_entity_number, read_numeral};

/// The number that the bytes write as digits; one above `u64::MAX` counts as `u64::MAX`.
fn numeral_in(bytes: &[u8]) -> Option<u64>
    ensures { result ≡ option_map (λ n. min n u64.MAX) (number_named bytes.now) }
{
    match str::from_utf8(bytes) {
        Ok(text) => read_numeral(text),
        Err(_) => None,
    }
}

/// The length that the value of a Content-Length line says; `None` where it is not 1 to 19 digits.
pub(crate) fn content_length(value: &[u8]) -> Option<u64>
    ensures { result ≡ content_length value.now }
{
    if value.len() > 19 {
        None
    } else {
        numeral_in(value)
    }
}

/// Whether the segment begins with the digit 0.
fn begins_with_zero(segment: &str) -> bool
    ensures { result ≡ begins_with_zero segment.now }
{
    segment.as_bytes().first() == Some(&b'0')
}

/// The number that a segment of a path names.
pub(crate) fn segment_number(segment: &str) -> Option<u32>
    ensures { result ≡ segment_number segment.now }
{
    if begins_with_zero(segment) {
        None
    } else {
        read_entity_number(segment).ok()
    }
}
