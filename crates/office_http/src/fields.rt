//! The field lines of a head by their name, in any case of letters (RFC 9110, section 5).
ghost use Rattle.std.specs.Prelude.{◌≡◌, ℕ, List, length, map, All};
ghost use Rattle.httparse.specs.Spans.{header_bytes, span_bytes, IsHeaderWithin, IsWithin};
ghost use Rattle.office_http.specs.Fields.{and_value, same_name, found_bytes, found_named, IsFoundWithin};

use httparse::spans::{HeaderSpan, Span};

/// The values of the field lines of one name.
#[derive(Clone, Copy)]
pub(crate) enum Found {
    /// There is no such line.
    Missing,
    /// There is one, and its value lies there.
    One(Span),
    /// There are two or more.
    Many,
}

/// Whether two names are the same in any case.
fn is_same(name: &[u8], other: &[u8]) -> bool
    ensures { result ≡ same_name name.now other.now }
{
    name.eq_ignore_ascii_case(other)
}

/// The values of the field lines of that name, in a head of these.
pub(crate) fn find_named(buf: &[u8], headers: &[HeaderSpan], name: &[u8]) -> Found
    requires { All (IsHeaderWithin (length buf.now)) headers.now }
    ensures found { found_bytes buf.now result
        ≡ found_named name.now (map (header_bytes buf.now) headers.now) }
    ensures within { IsFoundWithin (length buf.now) result }
{
    match headers.split_first() {
        None => Found::Missing,
        Some((first, rest)) => {
            let found = find_named(buf, rest, name);
            if is_same(first.name.of(buf), name) {
                with_value(first.value, found)
            } else {
                found
            }
        }
    }
}

/// The same with one value more.
fn with_value(value: Span, found: Found) -> Found
    ensures found { (buf : List ℕ)
        → found_bytes buf result ≡ and_value (span_bytes buf value) (found_bytes buf found) }
    ensures within { (n : ℕ) → IsWithin n value → IsFoundWithin n result }
{
    match found {
        Found::Missing => Found::One(value),
        _ => Found::Many,
    }
}
