//! SHA-256 digests: that of a content, and one read from its digits.
ghost use Rattle.std.specs.Prelude.{◌≡◌, ◌≢◌, ◌<◌, ◌∷◌, [], ℕ, List, None, Some, IfSome, IsTrue, false, length, slice_index};
ghost use Rattle.std.specs.List.{All};
ghost use Rattle.hex.specs.Hex.{encode_lower, lower_digits};
ghost use Rattle.sha2.specs.Sha256.{sha256};
ghost use Rattle.office_records.specs.Forms.{IsDigest};
ghost use Rattle.office_rules.specs.Digits.{IsLowerDigit, digest_named};

use sha2::{Digest, Sha256};

/// The SHA-256 digest of a content (FIPS 180-4), which takes no memory.
pub fn digest_of(content: &[u8]) -> [u8; 32]
    ensures { result ≡ sha256 content.now }
{
    Sha256::digest(content)
}

/// Whether the byte is a lower-case hexadecimal digit.
fn is_digit(byte: u8) -> bool
    ensures yes { IsTrue result → IsLowerDigit byte }
    ensures no { result ≡ false → IsLowerDigit byte → ⊥ }
{
    matches!(byte, b'0'..=b'9' | b'a'..=b'f')
}

/// Whether all bytes are lower-case hexadecimal digits. It looks at all of them, many at a time.
fn are_digits(text: &[u8]) -> bool
    ensures yes { IsTrue result → All IsLowerDigit text.now }
    ensures no { result ≡ false → All IsLowerDigit text.now → ⊥ }
{
    let mut are = true;
    for i in 0..text.len() {
        are = are & is_digit(text[i]);
    }
    are
}

/// The value of a lower-case hexadecimal digit.
fn digit_value(digit: u8) -> u8
    requires { IsLowerDigit digit }
    ensures small { result < 16 }
    ensures written { slice_index lower_digits result ≡ digit }
{
    if digit <= b'9' {
        digit - b'0'
    } else {
        digit - b'a' + 10
    }
}

/// The byte that two lower-case hexadecimal digits write.
fn byte_of(high: u8, low: u8) -> u8
    requires high { IsLowerDigit high }
    requires low { IsLowerDigit low }
    ensures { encode_lower (result ∷ []) ≡ high ∷ low ∷ [] }
{
    digit_value(high) * 16 + digit_value(low)
}

/// The digest that 64 digits write.
fn digest_of_digits(text: &[u8]) -> [u8; 32]
    requires long { length text.now ≡ 64 }
    requires digits { All IsLowerDigit text.now }
    ensures formed { IsDigest result }
    ensures exact { text.now ≡ encode_lower result }
{
    let mut digest = [0u8; 32];
    for i in 0..32 {
        digest[i] = byte_of(text[2 * i], text[2 * i + 1]);
    }
    digest
}

/// The digest that 64 bytes write.
fn digest_in(text: &[u8]) -> Option<[u8; 32]>
    requires { length text.now ≡ 64 }
    ensures formed { IfSome result IsDigest }
    ensures exact { IfSome result (λ digest. text.now ≡ encode_lower digest) }
    ensures none { result ≡ None → (digest : List ℕ) → IsDigest digest
        → text.now ≢ encode_lower digest }
{
    if !are_digits(text) {
        return None;
    }
    Some(digest_of_digits(text))
}

/// The digest that a text writes in 64 lower-case hexadecimal digits; `None` where it writes none,
/// as with upper-case digits. It takes no memory.
pub fn read_digest(text: &str) -> Option<[u8; 32]>
    ensures named { result ≡ digest_named text.now }
    ensures exact { IfSome result (λ digest. text.now ≡ encode_lower digest) }
    ensures every { (digest : List ℕ) → IsDigest digest → text.now ≡ encode_lower digest
        → result ≡ Some digest }
{
    if text.len() != 64 {
        return None;
    }
    digest_in(text.as_bytes())
}
