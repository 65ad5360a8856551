//! The secret that an office shares with its proxy, in a file.
ghost use Rattle.std.specs.Prelude.{◌≡◌, IfOk};
ghost use Rattle.std.specs.List.{list_all};
ghost use Rattle.office_gate.specs.Secrets.{ends_with_feed, is_letter_or_digit, is_secret, only_line, secret_in};

use office_base::Memory;
use office_records::Text;
use office_settings::text_in;
use std::alloc::Global;

/// Reports whether the last byte is a line feed.
fn ends_with_feed(bytes: &[u8]) -> bool
    ensures { result ≡ ends_with_feed bytes.now }
{
    !bytes.is_empty() && bytes[bytes.len() - 1] == b'\n'
}

/// Returns the one line of a file, without its line feed.
fn only_line(bytes: &[u8]) -> &[u8]
    ensures { result.now ≡ only_line bytes.now }
{
    if ends_with_feed(bytes) {
        &bytes[..bytes.len() - 1]
    } else {
        bytes
    }
}

/// Reports whether the byte is an ASCII letter or digit.
fn is_letter_or_digit(byte: u8) -> bool
    ensures { result ≡ is_letter_or_digit byte }
{
    byte >= b'0' && byte <= b'9' || byte >= b'A' && byte <= b'Z' || byte >= b'a' && byte <= b'z'
}

/// Reports whether all bytes are ASCII letters and digits.
fn are_letters_and_digits(line: &[u8]) -> bool
    ensures { result ≡ list_all is_letter_or_digit line.now }
{
    line.iter().all(|byte| is_letter_or_digit(*byte))
}

/// Reports whether a line is long enough for a secret, and has letters and digits alone.
fn is_secret(line: &[u8]) -> bool
    ensures { result ≡ is_secret line.now }
{
    line.len() >= 32 && are_letters_and_digits(line)
}

/// Reads the secret in the bytes of a file: one line of 32 to 200 letters and digits, with a line feed
/// at its end or without.
#[tactic(auto, unfolding(crate::specs::Secrets::secret_in))]
pub fn secret_in(alloc: Global, bytes: &[u8]) -> Result<Option<Text>, Memory>
    ensures { IfOk result (λ secret. secret ≡ secret_in bytes.now) }
{
    let line = only_line(bytes);
    if !is_secret(line) {
        return Ok(None);
    }
    match text_in(line) {
        Some(text) => Text::read(alloc, text),
        None => Ok(None),
    }
}
