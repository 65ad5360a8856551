//! Whether bytes are the line after another.
ghost use Rattle.std.specs.Prelude.{◌≡◌, ◌++◌, codes};
ghost use Rattle.std.specs.Fmt.{decimal};
ghost use Rattle.std.specs.Option.{option_copied};
ghost use Rattle.hex.specs.Hex.{encode_lower};
ghost use Rattle.office_journal.specs.Journals.{follow, opened, rest_after};

use crate::nesting::is_whole;
use crate::{Head, Wrong};
use itoa::Buffer;
use sha2::{Digest, Sha256};

/// Returns what follows a part at the front of a text, if it begins with the part.
fn rest_after<'a>(part: &[u8], text: &'a [u8]) -> Option<&'a [u8]>
    ensures { option_copied result ≡ rest_after part.now text.now }
{
    match text.strip_prefix(part) {
        Some(rest) => Some(rest),
        None => None,
    }
}

/// Returns what follows the digest of the line before.
fn rest_after_digest<'a>(digest: [u8; 32], text: &'a [u8]) -> Option<&'a [u8]>
    ensures { option_copied result
        ≡ rest_after (encode_lower digest ++ codes "\",\"line\":") text.now }
{
    let mut digits = [0u8; 64];
    let _ = hex::encode_to_slice(digest, &mut digits);
    match rest_after(&digits, text) {
        Some(rest) => rest_after(b"\",\"line\":", rest),
        None => None,
    }
}

/// Returns what follows the number of a line.
fn rest_after_number(number: u64, text: &[u8]) -> Option<&[u8]>
    ensures { option_copied result ≡ rest_after (decimal number ++ codes ",") text.now }
{
    let mut buffer = Buffer::new();
    match rest_after(buffer.format(number).as_bytes(), text) {
        Some(rest) => rest_after(b",", rest),
        None => None,
    }
}

/// Returns the head after a line that has the bytes `line`, of which `rest` follow the quote that
/// begins the digest.
fn opened(head: &Head, line: &[u8], rest: &[u8]) -> Result<Head, Wrong>
    ensures { result ≡ opened head.now line.now rest.now }
{
    let Some(rest) = rest_after_digest(head.digest, rest) else {
        return Err(Wrong::OtherBefore);
    };
    if head.line == u64::MAX {
        return Err(Wrong::OtherNumber);
    }
    if rest_after_number(head.line + 1, rest).is_none() {
        return Err(Wrong::OtherNumber);
    }
    Ok(Head {
        line: head.line + 1,
        digest: Sha256::digest(line),
    })
}

/// Returns the head after a line of these bytes; an error if they are not the line right after that
/// of a head. It takes no memory.
#[tactic(auto, unfolding(crate::specs::Journals::follow))]
pub fn follow(head: &Head, line: &[u8]) -> Result<Head, Wrong>
    ensures { result ≡ follow head.now line.now }
{
    if !is_whole(line) {
        return Err(Wrong::NoLine);
    }
    match rest_after(b"{\"before\":\"", line) {
        Some(rest) => opened(head, line, rest),
        None => Err(Wrong::NoLine),
    }
}
