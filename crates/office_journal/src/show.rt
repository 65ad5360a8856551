//! Text as a terminal may show it.
ghost use Rattle.std.specs.Prelude.{◌≡◌, ◌<◌, ◌^◌, ◌++◌, OnOk, IfOk};
ghost use Rattle.std.specs.Char.{digit_char};
ghost use Rattle.office_journal.specs.Shown.{escaped, is_hiding, shown, shown_char};

use std::alloc::{AllocError, Global};

/// Reports whether a character changes how a terminal shows a line.
fn is_hiding(c: char) -> bool
    ensures { result ≡ is_hiding c }
{
    matches!(c, '\u{7f}'..='\u{9f}' | '\u{61c}' | '\u{200e}'..='\u{200f}'
        | '\u{2028}'..='\u{202e}' | '\u{2066}'..='\u{2069}')
}

/// Returns a hexadecimal digit.
fn digit(value: u32) -> u8
    requires { value < 16 }
    ensures { result ≡ digit_char value }
{
    if value < 10 {
        b'0' + value as u8
    } else {
        b'a' + (value as u8 - 10)
    }
}

/// Returns a character below 65,536 as `\u` and its four digits.
fn escape(c: char) -> [u8; 6]
    requires { c < 2 ^ 16 }
    ensures { result ≡ escaped c }
{
    let code = c as u32;
    [
        b'\\',
        b'u',
        digit(code / 4096),
        digit(code / 256 % 16),
        digit(code / 16 % 16),
        digit(code % 16),
    ]
}

/// Appends one character, escaped if it changes how a terminal shows a line.
fn push_shown(out: &mut Vec<u8>, c: char) -> Result<(), AllocError>
    ensures { OnOk result (out.new.items ≡ out.old.items ++ shown_char c) }
{
    if is_hiding(c) {
        out.extend_from_slice(&escape(c))?;
    } else {
        let mut bytes = [0u8; 4];
        out.extend_from_slice(c.encode_utf8(&mut bytes).as_bytes())?;
    }
    Ok(())
}

/// Returns a text of JSON as a terminal may show it, in which each character that changes how a
/// terminal shows a line is escaped.
#[tactic(auto, unfolding(crate::specs::Shown::shown))]
pub(crate) fn show(alloc: Global, text: &str) -> Result<Vec<u8>, AllocError>
    ensures { IfOk result (λ out. out.items ≡ shown text.now) }
{
    let mut out = Vec::with_capacity(alloc, text.len())?;
    for c in text.chars() {
        push_shown(&mut out, c)?;
    }
    Ok(out)
}
