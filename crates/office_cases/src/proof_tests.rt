//! Digests that other programs work out, and which words, codes and texts there are.
use crate::written::push;
use office_proof::{Outcome, digest_of};
use office_records::{Code, Status, Text};
use std::io::Write;

pub(crate) const ROWS: &str = "
    # worked out with sha256sum; that of abc is also the example of FIPS 180-4, and the last content is
    # longer than a block of 64 bytes
    digest nothing = e3b0c44298fc1c149afbf4c8996fb92427ae41e4649b934ca495991b7852b855
    digest abc = ba7816bf8f01cfea414140de5dae2223b00361a396177a9cb410ff61f20015ad
    digest A record is kept for seven years and then destroyed, unless a hold covers it. = 61d0b86d96d82393154d21853760997f0910f0aad1918533970e2d1fb971a2fa

    # each word is read as its outcome and written back
    outcome destroyed = Destroyed destroyed
    outcome transferred = Transferred transferred
    outcome sent = Sent sent
    outcome skipped = Skipped skipped
    outcome nothing = none
    outcome Destroyed = none
    outcome destroy = none
    outcome sent\\s = none
    outcome \\ssent = none
    outcome received = none
    outcome ended = none

    # codes and texts are read and copied
    code A-9 = A-9
    code nothing = none
    code ABCDEFGHIJKLMNOPQ = none
    code A_B = none
    code \u{e4} = none
    text Akten, 2023 \u{e4} = Akten, 2023 \u{e4}
    text a\u{85}b = none
    status received = Some(Received)
";

/// The digits of the digest of a content.
fn report_digest(content: &[u8], out: &mut Vec<u8>) -> Option<()> {
    let digits = hex::encode(*out.allocator(), &digest_of(content)).ok()?;
    push(out, digits.as_str())
}

/// The outcome of a word, and the word of that outcome.
fn report_outcome(word: &str, out: &mut Vec<u8>) -> Option<()> {
    match Outcome::read(word) {
        None => push(out, "none"),
        Some(outcome) => write!(out, "{outcome:?} {}", outcome.text()).ok(),
    }
}

/// Appends the text of a copy of a code.
fn push_code(code: &Code, out: &mut Vec<u8>) -> Option<()> {
    match code.copy(*out.allocator()) {
        Ok(copy) => push(out, copy.text()),
        Err(_) => None,
    }
}

/// The code that a text is.
fn report_code(text: &str, out: &mut Vec<u8>) -> Option<()> {
    match Code::read(*out.allocator(), text) {
        Ok(Some(code)) => push_code(&code, out),
        Ok(None) => push(out, "none"),
        Err(_) => None,
    }
}

/// Appends the text of a copy of a line in words.
fn push_text(text: &Text, out: &mut Vec<u8>) -> Option<()> {
    match text.copy(*out.allocator()) {
        Ok(copy) => push(out, copy.text()),
        Err(_) => None,
    }
}

/// The line in words that a text is.
fn report_text(text: &str, out: &mut Vec<u8>) -> Option<()> {
    match Text::read(*out.allocator(), text) {
        Ok(Some(text)) => push_text(&text, out),
        Ok(None) => push(out, "none"),
        Err(_) => None,
    }
}

pub(crate) fn report(word: &str, asked: &[u8], out: &mut Vec<u8>) -> Option<()> {
    let text = str::from_utf8(asked).ok()?;
    match word {
        "digest" => report_digest(asked, out),
        "outcome" => report_outcome(text, out),
        "code" => report_code(text, out),
        "text" => report_text(text, out),
        "status" => write!(out, "{:?}", Status::read(text)).ok(),
        _ => None,
    }
}
