//! Bytes as rows write them.
use crate::plan_tests::{CLOSED, EVENT, TWO};

/// The byte that a letter after a backslash represents.
fn escaped(letter: u8) -> u8 {
    match letter {
        b'r' => b'\r',
        b'n' => b'\n',
        b't' => b'\t',
        b's' => b' ',
        b'0' => 0,
        b'1' => 1,
        b'f' => 0xff,
        other => other,
    }
}

/// Appends what a text writes.
fn push_text(out: &mut Vec<u8>, text: &str) -> Option<()> {
    let mut is_escape = false;
    for byte in text.bytes() {
        if byte == b'\\' && !is_escape {
            is_escape = true;
        } else {
            out.push(if is_escape { escaped(byte) } else { byte }).ok()?;
            is_escape = false;
        }
    }
    Some(())
}

/// Appends a piece that is once.
fn push_named(out: &mut Vec<u8>, piece: &str) -> Option<()> {
    match piece {
        "nothing" => Some(()),
        "CLOSED" => push_text(out, CLOSED),
        "TWO" => push_text(out, TWO),
        "EVENT" => push_text(out, EVENT),
        _ => push_text(out, piece),
    }
}

/// Appends a piece, as often as it says.
fn push_piece(out: &mut Vec<u8>, piece: &str) -> Option<()> {
    let Some((text, times)) = piece.rsplit_once(" x ") else {
        return push_named(out, piece);
    };
    for _ in 0..times.parse::<u32>().unwrap_or(0) {
        push_text(out, text)?;
    }
    Some(())
}

/// Appends the bytes that are written so.
pub(crate) fn push_bytes(out: &mut Vec<u8>, written: &str) -> Option<()> {
    for piece in written.split(" + ") {
        push_piece(out, piece)?;
    }
    Some(())
}

/// Appends a text as it is.
pub(crate) fn push(out: &mut Vec<u8>, text: &str) -> Option<()> {
    out.extend_from_slice(text.as_bytes()).ok()
}
