//! Rows and stories that are repeated for each of several numbers, and bytes that are written by
//! escapes or as repeated pieces.
use crate::failures::failure;
use std::alloc::{AllocError, Global};
use std::test::Fail;

/// What is between a text and the numbers for which it is reported.
pub(crate) const FOR_EACH: &str = " for each <n> of ";

/// The number of that text.
pub(crate) fn number(text: &str) -> Result<u32, Fail> {
    match text.parse::<u32>() {
        Ok(number) => Ok(number),
        Err(_) => Err(failure("no number", text)),
    }
}

/// The text for that number.
fn copy(alloc: Global, text: &str, number: u32) -> Result<String, AllocError> {
    let digits = format!(in alloc; "{number}")?;
    text.replace(alloc, "<n>", digits.as_str())
}

/// The text for each number from the first to the last.
fn copies_between(alloc: Global, text: &str, first: u32, last: u32) -> Result<Vec<String>, Fail> {
    let mut copies = Vec::new(alloc);
    for number in first..=last {
        copies.push(copy(alloc, text, number)?)?;
    }
    Ok(copies)
}

/// The text for each word of a list.
fn copies_at(alloc: Global, text: &str, list: &str) -> Result<Vec<String>, Fail> {
    let mut copies = Vec::new(alloc);
    for word in list.split(' ') {
        copies.push(text.replace(alloc, "<n>", word)?)?;
    }
    Ok(copies)
}

/// The text for each number of a list, as `1 2 7` or `1 to 1000`.
pub(crate) fn copies(alloc: Global, text: &str, list: &str) -> Result<Vec<String>, Fail> {
    match list.split_once(" to ") {
        Some((first, last)) => copies_between(alloc, text, number(first)?, number(last)?),
        None => copies_at(alloc, text, list),
    }
}

/// The text with the bytes that its escapes name.
pub(crate) fn unescaped(alloc: Global, text: &str) -> Result<String, AllocError> {
    let text = text.replace(alloc, "\\n", "\n")?;
    let text = text.as_str().replace(alloc, "\\r", "\r")?;
    let text = text.as_str().replace(alloc, "\\ufeff", "\u{feff}")?;
    let text = text.as_str().replace(alloc, "\\x00", "\0")?;
    let text = text.as_str().replace(alloc, "\\x7f", "\u{7f}")?;
    text.as_str().replace(alloc, "\\t", "\t")
}

/// Appends a piece, as often as it says.
fn push_piece(alloc: Global, text: &mut String, piece: &str) -> Result<(), AllocError> {
    let Some((once, times)) = piece.rsplit_once(" x ") else {
        return text.push_str(piece);
    };
    let copies = once.repeat(alloc, times.parse().unwrap_or(0))?;
    text.push_str(copies.as_str())
}

/// The text whose pieces are between ` + `, each of them as often as it says after ` x `, and whose
/// escapes name bytes.
pub(crate) fn written(alloc: Global, text: &str) -> Result<String, AllocError> {
    let mut whole = String::new(alloc);
    for piece in text.split(" + ") {
        push_piece(alloc, &mut whole, piece)?;
    }
    unescaped(alloc, whole.as_str())
}

/// The bytes of a text, in which `\xff` represents a byte that no text has.
pub(crate) fn bytes_of(alloc: Global, text: &str) -> Result<Vec<u8>, AllocError> {
    let mut bytes = Vec::new(alloc);
    for (place, part) in text.split("\\xff").enumerate() {
        if place > 0 {
            bytes.push(0xff)?;
        }
        bytes.extend_from_slice(part.as_bytes())?;
    }
    Ok(bytes)
}
