//! The words of a line.
ghost use Rattle.std.specs.Prelude.{◌≡◌, ◌≤◌, ◌<◌, ◌++◌, ◌==◌, [], ◌∷◌, IfOk, OnOk, length, map, position, slice_range};
ghost use Rattle.std.specs.List.{before_first};
ghost use Rattle.std.specs.Str.{bytes_eq};
ghost use Rattle.office_settings.specs.Tokens.{closed, is_blank, tokens_from, tokens_in};

use std::alloc::{AllocError, Global};

/// Reports whether a word is a keyword.
pub(crate) fn is(token: &[u8], keyword: &str) -> bool
    ensures { result ≡ bytes_eq token.now keyword.now }
{
    token == keyword.as_bytes()
}

/// Reports whether a byte parts two words: a space, a tab or a carriage return.
#[tactic(auto, unfolding(crate::specs::Tokens::is_blank))]
fn is_blank(byte: u8) -> bool
    ensures { result ≡ is_blank byte }
{
    byte == b' ' || byte == b'\t' || byte == b'\r'
}

/// Returns where a remark begins.
fn remark_place(line: &[u8]) -> Option<usize>
    ensures { result ≡ position (λ b. b == 35) line.now }
{
    line.iter().position(|byte| *byte == b'#')
}

/// Returns a line up to its remark.
fn without_remark(line: &[u8]) -> &[u8]
    ensures { result.now ≡ before_first (λ b. b == 35) line.now }
{
    match remark_place(line) {
        Some(place) => &line[..place],
        None => line,
    }
}

/// Appends the word between two places of a line, if it has a byte.
fn push_token<'a>(
    tokens: &mut Vec<&'a [u8]>,
    line: &'a [u8],
    start: usize,
    end: usize,
) -> Result<(), AllocError>
    requires range { start ≤ end }
    requires within { end ≤ length line.now }
    ensures { OnOk result (map (λ w. w.now) tokens.new.items
        ≡ map (λ w. w.now) tokens.old.items ++ closed (slice_range line.now start end) []) }
{
    if start < end {
        tokens.push(&line[start..end])?;
    }
    Ok(())
}

/// Returns what stands between the blanks of a text.
fn parted_tokens<'a>(alloc: Global, text: &'a [u8]) -> Result<Vec<&'a [u8]>, AllocError>
    ensures { IfOk result (λ cut. map (λ w. w.now) cut.items ≡ tokens_from [] text.now) }
{
    let mut tokens = Vec::new(alloc);
    let mut start = 0usize;
    for i in 0..text.len() {
        if is_blank(text[i]) {
            push_token(&mut tokens, text, start, i)?;
            start = i + 1;
        }
    }
    push_token(&mut tokens, text, start, text.len())?;
    Ok(tokens)
}

/// Returns the words of a line: what stands between its blanks, up to a remark, which `#` begins.
pub fn tokens_of<'a>(alloc: Global, line: &'a [u8]) -> Result<Vec<&'a [u8]>, AllocError>
    ensures { IfOk result (λ cut. map (λ w. w.now) cut.items ≡ tokens_in line.now) }
{
    parted_tokens(alloc, without_remark(line))
}
