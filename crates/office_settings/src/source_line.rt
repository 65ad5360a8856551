//! The lines of a file, each parted into words.
ghost use Rattle.std.specs.Prelude.{◌≡◌, IfOk, map};
ghost use Rattle.std.specs.Option.{is_some};
ghost use Rattle.office_settings.specs.Files.{lines_in};
ghost use Rattle.office_settings.specs.Looks.{text_in};
ghost use Rattle.office_settings.specs.Tokens.{tokens_in};

use crate::looks::text_in;
use crate::tokens::tokens_of;
use std::alloc::{AllocError, Global};
use std::marker::Model;

/// A line of a file, without its line feed. Contracts see its bytes.
#[derive(Drop)]
pub struct SourceLine<'a> {
    text: &'a [u8],
    tokens: Vec<&'a [u8]>,
}

impl<'a> Model for SourceLine<'a> {
    ghost use Rattle.std.specs.Prelude.{◌≡◌, List, ℕ, map};
    ghost use Rattle.office_settings.specs.Tokens.{tokens_in};

    ghost Value = { List ℕ };

    ghost view = { λ line. line.text.now };

    ghost invariant = { λ line. map (λ w. w.now) line.tokens.items ≡ tokens_in line.text.now };
}

impl<'a> SourceLine<'a> {
    /// Parts a line into words.
    fn new(alloc: Global, text: &'a [u8]) -> Result<SourceLine<'a>, AllocError>
        ensures { IfOk result (λ line. line ≡ text.now) }
    {
        let tokens = tokens_of(alloc, text)?;
        Ok(SourceLine { text, tokens })
    }

    /// Reports whether the line is UTF-8.
    pub(crate) fn is_text(&self) -> bool
        ensures { result ≡ is_some (text_in self.now) }
    {
        text_in(self.text).is_some()
    }

    /// Returns the words of the line.
    pub(crate) fn tokens(&self) -> &[&'a [u8]]
        ensures { map (λ w. w.now) result.now ≡ tokens_in self.now }
    {
        &self.tokens
    }
}

/// Splits a text at its line feeds.
fn split_lines<'a>(alloc: Global, text: &'a [u8]) -> Result<Vec<&'a [u8]>, AllocError>
    ensures { IfOk result (λ lines. map (λ line. line.now) lines.items ≡ lines_in text.now) }
{
    text.split(|byte| *byte == b'\n').collect(alloc)
}

/// Parts a file into its lines, and these into words.
pub fn lines_of<'a>(alloc: Global, text: &'a [u8]) -> Result<Vec<SourceLine<'a>>, AllocError>
    ensures { IfOk result (λ lines. lines.items ≡ lines_in text.now) }
{
    let parts = split_lines(alloc, text)?;
    let mut lines = Vec::new(alloc);
    for part in &parts {
        lines.push(SourceLine::new(alloc, part)?)?;
    }
    Ok(lines)
}
