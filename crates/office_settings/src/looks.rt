//! How names and texts look.
ghost use Rattle.std.specs.Prelude.{◌≡◌, IfOk, chars, string_bytes};
ghost use Rattle.std.specs.List.{list_all};
ghost use Rattle.std.specs.Option.{option_map};
ghost use Rattle.office_settings.specs.Looks.{folded, is_printable, is_signable, look, look_in, normalized, text_in};

use caseless::default_case_fold_str;
use std::alloc::{AllocError, Global};
use ucd_category::GeneralCategory;
use unicode_normalization::to_nfkc;

/// Returns bytes as a text, if they are UTF-8.
#[tactic(auto, unfolding(crate::specs::Looks::text_in))]
pub fn text_in(bytes: &[u8]) -> Option<&str>
    ensures { option_map (λ t. t.now) result ≡ text_in bytes.now }
{
    match str::from_utf8(bytes) {
        Ok(text) => Some(text),
        Err(_) => None,
    }
}

/// Normalizes a text: compatible forms of a letter become one (Unicode NFKC).
#[tactic(auto, unfolding(crate::specs::Looks::normalized))]
fn normalized(alloc: Global, text: &str) -> Result<String, AllocError>
    ensures { IfOk result (λ t. string_bytes t ≡ normalized text.now) }
{
    to_nfkc(alloc, text)
}

/// Folds the case of a text.
#[tactic(auto, unfolding(crate::specs::Looks::folded))]
fn folded(alloc: Global, text: &str) -> Result<String, AllocError>
    ensures { IfOk result (λ t. string_bytes t ≡ folded text.now) }
{
    default_case_fold_str(alloc, text)
}

/// Returns how a text looks: the text without the case and the forms of its letters. Letters of
/// two scripts that look the same, such as Latin and Cyrillic ones, stay apart.
#[tactic(auto, unfolding(crate::specs::Looks::look))]
pub fn look_of(alloc: Global, text: &str) -> Result<String, AllocError>
    ensures { IfOk result (λ t. string_bytes t ≡ look text.now) }
{
    let plain = normalized(alloc, text)?;
    let small = folded(alloc, plain.as_str())?;
    normalized(alloc, small.as_str())
}

/// Returns how bytes look; what is no text looks like nothing.
#[tactic(auto, unfolding(crate::specs::Looks::look_in))]
pub(crate) fn look_in(alloc: Global, bytes: &[u8]) -> Result<String, AllocError>
    ensures { IfOk result (λ t. string_bytes t ≡ look_in bytes.now) }
{
    match text_in(bytes) {
        Some(text) => look_of(alloc, text),
        None => Ok(String::new(alloc)),
    }
}

/// Reports whether a page shows the character.
#[tactic(auto, unfolding(crate::specs::Looks::is_printable))]
fn is_printable(character: char) -> bool
    ensures { result ≡ is_printable character }
{
    if character == ' ' {
        return true;
    }
    match GeneralCategory::for_char(character) {
        GeneralCategory::SpaceSeparator
        | GeneralCategory::LineSeparator
        | GeneralCategory::ParagraphSeparator
        | GeneralCategory::Control
        | GeneralCategory::Format
        | GeneralCategory::Surrogate
        | GeneralCategory::PrivateUse
        | GeneralCategory::Unassigned => false,
        _ => true,
    }
}

/// Reports whether a page shows each character of a text.
fn are_printable(text: &str) -> bool
    ensures { result ≡ list_all is_printable (chars text.now) }
{
    text.chars().all(|character| is_printable(character))
}

/// Reports whether an act may have the bytes as its `by`: at most 200 bytes of a text that a page
/// shows.
#[tactic(auto, unfolding(crate::specs::Looks::is_signable))]
pub(crate) fn is_signable(bytes: &[u8]) -> bool
    ensures { result ≡ is_signable bytes.now }
{
    if bytes.len() > 200 {
        return false;
    }
    match text_in(bytes) {
        Some(text) => are_printable(text),
        None => false,
    }
}
