//! Texts such as titles, refs, reasons and names.
ghost use Rattle.std.specs.Prelude.{◌≡◌, ◌≤◌, true, IfOk, IsOk, IsTrue, None, Some, nat_eq, refl};
ghost use Rattle.std.specs.Cmp.{partial_equiv_from_equiv};
ghost use Rattle.std.specs.Cmp.Lexicographic.{pointwise, slice_cmp, nat_list_eq_equiv, nat_list_cmp_total, texts_ties, texts_po};
ghost use Rattle.std.specs.List.{All, list_all};
ghost use Rattle.std.specs.Ordering.{nat_cmp};
ghost use Rattle.std.specs.Str.{chars, is_utf8};
ghost use Rattle.office_records.specs.TextForms.{is_text, is_text_character, text_named};

use office_base::Memory;
use std::alloc::Global;
use std::cmp::Ordering;
use std::marker::Model;

/// A line in words, as a title: 1 to 200 bytes of UTF-8 without the control characters, U+0000 to
/// U+001F and U+007F to U+009F. Contracts see its bytes, and texts are in the order of their bytes.
#[derive(Debug, Drop)]
pub struct Text {
    text: String,
}

impl Model for Text {
    ghost use Rattle.std.specs.Prelude.{◌≡◌, List, ℕ, true};
    ghost use Rattle.std.specs.String.{string_bytes};
    ghost use Rattle.office_records.specs.TextForms.{is_text};

    ghost Value = { List ℕ };

    ghost view = { λ t. string_bytes t.text };

    ghost invariant = { λ t. is_text (string_bytes t.text) ≡ true };
}

/// Whether each byte is that of a printable ASCII character.
fn are_printable(text: &str) -> bool
    ensures { IsTrue result → All (λ b. (32 ≤ b) × (b ≤ 126)) text.now }
{
    text.bytes().all(|byte| byte >= b' ' && byte <= b'~')
}

/// Whether no character is a control character. Most texts are printable ASCII, and are not spelled
/// out.
fn are_text_characters(text: &str) -> bool
    ensures characters { result ≡ list_all is_text_character (chars text.now) }
    ensures utf8 { is_utf8 text.now ≡ true }
{
    if are_printable(text) {
        return true;
    }
    text.chars().all(|character| !character.is_control())
}

/// Whether the text has the form of a `Text`.
fn is_text(text: &str) -> bool
    ensures { result ≡ is_text text.now }
{
    !text.is_empty() && text.len() <= 200 && are_text_characters(text)
}

impl Text {
    /// The text with these bytes; `None` where they do not have that form, and then no memory is
    /// asked for.
    pub fn read(alloc: Global, text: &str) -> Result<Option<Text>, Memory>
        ensures value { IfOk result (λ t. t ≡ text_named text.now) }
        ensures none { text_named text.now ≡ None → IsOk result }
    {
        if !is_text(text) {
            return Ok(None);
        }
        let text = String::from_str(alloc, text)?;
        Ok(Some(Text { text }))
    }

    /// The text itself, which `read` takes back.
    pub fn text(&self) -> &str
        ensures value { result.now ≡ self.now }
        ensures form { is_text self.now ≡ true }
    {
        self.text.as_str()
    }

    /// A second text that is equal to this one; `Memory` where there is none for it.
    pub fn copy(&self, alloc: Global) -> Result<Text, Memory>
        ensures { IfOk result (λ t. t ≡ self.now) }
    {
        let text = String::from_str(alloc, self.text.as_str())?;
        Ok(Text { text })
    }
}

/// Second texts that are equal to these two.
pub(crate) fn copy_both(alloc: Global, first: &Text, second: &Text) -> Result<(Text, Text), Memory>
    ensures { IfOk result (λ both. (both.0 ≡ first.now) × (both.1 ≡ second.now)) }
{
    let first = first.copy(alloc)?;
    Ok((first, second.copy(alloc)?))
}

impl PartialEq for Text {
    ghost eq = { pointwise nat_eq };

    ghost laws = { partial_equiv_from_equiv nat_list_eq_equiv };

    fn eq(&self, other: &Text) -> bool {
        self.text() == other.text()
    }
}

impl Eq for Text {
    ghost laws = { nat_list_eq_equiv };
}

impl PartialOrd for Text {
    ghost partial_cmp = { λ x y. Some (slice_cmp nat_cmp x y) };

    ghost laws = { texts_po };

    fn partial_cmp(&self, other: &Text) -> Option<Ordering> {
        Some(self.cmp(other))
    }
}

impl Ord for Text {
    ghost cmp = { slice_cmp nat_cmp };

    ghost total = { nat_list_cmp_total };

    ghost matches_partial_cmp = { λ x y. refl };

    ghost matches_eq = { texts_ties };

    fn cmp(&self, other: &Text) -> Ordering {
        self.text().cmp(other.text())
    }
}
