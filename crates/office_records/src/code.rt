//! Codes of schedules, classes and holds.
ghost use Rattle.std.specs.Prelude.{◌≡◌, true, IfOk, IsOk, None, Some, nat_eq, refl};
ghost use Rattle.std.specs.Cmp.{partial_equiv_from_equiv};
ghost use Rattle.std.specs.Cmp.Lexicographic.{pointwise, slice_cmp, nat_list_eq_equiv, nat_list_cmp_total, texts_ties, texts_po};
ghost use Rattle.std.specs.List.{list_all};
ghost use Rattle.std.specs.Ordering.{nat_cmp};
ghost use Rattle.office_records.specs.Codes.{code_named, is_code, is_code_byte};

use office_base::Memory;
use std::alloc::Global;
use std::cmp::Ordering;
use std::marker::Model;

/// A short name of its own: 1 to 16 ASCII letters, digits and hyphens, where case counts.
/// Contracts see its bytes, and codes are in the order of their bytes.
#[derive(Debug, Drop)]
pub struct Code {
    text: String,
}

impl Model for Code {
    ghost use Rattle.std.specs.Prelude.{◌≡◌, List, ℕ, true};
    ghost use Rattle.std.specs.String.{string_bytes};
    ghost use Rattle.office_records.specs.Codes.{is_code};

    ghost Value = { List ℕ };

    ghost view = { λ code. string_bytes code.text };

    ghost invariant = { λ code. is_code (string_bytes code.text) ≡ true };
}

/// Whether each byte is an ASCII letter, a digit or a hyphen.
fn are_code_bytes(text: &str) -> bool
    ensures { result ≡ list_all is_code_byte text.now }
{
    text.bytes()
        .all(|byte| byte.is_ascii_alphanumeric() || byte == b'-')
}

/// Whether the text is a code.
fn is_code(text: &str) -> bool
    ensures { result ≡ is_code text.now }
{
    !text.is_empty() && text.len() <= 16 && are_code_bytes(text)
}

impl Code {
    /// The code that a text is; `None` where it is none, and then no memory is asked for.
    pub fn read(alloc: Global, text: &str) -> Result<Option<Code>, Memory>
        ensures value { IfOk result (λ c. c ≡ code_named text.now) }
        ensures none { code_named text.now ≡ None → IsOk result }
    {
        if !is_code(text) {
            return Ok(None);
        }
        let text = String::from_str(alloc, text)?;
        Ok(Some(Code { text }))
    }

    /// The code as a text, which `read` takes back.
    pub fn text(&self) -> &str
        ensures value { result.now ≡ self.now }
        ensures code { is_code self.now ≡ true }
    {
        self.text.as_str()
    }

    /// A second code that is equal to this one; `Memory` where there is none for it.
    pub fn copy(&self, alloc: Global) -> Result<Code, Memory>
        ensures { IfOk result (λ c. c ≡ self.now) }
    {
        let text = String::from_str(alloc, self.text.as_str())?;
        Ok(Code { text })
    }
}

/// A second code that is equal to this one, if there is one.
pub(crate) fn copy_code(alloc: Global, code: &Option<Code>) -> Result<Option<Code>, Memory>
    ensures { IfOk result (λ c. c ≡ code.now) }
{
    match code {
        Some(code) => Ok(Some(code.copy(alloc)?)),
        None => Ok(None),
    }
}

impl PartialEq for Code {
    ghost eq = { pointwise nat_eq };

    ghost laws = { partial_equiv_from_equiv nat_list_eq_equiv };

    fn eq(&self, other: &Code) -> bool {
        self.text() == other.text()
    }
}

impl Eq for Code {
    ghost laws = { nat_list_eq_equiv };
}

impl PartialOrd for Code {
    ghost partial_cmp = { λ x y. Some (slice_cmp nat_cmp x y) };

    ghost laws = { texts_po };

    fn partial_cmp(&self, other: &Code) -> Option<Ordering> {
        Some(self.cmp(other))
    }
}

impl Ord for Code {
    ghost cmp = { slice_cmp nat_cmp };

    ghost total = { nat_list_cmp_total };

    ghost matches_partial_cmp = { λ x y. refl };

    ghost matches_eq = { texts_ties };

    fn cmp(&self, other: &Code) -> Ordering {
        self.text().cmp(other.text())
    }
}
