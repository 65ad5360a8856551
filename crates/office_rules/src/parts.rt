//! Parts of an act that were read, and which fault is reported of several.
ghost use Rattle.std.specs.Prelude.{◌≡◌, Result, ok_or};
ghost use Rattle.office_base.specs.declared.refusal.Refusal.{Refusal};
ghost use Rattle.office_base.specs.declared.refusal.Refusal.TheVariants.{BadText};
ghost use Rattle.office_records.specs.Codes.{code_named};
ghost use Rattle.office_records.specs.TextForms.{text_named};
ghost use Rattle.office_rules.specs.Parts.{both, IsReadAs};

use crate::ReadFault;
use office_base::{Memory, Refusal};
use office_records::{Code, Text};
use std::alloc::Global;

/// Both parts, or the fault that is to be reported of them: a refusal before lack of memory, and of
/// two refusals that with the least number.
pub fn both<A: Drop, B: Drop>(
    first: Result<A, ReadFault>,
    second: Result<B, ReadFault>,
) -> Result<(A, B), ReadFault>
    ensures { (a : Result A Refusal) (b : Result B Refusal) → IsReadAs a first → IsReadAs b second
        → IsReadAs (both a b) result }
{
    match first {
        Ok(a) => match second {
            Ok(b) => Ok((a, b)),
            Err(fault) => Err(fault),
        },
        Err(fault) => match second {
            Ok(_) => Err(fault),
            Err(other) => Err(fault.min_refusal(other)),
        },
    }
}

/// The code that a text is; else `BadText`.
pub fn read_code(alloc: Global, text: &str) -> Result<Code, ReadFault>
    ensures { IsReadAs (ok_or (code_named text.now) BadText) result }
{
    match Code::read(alloc, text) {
        Ok(Some(code)) => Ok(code),
        Ok(None) => Err(ReadFault::Refused(Refusal::BadText)),
        Err(Memory) => Err(ReadFault::Memory),
    }
}

/// The words that a text is, as of a title; else `BadText`.
pub fn read_words(alloc: Global, text: &str) -> Result<Text, ReadFault>
    ensures { IsReadAs (ok_or (text_named text.now) BadText) result }
{
    match Text::read(alloc, text) {
        Ok(Some(words)) => Ok(words),
        Ok(None) => Err(ReadFault::Refused(Refusal::BadText)),
        Err(Memory) => Err(ReadFault::Memory),
    }
}
