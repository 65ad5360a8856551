//! Second texts and codes that are equal to the first, often in pairs, so that few are left over
//! where memory is refused.
ghost use Rattle.std.specs.Prelude.{◌≡◌, IfOk};
ghost use Rattle.std.specs.Option.{option_copied};

use crate::Entry;
use office_base::Memory;
use office_records::{Code, Text};
use std::alloc::Global;

/// A second code that is equal to this one, if there is one; `Memory` where there is none for it.
pub fn copy_code(alloc: Global, code: Option<&Code>) -> Result<Option<Code>, Memory>
    ensures { IfOk result (λ c. c ≡ option_copied code.entry) }
{
    match code {
        Some(code) => Ok(Some(code.copy(alloc)?)),
        None => Ok(None),
    }
}

/// A second text that is equal to this one, if there is one; `Memory` where there is none for it.
pub fn copy_text(alloc: Global, text: Option<&Text>) -> Result<Option<Text>, Memory>
    ensures { IfOk result (λ t. t ≡ option_copied text.entry) }
{
    match text {
        Some(text) => Ok(Some(text.copy(alloc)?)),
        None => Ok(None),
    }
}

/// Two texts that are equal to these; `Memory` where there is none for them.
pub fn copy_texts(alloc: Global, one: &Text, other: &Text) -> Result<(Text, Text), Memory>
    ensures { IfOk result (λ p. p ≡ (one.now, other.now)) }
{
    let text = one.copy(alloc)?;
    Ok((text, other.copy(alloc)?))
}

/// Two codes that are equal to these; `Memory` where there is none for them.
pub fn copy_codes(alloc: Global, one: &Code, other: &Code) -> Result<(Code, Code), Memory>
    ensures { IfOk result (λ p. p ≡ (one.now, other.now)) }
{
    let code = one.copy(alloc)?;
    Ok((code, other.copy(alloc)?))
}

/// A class and a schedule that are equal to these, each if there is one; `Memory` where there is
/// none for them.
pub fn copy_plan(
    alloc: Global,
    class: &Option<Code>,
    schedule: &Option<Code>,
) -> Result<(Option<Code>, Option<Code>), Memory>
    ensures { IfOk result (λ p. p ≡ (class.now, schedule.now)) }
{
    let class = copy_code(alloc, class.as_ref())?;
    Ok((class, copy_code(alloc, schedule.as_ref())?))
}

/// A second entry that is equal to this one; `Memory` where there is none for it.
pub fn copy_entry(alloc: Global, entry: &Entry) -> Result<Entry, Memory>
    ensures { IfOk result (λ e. e ≡ entry.now) }
{
    let confirmed_by = entry.confirmed_by.copy(alloc)?;
    let hold = copy_code(alloc, entry.hold.as_ref())?;
    let (class, schedule) = copy_codes(alloc, &entry.class, &entry.schedule)?;
    Ok(Entry {
        run: entry.run,
        record_no: entry.record_no,
        outcome: entry.outcome,
        class,
        schedule,
        due: entry.due,
        confirmed_by,
        hold,
    })
}
