//! The policy of settings.
ghost use Rattle.std.specs.Prelude.{◌≡◌, ◌++◌, IfOk, OnOk, map};
ghost use Rattle.std.specs.List.{flat_map};
ghost use Rattle.std.specs.Option.{option_to_list};
ghost use Rattle.office_policy.specs.Policies.{HasPolicy, looks_of};
ghost use Rattle.office_policy.specs.Rules.{rules_of};

use crate::names::people_of;
use crate::others::others_of;
use crate::roles::text_of;
use crate::rules::rules_of;
use office_access::Policy;
use office_base::Memory;
use office_records::Text;
use office_settings::Entry;
use std::alloc::Global;

/// Appends a text, if there is one.
fn push_text(texts: &mut Vec<Text>, text: Option<Text>) -> Result<(), Memory>
    ensures { OnOk result (texts.new.items ≡ texts.old.items ++ option_to_list text) }
{
    if let Some(text) = text {
        texts.push(text)?;
    }
    Ok(())
}

/// Appends how the name of a line, or the text that it signs, looks.
fn push_look(alloc: Global, looks: &mut Vec<Text>, entry: &Entry) -> Result<(), Memory>
    ensures { OnOk result (looks.new.items ≡ looks.old.items ++ looks_of entry.now) }
{
    if entry.statement().owner().is_none() {
        return Ok(());
    }
    let look = text_of(alloc, entry.look().as_bytes())?;
    push_text(looks, look)
}

/// Collects how names and the texts that they sign look.
fn looks_of(alloc: Global, entries: &[Entry]) -> Result<Vec<Text>, Memory>
    ensures { IfOk result (λ looks. looks.items ≡ flat_map looks_of entries.now) }
{
    let mut looks = Vec::new(alloc);
    for entry in entries {
        push_look(alloc, &mut looks, entry)?;
    }
    Ok(looks)
}

/// Makes the policy of settings: each name with the rights that the lines give it, and the rules.
/// Returns `None` if a name or a text is that of another name.
pub fn policy_of(alloc: Global, entries: &[Entry]) -> Result<Option<Policy>, Memory>
    ensures { IfOk result (λ policy. HasPolicy entries.now policy) }
{
    let people = people_of(alloc, entries)?;
    let taken = looks_of(alloc, entries)?;
    let others = others_of(alloc, entries)?;
    Ok(Policy::new(people, taken, others, rules_of(entries)))
}
