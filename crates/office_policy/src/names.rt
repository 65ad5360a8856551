//! The names of the settings.
ghost use Rattle.std.specs.Prelude.{◌≡◌, ◌++◌, IfOk, OnOk, Some, map};
ghost use Rattle.std.specs.List.{find, flat_map, fold, list_any};
ghost use Rattle.std.specs.Option.{option_copied, option_map, option_to_list};
ghost use Rattle.std.specs.Str.{bytes_eq};
ghost use Rattle.office_policy.specs.Granted.{with_new};
ghost use Rattle.office_policy.specs.People.{named_by, names_of, people_of, person_of, signature_by, signature_of};
ghost use Rattle.office_settings.specs.Files.{same_text, shown_by, signer_of};

use crate::roles::{held, text_of};
use office_access::Person;
use office_base::Memory;
use office_settings::Entry;
use std::alloc::Global;

/// Reports whether the name is one of others.
fn is_one_of(names: &[&[u8]], name: &[u8]) -> bool
    ensures { result ≡ list_any (λ other. bytes_eq name.now other.now) names.now }
{
    names.iter().any(|other| name == *other)
}

/// Reports whether the name is among others.
fn is_among(names: &[&[u8]], name: &[u8]) -> bool
    ensures { result ≡ list_any (bytes_eq name.now) (map (λ w. w.now) names.now) }
{
    is_one_of(names, name)
}

/// Appends a name, unless it is there.
fn push_name<'a>(names: &mut Vec<&'a [u8]>, name: Option<&'a [u8]>) -> Result<(), Memory>
    ensures { OnOk result (map (λ w. w.now) names.new.items
        ≡ with_new (map (λ w. w.now) names.old.items) (option_copied name.entry)) }
{
    match name {
        Some(name) => {
            if is_among(names, name) {
                return Ok(());
            }
            names.push(name)?;
            Ok(())
        }
        None => Ok(()),
    }
}

/// Collects the names that have roles, each once, in the order of their lines.
fn names_of<'a>(alloc: Global, entries: &[Entry<'a>]) -> Result<Vec<&'a [u8]>, Memory>
    ensures { IfOk result (λ names. map (λ w. w.now) names.items ≡ names_of entries.now) }
{
    let mut names = Vec::new(alloc);
    for entry in entries {
        push_name(&mut names, entry.statement().holder())?;
    }
    Ok(names)
}

/// Finds the line that says what a name signs.
fn signs_line<'b, 'a>(entries: &'b [Entry<'a>], name: &[u8]) -> Option<&'b Entry<'a>>
    ensures { option_copied result
        ≡ find (λ entry. same_text (signer_of entry.line) (Some name.now)) entries.now }
{
    entries.iter().find(|entry| entry.is_of_signer(name))
}

/// Returns what a name signs: the text of its line, or else the name.
fn signature_of(alloc: Global, entries: &[Entry], name: &[u8]) -> Result<Vec<u8>, Memory>
    ensures { IfOk result (λ text. text.items ≡ signature_of entries.now name.now) }
{
    match signs_line(entries, name) {
        Some(entry) => Ok(entry.statement().shown(alloc)?),
        None => Ok(Vec::from_slice(alloc, name)?),
    }
}

/// Makes the person of a name.
fn person_of(alloc: Global, entries: &[Entry], name: &[u8]) -> Result<Option<Person>, Memory>
    ensures { IfOk result (λ person. option_map named_by person ≡ person_of entries.now name.now) }
{
    let signature = signature_of(alloc, entries, name)?;
    let own = match text_of(alloc, name)? {
        Some(own) => own,
        None => return Ok(None),
    };
    let signs = match text_of(alloc, &signature)? {
        Some(signs) => signs,
        None => return Ok(None),
    };
    let grants = held(alloc, entries, Some(name))?;
    Ok(Some(Person {
        name: own,
        signs,
        grants,
    }))
}

/// Appends a person, if there is one.
fn push_person(people: &mut Vec<Person>, person: Option<Person>) -> Result<(), Memory>
    ensures { OnOk result (map named_by people.new.items
        ≡ map named_by people.old.items ++ option_to_list (option_map named_by person)) }
{
    if let Some(person) = person {
        people.push(person)?;
    }
    Ok(())
}

/// Makes the persons of names.
fn people_named(alloc: Global, entries: &[Entry], names: &[&[u8]]) -> Result<Vec<Person>, Memory>
    ensures { IfOk result (λ people. map named_by people.items
        ≡ flat_map (λ name. option_to_list (person_of entries.now name.now)) names.now) }
{
    let mut people = Vec::new(alloc);
    for name in names {
        let person = person_of(alloc, entries, name)?;
        push_person(&mut people, person)?;
    }
    Ok(people)
}

/// Makes the persons of all names.
pub(crate) fn people_of(alloc: Global, entries: &[Entry]) -> Result<Vec<Person>, Memory>
    ensures { IfOk result (λ people. map named_by people.items ≡ people_of entries.now) }
{
    let names = names_of(alloc, entries)?;
    people_named(alloc, entries, &names)
}
