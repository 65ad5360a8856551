//! The settings of an office: names, rights and rules.
ghost use Rattle.std.specs.Prelude.{◌≡◌, true, Some, None, if◌then◌else◌};
ghost use Rattle.std.specs.List.{list_all, list_any};
ghost use Rattle.std.specs.Str.{bytes_eq};
ghost use Rattle.std.specs.Option.{option_copied};
ghost use Rattle.office_access.specs.Settings.{are_apart, goes_by, grants_of, is_apart, is_taken, person_named, signs};

use crate::{Grants, Person, Rules, SignIn};
use office_records::Text;
use std::marker::Model;

/// Who may do what. Contracts see `Settings`, in which names differ, signatures differ, and no name
/// is the signature of another.
#[derive(Drop)]
pub struct Policy {
    people: Vec<Person>,
    taken: Vec<Text>,
    others: Option<Grants>,
    rules: Rules,
}

impl Model for Policy {
    ghost use Rattle.std.specs.Prelude.{◌≡◌, true};
    ghost use Rattle.office_access.specs.Settings.{Settings, are_apart};

    ghost Value = { Settings };

    ghost view = { λ p. record {
      people = p.people.items;
      taken = p.taken.items;
      others = p.others;
      rules = p.rules;
    } };

    ghost invariant = { λ p. are_apart p.people.items ≡ true };
}

/// Reports whether the name and the signature of the person are those of none of the others.
fn is_apart_from_all(person: &Person, others: &[Person]) -> bool
    ensures { result ≡ list_all (is_apart person.now) others.now }
{
    others.iter().all(|other| !other.goes_by(&person.name) && !other.goes_by(&person.signs))
}

/// Reports whether names differ, signatures differ, and no name is the signature of another.
pub fn are_apart(people: &[Person]) -> bool
    ensures { result ≡ are_apart people.now }
{
    for (index, person) in people.iter().enumerate() {
        if !is_apart_from_all(person, &people[index + 1..]) {
            return false;
        }
    }
    true
}

/// Reports whether the text is the name or the signature of one of the persons.
fn is_known(people: &[Person], text: &Text) -> bool
    ensures { result ≡ list_any (goes_by text.now) people.now }
{
    people.iter().any(|person| person.goes_by(text))
}

/// Reports whether one of the names and signatures has that look.
fn is_look_taken(taken: &[Text], look: &Text) -> bool
    ensures { result ≡ list_any (bytes_eq look.now) taken.now }
{
    taken.iter().any(|other| *look == *other)
}

impl Policy {
    /// Makes a policy of the names with their rights, of the looks of all names and signatures, of
    /// the rights of every other name, and of the rules. Returns `None` if two names or two
    /// signatures are equal, or a name is the signature of another.
    pub fn new(
        people: Vec<Person>,
        taken: Vec<Text>,
        others: Option<Grants>,
        rules: Rules,
    ) -> Option<Policy>
        ensures { result
            ≡ (if are_apart people.items
            then Some (record {
              people = people.items;
              taken = taken.items;
              others = others;
              rules = rules;
            })
            else None) }
    {
        if !are_apart(&people) {
            return None;
        }
        Some(Policy {
            people,
            taken,
            others,
            rules,
        })
    }

    /// The rules of four eyes.
    pub fn rules(&self) -> &Rules
        ensures { result.now ≡ self.now.rules }
    {
        &self.rules
    }

    /// Finds the person of the settings with that name.
    pub fn person(&self, name: &Text) -> Option<&Person>
        ensures { option_copied result ≡ person_named self.now name.now }
    {
        self.people.iter().find(|person| person.name == *name)
    }

    /// Reports whether a name or a signature of the settings has the text or the look of the name.
    fn is_taken(&self, name: &SignIn) -> bool
        ensures { result ≡ is_taken self.now name.now }
    {
        is_known(&self.people, &name.name) || is_look_taken(&self.taken, &name.look)
    }

    /// Finds the rights of a name: its own, or those of every other name.
    pub fn grants(&self, name: &SignIn) -> Option<&Grants>
        ensures { option_copied result ≡ grants_of self.now name.now }
    {
        match self.person(&name.name) {
            Some(person) => Some(&person.grants),
            None => {
                if self.is_taken(name) {
                    None
                } else {
                    self.others.as_ref()
                }
            }
        }
    }

    /// The text that the office records as `by` for the name.
    pub fn signature<'a>(&'a self, name: &'a SignIn) -> &'a Text
        ensures { result.now ≡ signs self.now name.now }
    {
        match self.person(&name.name) {
            Some(person) => &person.signs,
            None => &name.name,
        }
    }
}
