//! One right.
ghost use Rattle.std.specs.Prelude.{◌≡◌, ◌||◌, not};
ghost use Rattle.std.specs.List.{list_all, list_any};
ghost use Rattle.std.specs.Option.{option_copied};
ghost use Rattle.office_access.specs.Rights.{covers, fits, is_in, is_right};

use crate::{ClassPattern, Power};
use office_records::Code;

/// The classes to which one line of the settings limits a right.
#[derive(Drop)]
pub struct ClassList {
    pub patterns: Vec<ClassPattern>,
}

/// A right to one thing. Each limit names classes, and all limits count: that of the role, and that
/// of the name. A right without limits covers everything.
#[derive(Drop)]
pub struct Right {
    pub power: Power,
    pub limits: Vec<ClassList>,
    /// Whether the right covers only what a run sent to an archive, and has not ended.
    pub is_for_sent: bool,
}

impl ClassList {
    /// Reports whether the list names the class.
    fn has(&self, class: &Code) -> bool
        ensures { result ≡ list_any (fits class.now) self.now.patterns.items }
    {
        self.patterns.iter().any(|pattern| pattern.fits(class))
    }

    /// Reports whether the list names the class; no list names what lies in no class.
    fn is_in(&self, class: Option<&Code>) -> bool
        ensures { result ≡ is_in (option_copied class.entry) self.now }
    {
        match class {
            Some(class) => self.has(class),
            None => false,
        }
    }
}

impl Right {
    /// Reports whether the right covers what was sent, or what was not.
    fn is_for(&self, is_sent: bool) -> bool
        ensures { result ≡ (is_sent || not self.now.is_for_sent) }
    {
        is_sent || !self.is_for_sent
    }

    /// Reports whether each limit of the right names the class.
    fn is_limited_to(&self, class: Option<&Code>) -> bool
        ensures { result ≡ list_all (is_in (option_copied class.entry)) self.now.limits.items }
    {
        self.limits.iter().all(|limit| limit.is_in(class))
    }

    /// Reports whether the right covers a thing of that class, sent or not.
    fn covers(&self, class: Option<&Code>, is_sent: bool) -> bool
        ensures { result ≡ covers (option_copied class.entry) is_sent self.now }
    {
        self.is_for(is_sent) && self.is_limited_to(class)
    }

    /// Reports whether the right allows that for a thing of that class, sent or not.
    pub fn is_to(&self, power: Power, class: Option<&Code>, is_sent: bool) -> bool
        ensures { result ≡ is_right power (option_copied class.entry) is_sent self.now }
    {
        self.power.is(power) && self.covers(class, is_sent)
    }
}
