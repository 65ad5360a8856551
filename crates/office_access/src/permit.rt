//! Whether an act is permitted to a name.
ghost use Rattle.std.specs.Prelude.{◌≡◌, if◌then◌else◌};
ghost use Rattle.std.specs.Option.{option_copied};
ghost use Rattle.office_access.specs.Permits.{denial_of, file_denial_of, first_denial, is_timely, lasting_denial_of, lasting_denials, reading_denial_of, resumption_denial_of, right_denials};

use crate::act_kind::{day_of, is_signed, kind_of};
use crate::eyes::is_opener;
use crate::{Denial, Grants, OfficeView, Policy, Power, Reading, Rule, SignIn};
use office_days::Day;
use office_records::{Code, Text};
use office_rules::Act;

impl Grants {
    /// Reports whether the day, if there is one, is not after today, or a later day is allowed.
    fn is_timely(&self, today: Day, day: Option<Day>) -> bool
        ensures { result ≡ is_timely today self.now day }
    {
        match day {
            Some(day) => day.number() <= today.number() || self.may_in(Power::LaterDay, None),
            None => true,
        }
    }

    /// Finds why the rights allow the act in no office, if they do not: of several reasons the
    /// first.
    fn deny_everywhere(&self, today: Day, signs: &Text, act: &Act) -> Option<Denial>
        ensures { result ≡ first_denial (lasting_denials today signs.now self.now act.now) }
    {
        if !self.may_at_all(Power::Act(kind_of(act))) {
            return Some(Denial::Right);
        }
        if !is_signed(act, signs) {
            return Some(Denial::By);
        }
        if !self.is_timely(today, day_of(act)) {
            return Some(Denial::Future);
        }
        None
    }

    /// Finds why the rights do not allow the act, if they do not: of several reasons the first.
    fn deny<V: OfficeView>(&self, office: &V, today: Day, signs: &Text, act: &Act) -> Option<Denial>
        ensures { result
            ≡ first_denial (right_denials (V.office office.now) today signs.now self.now act.now) }
    {
        if let Some(denial) = self.deny_everywhere(today, signs, act) {
            return Some(denial);
        }
        if !self.may_in_all(office.tree(), Power::Act(kind_of(act)), act) {
            return Some(Denial::Class);
        }
        None
    }
}

impl Policy {
    /// Finds why the act is denied to the name on that day, if it is: of several reasons the first.
    /// Takes no memory.
    pub fn permit<V: OfficeView>(
        &self,
        office: &V,
        today: Day,
        name: &SignIn,
        act: &Act,
    ) -> Option<Denial>
        ensures { result ≡ denial_of self.now (V.office office.now) today name.now act.now }
    {
        let grants = match self.grants(name) {
            Some(grants) => grants,
            None => return Some(Denial::Name),
        };
        let signs = self.signature(name);
        match grants.deny(office, today, signs, act) {
            Some(denial) => Some(denial),
            None => self.rules().deny_by_rule(office, signs, grants, act),
        }
    }

    /// Finds why the act is denied to the name on that day in whatever office, if it is: of several
    /// reasons the first. Takes no memory. What [`Policy::permit`] asks of the office, the classes
    /// and the rules of four eyes, is not asked here.
    pub fn permit_anywhere(&self, today: Day, name: &SignIn, act: &Act) -> Option<Denial>
        ensures { result ≡ lasting_denial_of self.now today name.now act.now }
    {
        match self.grants(name) {
            Some(grants) => grants.deny_everywhere(today, self.signature(name), act),
            None => Some(Denial::Name),
        }
    }

    /// Finds why it is denied to the name to carry out the open run to its end, if it is.
    pub fn permit_resumption<V: OfficeView>(&self, office: &V, name: &SignIn) -> Option<Denial>
        ensures { result ≡ resumption_denial_of self.now (V.office office.now) name.now }
    {
        let Some(grants) = self.grants(name) else {
            return Some(Denial::Name);
        };
        if !grants.may_in(Power::Resume, None) {
            return Some(Denial::Right);
        }
        if self.rules().opener_does_not_carry_out && is_opener(office, self.signature(name)) {
            return Some(Denial::Eyes(Rule::OpenerDoesNotCarryOut));
        }
        None
    }

    /// Finds why it is denied to the name to put a file into the vault, if it is.
    pub fn permit_file(&self, name: &SignIn) -> Option<Denial>
        ensures { result ≡ file_denial_of self.now name.now }
    {
        match self.grants(name) {
            None => Some(Denial::Name),
            Some(grants) => {
                if grants.may_at_all(Power::Vault) {
                    None
                } else {
                    Some(Denial::Right)
                }
            }
        }
    }

    /// Finds why it is denied to the name to read that of a thing of that class, if it is. `None`
    /// is what lies in no class. `is_sent` says whether a run sent the thing to an archive and none
    /// ended it.
    pub fn permit_reading(
        &self,
        name: &SignIn,
        reading: Reading,
        class: Option<&Code>,
        is_sent: bool,
    ) -> Option<Denial>
        ensures { result
            ≡ reading_denial_of self.now name.now reading (option_copied class.entry) is_sent }
    {
        let Some(grants) = self.grants(name) else {
            return Some(Denial::Name);
        };
        if !grants.may_at_all(Power::Read(reading)) {
            return Some(Denial::Right);
        }
        if !grants.may_read(reading, class, is_sent) {
            return Some(Denial::Class);
        }
        None
    }
}
