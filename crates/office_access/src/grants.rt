//! The rights of a name.
ghost use Rattle.std.specs.Prelude.{◌≡◌, false, None};
ghost use Rattle.std.specs.Option.{option_copied};
ghost use Rattle.office_access.specs.Rights.{may_at_all, may_carry_out, may_in, may_read};

use crate::{Kind, Power, Reading, Right};
use office_records::{Code, Text};

/// The rights of a name, and the roles that give these rights. The roles decide nothing.
#[derive(Drop)]
pub struct Grants {
    pub roles: Vec<Text>,
    pub rights: Vec<Right>,
}

impl Grants {
    /// Reports whether a right allows that for a thing of that class; `None` is what lies in no
    /// class, or is not there.
    pub fn may_in(&self, power: Power, class: Option<&Code>) -> bool
        ensures { result ≡ may_in self.now power (option_copied class.entry) }
    {
        self.rights
            .iter()
            .any(|right| right.is_to(power, class, false))
    }

    /// Reports whether a right allows that for some class.
    pub fn may_at_all(&self, power: Power) -> bool
        ensures { result ≡ may_at_all self.now power }
    {
        self.rights.iter().any(|right| right.power.is(power))
    }

    /// Reports whether a right allows to read that of a thing of that class, which a run sent to an
    /// archive or did not.
    pub fn may_read(&self, reading: Reading, class: Option<&Code>, is_sent: bool) -> bool
        ensures { result ≡ may_read self.now reading (option_copied class.entry) is_sent }
    {
        self.rights
            .iter()
            .any(|right| right.is_to(Power::Read(reading), class, is_sent))
    }

    /// Reports whether a right allows to carry out a run, step by step or to its end.
    pub fn may_carry_out(&self) -> bool
        ensures { result ≡ may_carry_out self.now }
    {
        self.may_in(Power::Act(Kind::RunStep), None) || self.may_in(Power::Resume, None)
    }
}
