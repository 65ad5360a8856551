//! The guard of a name at a desk.
use crate::Snapshot;
use office_access::{Policy, SignIn};
use office_days::Day;
use office_desk::Guard;
use office_machine::Machine;
use office_rules::Act;

/// A guard for a name that signed in, on a day, under the settings of that moment.
#[derive(Drop)]
pub struct Keeper<'a> {
    pub policy: &'a Policy,
    pub today: Day,
    pub name: SignIn,
}

impl Guard for Keeper<'_> {
    ghost use Rattle.office_guard.specs.Permitted.{is_permitted};

    ghost permits = { λ keeper s act. is_permitted keeper.policy.now keeper.today keeper.name s act };

    fn permits(&self, machine: &Machine, act: &Act) -> bool {
        self.policy
            .permit(&Snapshot { machine }, self.today, &self.name, act)
            .is_none()
    }
}
