//! Who is asked before each act, with the office as it stands then.
ghost use Rattle.std.specs.Prelude.{◌≡◌, Bool, true};
ghost use Rattle.office_rules.specs.State.{Office};
ghost use Rattle.office_rules.specs.declared.act.Act.{Act};

use office_machine::Machine;
use office_rules::Act;

/// A judge of acts: each is judged in the office in which it is then done.
pub trait Guard {
    ghost permits: { Self → Office → Act → Bool };

    /// Decides whether the act may be done.
    fn permits(&self, machine: &Machine, act: &Act) -> bool
        ensures { result ≡ permits self.now machine.now act.now };
}

/// A guard that permits every act.
#[derive(Drop)]
pub struct NoGuard;

impl Guard for NoGuard {
    ghost permits = { λ guard s act. true };

    fn permits(&self, _machine: &Machine, _act: &Act) -> bool {
        true
    }
}
