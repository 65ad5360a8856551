//! What is held stays held, but for an act that takes a target off a hold or lifts one.
ghost use Rattle.std.specs.Prelude.{◌≡◌, ℕ, false};
ghost use Rattle.office_rules.specs.Acts.{may_release, step};
ghost use Rattle.office_rules.specs.Meanings.{IsHeldIn};
ghost use Rattle.office_rules.specs.Sound.{IsSound};
ghost use Rattle.office_rules.specs.State.{State};
ghost use Rattle.office_rules.specs.declared.act.Act.{Act};

/// A record that is held in a sound state is held after each of the eighteen acts but `hold-off`
/// and `lift-hold`, refused or not; a step of a run is one of them.
pub fn law_of_lasting_holds()
    ensures step { (s : State) (a : Act) (held : ℕ) → IsSound s → may_release a ≡ false
        → IsHeldIn s.office held → IsHeldIn (step s a).1.office held }
{}
