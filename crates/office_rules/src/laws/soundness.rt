//! Each act keeps the office sound, and so does each step of a run.
ghost use Rattle.office_rules.specs.Acts.{step};
ghost use Rattle.office_rules.specs.Forms.{IsWellFormedAct};
ghost use Rattle.office_rules.specs.Sound.{IsSound};
ghost use Rattle.office_rules.specs.State.{State, empty_state};
ghost use Rattle.office_rules.specs.declared.act.Act.{Act};

/// From a sound state any of the eighteen acts, with members of their forms, leads to a sound
/// state, refused or not; and the empty office is sound.
pub fn law_of_soundness()
    ensures empty { IsSound empty_state }
    ensures step { (s : State) (a : Act) → IsSound s → IsWellFormedAct a → IsSound (step s a).1 }
{}
