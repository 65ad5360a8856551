//! What refuses an act: of its conditions that hold, the one with the least number.
ghost use Rattle.office_records.specs.Conditions.{IsLeastOf, first_of};
ghost use Rattle.office_rules.specs.Refusals.{IsAnsweredInOrder, refusals_of};
ghost use Rattle.office_rules.specs.State.{Office, State};
ghost use Rattle.office_rules.specs.declared.act.Act.{Act};

/// For each of the eighteen acts: the first condition of its table that holds has the least number
/// of all that hold, and there is none exactly where no condition holds. It is what the act is
/// answered, but for a record that is there already; and a refused act changes nothing.
pub fn law_of_the_least_refusal()
    ensures least { (s : Office) (a : Act)
        → IsLeastOf (refusals_of s a) (first_of (refusals_of s a)) }
    ensures answered { (s : State) (a : Act) → IsAnsweredInOrder s a }
{}
