//! A record that is asked for again.
ghost use Rattle.std.specs.Prelude.{◌≡◌, ℕ, ℤ, List, Some};
ghost use Rattle.office_records.specs.Lists.{numbered};
ghost use Rattle.office_rules.specs.Acts.{after, answers, step};
ghost use Rattle.office_rules.specs.NewRecords.{NewRecord, add_record};
ghost use Rattle.office_rules.specs.State.{State};
ghost use Rattle.office_rules.specs.declared.act.Act.{Act};
ghost use Rattle.office_rules.specs.declared.answer.Answer.TheVariants.{Number, Same};

/// A record that an act of a list added is answered by its number wherever it is asked for again,
/// on whatever day: after that list and any further acts, also once the record has ended; and
/// nothing changes. So it is of each act of another list that asks for it: the same import again
/// reports of each record that was added that it is there.
pub fn law_of_repeated_records()
    ensures reported { (s : State) (acts more : List Act) (k n : ℕ) (day later : ℤ)
        (new : NewRecord) → numbered acts k ≡ Some (add_record day new)
        → numbered (answers s acts) k ≡ Some (Number n)
        → step (after (after s acts) more) (add_record later new)
        ≡ (Same n, after (after s acts) more) }
    ensures again { (s : State) (acts more others : List Act) (k j n : ℕ) (day later : ℤ)
        (new : NewRecord) → numbered acts k ≡ Some (add_record day new)
        → numbered (answers s acts) k ≡ Some (Number n)
        → numbered others j ≡ Some (add_record later new)
        → numbered (answers (after (after s acts) more) others) j ≡ Some (Same n) }
{}
