//! What becomes of contents, and that nothing is ended under a hold.
ghost use Rattle.std.specs.Prelude.{◌≡◌, ◌≤◌, ◌==◌, ℕ, suc, true, false, length, Some, None, if◌then◌else◌};
ghost use Rattle.std.specs.FinMap.{get};
ghost use Rattle.office_records.specs.Lists.{is_some_and};
ghost use Rattle.office_rules.specs.Holds.{is_held};
ghost use Rattle.office_rules.specs.Effects.{with_new_record};
ghost use Rattle.office_rules.specs.Meanings.{ended_by};
ghost use Rattle.office_rules.specs.NewRecords.{NewRecord};
ghost use Rattle.office_rules.specs.State.{State};
ghost use Rattle.office_rules.specs.Steps.{step_run_step};
ghost use Rattle.std.specs.Prelude.{ℤ};

/// A record that a step ended was not held before the step.
pub fn law_of_endings()
    ensures free { (s : State) (r : ℕ) → ended_by (step_run_step s).0 ≡ Some r
        → is_held s.office.holds s.office.tree r ≡ false }
{}

/// A step of a run takes away the content of exactly the record that its answer says is ended, and
/// the adding of a record adds its content and leaves the others.
pub fn law_of_contents()
    ensures step { (s : State) (r : ℕ)
        → get (step_run_step s).1.contents r
        ≡ (if is_some_and (ended_by (step_run_step s).0) (λ e. e == r) then None
        else get s.contents r) }
    ensures added { (s : State) (day : ℤ) (new : NewRecord)
        → get (with_new_record s day new).contents (suc (length s.office.tree.records))
        ≡ Some new.content }
    ensures others { (s : State) (day : ℤ) (new : NewRecord) (r : ℕ)
        → r ≤ length s.office.tree.records
        → get (with_new_record s day new).contents r ≡ get s.contents r }
{}
