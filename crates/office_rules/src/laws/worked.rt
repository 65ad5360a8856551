//! A small office, worked out by the definitions: where a law names no other, it speaks of the
//! offices of `specs/Worked.antt`.
ghost use Rattle.std.specs.Prelude.{◌≡◌, ◌≢◌, ◌≤ℤ◌, ◌++◌, ℕ, ℤ, true, false, List, [], ◌∷◌, Some, None, codes};
ghost use Rattle.std.specs.FinMap.{get};
ghost use Rattle.sha2.specs.Sha256.{sha256};
ghost use Rattle.office_days.specs.Calendar.{civil};
ghost use Rattle.office_base.specs.declared.refusal.Refusal.TheVariants.{DayBack, Exists, ChildOpen, HeldClass, Ended, NotDue, WrongAction, NoRun, WrongDigest, NotYet};
ghost use Rattle.office_records.specs.Conditions.{first_of};
ghost use Rattle.office_records.specs.Disposal.{counts};
ghost use Rattle.office_records.specs.Tree.{class_of, plan_of, due_of, action_of, status_of, last_addition};
ghost use Rattle.office_records.specs.declared.action.Action.TheVariants as action;
ghost use Rattle.office_records.specs.declared.classified.Classified.TheVariants as classified;
ghost use Rattle.office_records.specs.declared.status.Status.{Status};
ghost use Rattle.office_records.specs.declared.status.Status.TheVariants as status;
ghost use Rattle.office_rules.specs.Holds.{is_held, least_covering};
ghost use Rattle.office_rules.specs.Certificates.{lines_text, date_text, sealed};
ghost use Rattle.office_rules.specs.declared.outcome.Outcome.TheVariants as outcome;
ghost use Rattle.office_rules.specs.Conditions.{refusals_of_add_schedule, refusals_of_add_class, refusals_of_add_aggregation, refusals_of_close_aggregation, refusals_of_confirm, refusals_of_event, refusals_of_open_run, refusals_of_receipt, refusals_of_reclassify, refusals_of_add_record, same_record};
ghost use Rattle.office_rules.specs.Disposing.{outcome_of};
ghost use Rattle.office_rules.specs.Effects.{after_add_record, after_receipt};
ghost use Rattle.office_rules.specs.Meanings.{IsAccepted, IsHeldIn};
ghost use Rattle.office_rules.specs.NewRecords.{NewRecord};
ghost use Rattle.office_rules.specs.Runs.{spent_list};
ghost use Rattle.office_rules.specs.State.{Office, State, empty_office, first_day};
ghost use Rattle.office_rules.specs.Steps.{step_add_record};
ghost use Rattle.office_rules.specs.Worked.{filing_day, filing_due, day_before_due, with_yearly, with_class, class_titled, classed_office, with_root, rooted_office, first_filed, second_filed, base_office, confirmed_office, sent_office, with_record, AsksFor, opening, first_step, second_step, twice_held, once_held, free_again, both_held, one_left, finance_held, ended_office, child_closed, both_closed, ending_entry, twice_added, leap_day, later_day, recording_day, event_due, later_due, day_after_due, event_office, recorded_office, event_confirmed, again_recorded};
ghost use Rattle.office_rules.specs.declared.answer.Answer.TheVariants.{Number, Same, RunClosed, Refused};

/// A child that is open keeps its parent open. Once both are closed and a run has ended the record
/// in the child, both are listed in its certificate; a parent that is open is not.
pub fn law_of_closing()
    ensures child_open { first_of (refusals_of_close_aggregation ended_office filing_due 1)
        ≡ Some ChildOpen }
    ensures child_closed { IsAccepted (refusals_of_close_aggregation child_closed filing_due 1) }
    ensures both { spent_list both_closed.tree (ending_entry ∷ []) ≡ 1 ∷ 2 ∷ [] }
    ensures child { spent_list child_closed.tree (ending_entry ∷ []) ≡ 2 ∷ [] }
{}

/// The last addition to an aggregation is the later of two days, whatever has become of the record
/// of the earlier one.
pub fn law_of_a_last_addition()
    ensures later { (status : Status)
        → last_addition (twice_added status).records 1 ≡ Some filing_due }
    ensures alone { last_addition base_office.tree.records 1 ≡ Some filing_day }
    ensures no_other { (status : Status) → last_addition (twice_added status).records 2 ≡ None }
{}

/// A record that is here and planned to be transferred is sent, held or not. A received record is
/// skipped while it is held, and else its transfer ends. A receipt for a sent record is refused
/// where it reports another digest; with the record's own it is accepted and the record is
/// received; for an ended record it is refused.
pub fn law_of_a_transfer()
    ensures sent { (s : Office) (r : ℕ) → status_of s.tree r ≡ Some status.Here
        → action_of s.tree r ≡ Some action.Transfer → outcome_of s r ≡ Some outcome.Sent }
    ensures skipped { (s : Office) (r : ℕ) → status_of s.tree r ≡ Some status.Received
        → IsHeldIn s r → outcome_of s r ≡ Some outcome.Skipped }
    ensures ended { (s : Office) (r : ℕ) → status_of s.tree r ≡ Some status.Received
        → is_held s.holds s.tree r ≡ false → outcome_of s r ≡ Some outcome.Transferred }
    ensures wrong_digest { (digest : List ℕ) → digest ≢ sha256 (codes "abc")
        → first_of (refusals_of_receipt sent_office filing_day 1 digest) ≡ Some WrongDigest }
    ensures right_digest { IsAccepted
        (refusals_of_receipt sent_office filing_day 1 (sha256 (codes "abc"))) }
    ensures received { (by : List ℕ)
        → status_of (after_receipt sent_office filing_day 1 by).tree 1 ≡ Some status.Received }
    ensures of_ended { (digest : List ℕ)
        → first_of (refusals_of_receipt ended_office filing_day 1 digest) ≡ Some Ended }
{}

/// On any day a new office opens its first run, a step closes it with a certificate that reports no
/// record, and then there is no run to step.
pub fn law_of_a_new_office()
    ensures opened { (day : ℤ) → first_day ≤ℤ day → (opening day).0 ≡ Number 1 }
    ensures closed { (day : ℤ) → first_day ≤ℤ day → (first_step day).0 ≡ RunClosed 1 }
    ensures no_run { (day : ℤ) → first_day ≤ℤ day → (second_step day).0 ≡ Refused NoRun }
    ensures certificate { (day : ℤ) → first_day ≤ℤ day
        → get (first_step day).1.office.certificates 1
        ≡ Some (sealed (lines_text (codes "CERTIFICATE 1" ∷ (codes "DAY " ++ date_text day)
        ∷ codes "BY registrar" ∷ codes "ENDED 0" ∷ codes "SENT 0"
        ∷ codes "SKIPPED 0" ∷ codes "SPENT 0" ∷ []))) }
{}

/// Each act that makes the base office is accepted where it comes.
pub fn law_of_filing()
    ensures schedule { IsAccepted (refusals_of_add_schedule empty_office filing_day (codes "D1")) }
    ensures first_class { IsAccepted
        (refusals_of_add_class with_yearly filing_day (codes "FIN") (class_titled (codes "FIN"))) }
    ensures second_class { IsAccepted (refusals_of_add_class (with_class with_yearly (codes "FIN"))
        filing_day (codes "LEG") (class_titled (codes "LEG"))) }
    ensures first_root { IsAccepted (refusals_of_add_aggregation classed_office filing_day
        (codes "A") None (Some (codes "FIN"))) }
    ensures second_root { IsAccepted (refusals_of_add_aggregation
        (with_root classed_office (codes "A") (codes "FIN")) filing_day (codes "B") None
        (Some (codes "LEG"))) }
    ensures first_record { (new : NewRecord) → AsksFor new (codes "r1") (codes "r1") 1 (codes "abc")
        → IsAccepted (refusals_of_add_record rooted_office filing_day new) }
    ensures second_record { (new : NewRecord) → AsksFor new (codes "r2") (codes "r2") 2 []
        → IsAccepted (refusals_of_add_record first_filed filing_day new) }
    ensures third_record { (new : NewRecord) → AsksFor new (codes "r3") (codes "r3") 1 (codes "abc")
        → IsAccepted (refusals_of_add_record second_filed filing_day new) }
    ensures filed { (s : Office) (new : NewRecord) (name : List ℕ) (parent : ℕ) (bytes : List ℕ)
        → AsksFor new name name parent bytes
        → after_add_record s filing_day new ≡ with_record s name parent bytes }
{}

/// Records take the class of their aggregation and its schedule, and are due one year after they
/// were added. The day before, a confirmation is refused; on the due day it is accepted where it
/// names the plan's action. After it no run of the day before is opened, and it counts for that
/// record alone.
pub fn law_of_the_base_office()
    ensures class { (class_of base_office.tree 1 ≡ Some (codes "FIN"))
        × (class_of base_office.tree 2 ≡ Some (codes "LEG"))
        × (class_of base_office.tree 3 ≡ Some (codes "FIN")) }
    ensures plan { (plan_of base_office.tree 1 ≡ Some (codes "D1"))
        × (plan_of base_office.tree 2 ≡ Some (codes "D1"))
        × (plan_of base_office.tree 3 ≡ Some (codes "D1")) }
    ensures filing { civil filing_day ≡ record { year = 2024; month = 1; day = 2 } }
    ensures due { (due_of base_office.tree 1 ≡ Some filing_due)
        × (due_of base_office.tree 2 ≡ Some filing_due)
        × (due_of base_office.tree 3 ≡ Some filing_due) }
    ensures due_day { civil filing_due ≡ record { year = 2025; month = 1; day = 2 } }
    ensures not_due { first_of (refusals_of_confirm base_office day_before_due 1 action.Destroy)
        ≡ Some NotDue }
    ensures wrong_action { first_of (refusals_of_confirm base_office filing_due 1 action.Transfer)
        ≡ Some WrongAction }
    ensures accepted { IsAccepted (refusals_of_confirm base_office filing_due 1 action.Destroy) }
    ensures day_back { first_of (refusals_of_open_run confirmed_office day_before_due)
        ≡ Some DayBack }
    ensures counted { counts confirmed_office.tree 1 ≡ true }
    ensures not_counted { (counts confirmed_office.tree 2 ≡ false)
        × (counts confirmed_office.tree 3 ≡ false) }
{}

/// A record that is asked for again with the same details is answered by its number, and nothing is
/// done. With another title it is refused, since its ref is there.
pub fn law_of_a_repeated_record()
    ensures same { (new : NewRecord) → AsksFor new (codes "r1") (codes "r1") 1 (codes "abc")
        → same_record base_office new ≡ Some 1 }
    ensures reported { (s : State) (new : NewRecord) → s.office ≡ base_office
        → AsksFor new (codes "r1") (codes "r1") 1 (codes "abc")
        → step_add_record s filing_day new ≡ (Same 1, s) }
    ensures other_title { (new : NewRecord) (title : List ℕ) → title ≢ codes "r1"
        → AsksFor new (codes "r1") title 1 (codes "abc") → same_record base_office new ≡ None }
    ensures refused { (s : State) (new : NewRecord) (title : List ℕ) → s.office ≡ base_office
        → title ≢ codes "r1" → AsksFor new (codes "r1") title 1 (codes "abc")
        → step_add_record s filing_day new ≡ (Refused Exists, s) }
{}

/// A hold on a class holds the records of that class and no others. Of two holds that cover a
/// record the one whose code is first in byte order is reported, and once that is lifted, the
/// other; once its class is taken off that one too, nothing holds the record. Of a hold on two
/// classes from which one is taken off the other one still holds its records. An aggregation may
/// not leave a class that a hold has as a target, and may be given the class that it has.
pub fn law_of_a_held_class()
    ensures held { is_held twice_held.holds twice_held.tree 2 ≡ true }
    ensures not_held { is_held twice_held.holds twice_held.tree 1 ≡ false }
    ensures least { least_covering twice_held.holds twice_held.tree 2 ≡ Some (codes "H-2") }
    ensures after_lifting { least_covering once_held.holds once_held.tree 2 ≡ Some (codes "H-9") }
    ensures after_taking_off { is_held free_again.holds free_again.tree 2 ≡ false }
    ensures both_classes { (is_held both_held.holds both_held.tree 1 ≡ true)
        × (is_held both_held.holds both_held.tree 2 ≡ true) }
    ensures one_class_left { (is_held one_left.holds one_left.tree 1 ≡ true)
        × (is_held one_left.holds one_left.tree 2 ≡ false) }
    ensures leaving { first_of (refusals_of_reclassify finance_held filing_day
        (classified.Aggregation 1) (Some (codes "LEG"))) ≡ Some HeldClass }
    ensures staying { IsAccepted (refusals_of_reclassify finance_held filing_day
        (classified.Aggregation 1) (Some (codes "FIN"))) }
{}

/// A record whose period begins with an event has no due day before one is recorded. An event of
/// 2024-02-29 makes it due on 2026-02-28, on which its destruction is confirmed. An event of the
/// day after the act is refused. A later event makes it due later, and the confirmation does not
/// count any more.
pub fn law_of_a_reported_event()
    ensures not_due { due_of event_office.tree 1 ≡ None }
    ensures accepted { IsAccepted (refusals_of_event event_office recording_day 1 leap_day) }
    ensures days { (civil leap_day ≡ record { year = 2024; month = 2; day = 29 })
        × (civil event_due ≡ record { year = 2026; month = 2; day = 28 }) }
    ensures due { due_of recorded_office.tree 1 ≡ Some event_due }
    ensures confirmed { IsAccepted
        (refusals_of_confirm recorded_office event_due 1 action.Destroy) }
    ensures counted { counts event_confirmed.tree 1 ≡ true }
    ensures not_yet { first_of (refusals_of_event event_confirmed event_due 1 day_after_due)
        ≡ Some NotYet }
    ensures again { IsAccepted (refusals_of_event event_confirmed event_due 1 later_day) }
    ensures later { due_of again_recorded.tree 1 ≡ Some later_due }
    ensures not_counted { counts again_recorded.tree 1 ≡ false }
{}
