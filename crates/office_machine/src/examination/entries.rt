//! What is examined of entries.
ghost use Rattle.std.specs.Prelude.{◌≡◌, ◌≢◌, ◌↔◌, ◌&&◌, ◌||◌, ℕ, IfOk, IsNone, IsSome, IsTrue, MatchOption, Ok, Some, false, if◌then◌else◌, nat_le, not, true};
ghost use Rattle.std.specs.FinMap.{contains_key, from_entries, get, insert, values};
ghost use Rattle.std.specs.List.{All};
ghost use Rattle.std.specs.Option.{is_none, is_some};
ghost use Rattle.std.specs.Ordering.{nat_cmp};
ghost use Rattle.office_records.specs.Disposal.{is_ended};
ghost use Rattle.office_records.specs.Loading.{is_there};
ghost use Rattle.office_records.specs.Lists.{is_some_and, numbered};
ghost use Rattle.office_records.specs.Tree.{has_record, status_of};
ghost use Rattle.office_records.specs.declared.status.Status.TheVariants.{Ended};
ghost use Rattle.office_rules.specs.Outcomes.{is_ending, is_skipping, is_transferring};
ghost use Rattle.office_rules.specs.Loading.{AreEndings, EachHasOneEnding, TwoRunsEndOne, is_entry_right};
ghost use Rattle.office_rules.specs.State.{entry_cmp};

use crate::parts::Parts;
use office_base::Memory;
use office_records::{RecordNo, Status};
use office_rules::{Entry, Outcome, RunNo};
use std::alloc::Global;
use std::collections::BTreeMap;

/// Notes the run of an entry that ended its record under that record; false where another run was
/// there.
fn note_ending(ends: &mut BTreeMap<RecordNo, RunNo>, entry: &Entry) -> Result<bool, Memory>
    ensures other { is_ending entry.now.outcome ≡ false
        → IfOk result (λ is_one. (is_one ≡ true) × (ends.new.entries ≡ ends.old.entries)) }
    ensures ending { is_ending entry.now.outcome ≡ true
        → IfOk result
        (λ is_one. from_entries {R = nat_cmp} ends.new.entries
        ≡ insert (from_entries ends.old.entries) entry.now.record_no entry.now.run) }
    ensures one { is_ending entry.now.outcome ≡ true → result ≡ Ok true → (run : ℕ)
        → get (from_entries {R = nat_cmp} ends.old.entries) entry.now.record_no ≡ Some run
        → run ≡ entry.now.run }
    ensures two { result ≡ Ok false
        → IsTrue (is_ending entry.now.outcome)
        × ((run : ℕ)
        × (get (from_entries {R = nat_cmp} ends.old.entries) entry.now.record_no ≡ Some run)
        × (run ≢ entry.now.run)) }
{
    if !entry.outcome.is_ending() {
        return Ok(true);
    }
    match ends.insert(entry.record_no, entry.run)? {
        Some(run) => Ok(run == entry.run),
        None => Ok(true),
    }
}

/// Whether a run is under the record.
fn is_noted(ends: &BTreeMap<RecordNo, RunNo>, record_no: RecordNo) -> bool
    ensures { result ≡ contains_key (from_entries {R = nat_cmp} ends.now.entries) record_no }
{
    ends.contains_key(&record_no)
}

/// Under each record the run of the entry that ended it; `None` where two runs ended one record.
fn endings(
    alloc: Global,
    entries: &BTreeMap<(RunNo, RecordNo), Entry>,
) -> Result<Option<BTreeMap<RecordNo, RunNo>>, Memory>
    ensures { IfOk result
        (λ found. MatchOption found
        (TwoRunsEndOne (values (from_entries {R = entry_cmp} entries.now.entries)))
        (λ ends. AreEndings (from_entries {R = nat_cmp} ends.entries)
        (values (from_entries {R = entry_cmp} entries.now.entries)))) }
{
    let mut ends = BTreeMap::new(alloc);
    for entry in entries.values() {
        if !note_ending(&mut ends, entry)? {
            return Ok(None);
        }
    }
    Ok(Some(ends))
}

/// Whether a hold is reported exactly of a skipped record.
fn is_hold_reported(entry: &Entry) -> bool
    ensures { result
        ≡ (if is_skipping entry.now.outcome then is_some entry.now.hold
        else is_none entry.now.hold) }
{
    match entry.outcome {
        Outcome::Skipped => entry.hold.is_some(),
        _ => entry.hold.is_none(),
    }
}

impl Parts {
    /// Whether there is a hold of the code, if the entry names one.
    fn is_hold_there(&self, entry: &Entry) -> bool
        ensures { result ≡ is_there self.now.holds entry.now.hold }
    {
        match &entry.hold {
            Some(code) => self.holds.hold(code).is_some(),
            None => true,
        }
    }

    /// Whether the class, the schedule and the hold that the entry names are there.
    fn is_entry_named(&self, entry: &Entry) -> bool
        ensures { result
            ≡ (is_there self.now.tree.classes (Some entry.now.class)
            && is_there self.now.tree.schedules (Some entry.now.schedule)
            && is_there self.now.holds entry.now.hold) }
    {
        self.tree.class(&entry.class).is_some()
            && self.tree.schedule(&entry.schedule).is_some()
            && self.is_hold_there(entry)
    }

    /// Whether the run of the entry is there, and the record not above its cursor.
    fn is_entry_passed(&self, entry: &Entry) -> bool
        ensures { result
            ≡ is_some_and (numbered self.now.runs entry.now.run)
            (λ it. nat_le entry.now.record_no it.cursor) }
    {
        if entry.run == 0 {
            return false;
        }
        match self.runs.get(entry.run as usize - 1) {
            Some(run) => entry.record_no <= run.cursor,
            None => false,
        }
    }

    /// Whether the record of the entry is as its outcome says: it has a receipt where it was
    /// transferred, and is ended where it was ended.
    fn is_outcome_right(&self, entry: &Entry) -> bool
        requires { IsTrue (has_record self.now.tree entry.now.record_no) }
        ensures { result
            ≡ (is_some_and (numbered self.now.tree.records entry.now.record_no)
            (λ head. not (is_transferring entry.now.outcome) || is_some head.receipt)
            && is_some_and (status_of self.now.tree entry.now.record_no)
            (λ status. not (is_ending entry.now.outcome) || is_ended status)) }
    {
        let ended = self.tree.status(entry.record_no) == Status::Ended;
        match entry.outcome {
            Outcome::Transferred => self.tree.record(entry.record_no).receipt.is_some() && ended,
            Outcome::Destroyed => ended,
            Outcome::Sent | Outcome::Skipped => true,
        }
    }

    /// Whether the entry fits what it names: see `is_entry_right`.
    fn is_entry_right(&self, entry: &Entry) -> bool
        ensures { result ≡ is_entry_right self.now entry.now }
    {
        if !self.is_entry_named(entry) {
            return false;
        }
        if !is_hold_reported(entry) {
            return false;
        }
        if !self.is_entry_passed(entry) {
            return false;
        }
        self.tree.has_record(entry.record_no) && self.is_outcome_right(entry)
    }

    /// Whether each entry fits what it names.
    pub(crate) fn are_entries_right(&self) -> bool
        ensures { IsTrue result
            ↔ All (λ e. is_entry_right self.now e ≡ true) (values self.now.entries) }
    {
        for entry in self.entries.values() {
            if !self.is_entry_right(entry) {
                return false;
            }
        }
        true
    }

    /// Whether the record is ended and has no run under it.
    fn lacks_ending(&self, ends: &BTreeMap<RecordNo, RunNo>, record_no: RecordNo) -> bool
        requires { IsTrue (has_record self.now.tree record_no) }
        ensures { result
            ≡ (is_some_and (status_of self.now.tree record_no) is_ended
            && is_none (get (from_entries {R = nat_cmp} ends.now.entries) record_no)) }
    {
        self.tree.status(record_no) == Status::Ended && !is_noted(ends, record_no)
    }

    /// Whether each ended record has a run under it.
    fn has_each_ended(&self, ends: &BTreeMap<RecordNo, RunNo>) -> bool
        ensures yes { IsTrue result → (r : ℕ) → numbered self.now.tree.statuses r ≡ Some Ended
            → IsSome (get (from_entries {R = nat_cmp} ends.now.entries) r) }
        ensures no { result ≡ false
            → (r : ℕ) × (numbered self.now.tree.statuses r ≡ Some Ended)
            × IsNone (get (from_entries {R = nat_cmp} ends.now.entries) r) }
    {
        self.tree.sound();
        for before in 0..self.tree.record_count() {
            if self.lacks_ending(ends, before + 1) {
                return false;
            }
        }
        true
    }

    /// Whether each ended record has exactly one entry that ended it.
    pub(crate) fn have_all_one_ending(&self, alloc: Global) -> Result<bool, Memory>
        ensures yes { result ≡ Ok true
            → EachHasOneEnding self.now.tree.statuses (values self.now.entries) }
        ensures no { result ≡ Ok false
            → EachHasOneEnding self.now.tree.statuses (values self.now.entries) → ⊥ }
    {
        match endings(alloc, &self.entries)? {
            Some(ends) => Ok(self.has_each_ended(&ends)),
            None => Ok(false),
        }
    }
}
