//! What is examined of runs, certificates and the keys of contents.
ghost use Rattle.std.specs.Prelude.{◌≡◌, ◌↔◌, ◌<◌, ◌^◌, ◌≤ℤ◌, ℕ, IsTrue, Some, true, false, length, not, slice_get};
ghost use Rattle.std.specs.BTreeMap as map;
ghost use Rattle.std.specs.FinMap.{contains_key, from_entries, get};
ghost use Rattle.std.specs.List.{All};
ghost use Rattle.std.specs.List.Sorted.{IsStrictlySortedBy};
ghost use Rattle.std.specs.Ordering.{nat_cmp};
ghost use Rattle.office_days.specs.Limits.{IsDayNumber};
ghost use Rattle.office_records.specs.Disposal.{is_ended};
ghost use Rattle.office_records.specs.Lists.{is_some_and, numbered};
ghost use Rattle.office_records.specs.declared.status.Status.{Status};
ghost use Rattle.office_rules.specs.Loading.{AreActiveKeys, AreRunsBy};
ghost use Rattle.office_rules.specs.Sound.{IsWellFormedRun, RunsAgree};
ghost use Rattle.office_rules.specs.declared.run.Run.{Run};
ghost use Rattle.office_rules.specs.EntryForms.{IsWellFormedEntry};
ghost use Rattle.office_rules.specs.declared.entry.Entry.{Entry};
ghost use Rattle.office_machine.specs.Keys.{bare_contents};

use crate::certificate::Certificate;
use crate::parts::Parts;
use office_days::Day;
use office_records::{RecordNo, Status};
use office_rules::{Entry, Run, RunNo};
use office_tree::Tree;
use std::collections::BTreeMap;

/// Whether all these runs are closed.
fn are_closed(runs: &[Run]) -> bool
    ensures { IsTrue result ↔ All (λ it. it.is_closed ≡ true) runs.now }
{
    runs.iter().all(|run| run.is_closed)
}

/// Whether each run but the last is closed.
fn are_earlier_closed(runs: &[Run]) -> bool
    ensures yes { IsTrue result → (run : ℕ) (it : Run) → numbered runs.now run ≡ Some it
        → it.is_closed ≡ false → run ≡ length runs.now }
    ensures no { result ≡ false
        → ((run : ℕ) (it : Run) → numbered runs.now run ≡ Some it → it.is_closed ≡ false
        → run ≡ length runs.now) → ⊥ }
{
    match runs.split_last() {
        Some((_, earlier)) => are_closed(earlier),
        None => true,
    }
}

/// Whether the run of that number is there and closed.
fn is_closed(runs: &[Run], run: RunNo) -> bool
    ensures { result ≡ is_some_and (numbered runs.now run) (λ it. it.is_closed) }
{
    1 <= run && run as usize <= runs.len() && runs[run as usize - 1].is_closed
}

/// Whether each certificate is of a closed run.
fn are_of_closed_runs(runs: &[Run], certificates: &BTreeMap<RunNo, Certificate>) -> bool
    ensures { IsTrue result
        ↔ All (λ run. is_some_and (numbered runs.now run) (λ it. it.is_closed) ≡ true)
        (map.keys certificates.now) }
{
    certificates.keys().all(|run| is_closed(runs, *run))
}

/// The number of a run is one of 32 bits.
fn well_formed_number(run: RunNo)
    ensures { run < 2 ^ 32 }
{
    let _ = run;
}

/// So is the number of each run that has a certificate.
fn well_formed_numbers(certificates: &BTreeMap<RunNo, Certificate>)
    ensures { All (λ run. run < 2 ^ 32) (map.keys certificates.now) }
{
    for run in certificates.keys() {
        well_formed_number(*run);
    }
}

/// Whether there is a certificate of the run of that number.
fn is_certified(certificates: &BTreeMap<RunNo, Certificate>, run: usize) -> bool
    ensures { result ≡ contains_key (from_entries {R = nat_cmp} certificates.now.entries) run }
{
    match RunNo::try_from(run) {
        Ok(run) => certificates.contains_key(&run),
        Err(_) => {
            well_formed_numbers(certificates);
            false
        }
    }
}

/// Whether each closed run has a certificate.
fn are_closed_certified(runs: &[Run], certificates: &BTreeMap<RunNo, Certificate>) -> bool
    ensures yes { IsTrue result → (run : ℕ) (it : Run) → numbered runs.now run ≡ Some it
        → it.is_closed ≡ true
        → contains_key (from_entries {R = nat_cmp} certificates.now.entries) run ≡ true }
    ensures no { result ≡ false
        → ((run : ℕ) (it : Run) → numbered runs.now run ≡ Some it → it.is_closed ≡ true
        → contains_key (from_entries {R = nat_cmp} certificates.now.entries) run ≡ true) → ⊥ }
{
    for i in 0..runs.len() {
        if runs[i].is_closed && !is_certified(certificates, i + 1) {
            return false;
        }
    }
    true
}

/// Whether none of the runs is of a day after that day.
fn are_by(runs: &[Run], last: Day) -> bool
    ensures { IsTrue result ↔ All (λ it. it.day ≤ℤ last) runs.now }
{
    runs.iter().all(|run| run.day <= last)
}

/// Whether the record is there and not ended.
fn is_active(tree: &Tree, record_no: RecordNo) -> bool
    ensures { result
        ≡ is_some_and (numbered tree.now.statuses record_no) (λ status. not (is_ended status)) }
{
    tree.sound();
    tree.has_record(record_no) && tree.status(record_no) != Status::Ended
}

/// Whether each key is the number of a record that is not ended.
fn are_active(tree: &Tree, keys: &[RecordNo]) -> bool
    ensures { IsTrue result
        ↔ All
        (λ r. is_some_and (numbered tree.now.statuses r) (λ status. not (is_ended status)) ≡ true)
        keys.now }
{
    keys.iter().all(|record_no| is_active(tree, *record_no))
}

/// Whether the key at that place is the number.
fn is_key_at(keys: &[RecordNo], at: usize, record_no: RecordNo) -> bool
    ensures yes { IsTrue result → slice_get keys.now at ≡ Some record_no }
    ensures no { result ≡ false → slice_get keys.now at ≡ Some record_no → ⊥ }
{
    at < keys.len() && keys[at] == record_no
}

/// Whether the number of each record that is not ended is a key. Numbers and keys both ascend, so
/// each is passed once.
fn are_active_keyed(tree: &Tree, keys: &[RecordNo]) -> bool
    requires ascend { IsStrictlySortedBy nat_cmp keys.now }
    requires active { All
        (λ r. is_some_and (numbered tree.now.statuses r) (λ status. not (is_ended status)) ≡ true)
        keys.now }
    ensures yes { IsTrue result → (r : ℕ) (status : Status)
        → numbered tree.now.statuses r ≡ Some status → not (is_ended status) ≡ true
        → contains_key (bare_contents keys.now) r ≡ true }
    ensures no { result ≡ false
        → ((r : ℕ) (status : Status) → numbered tree.now.statuses r ≡ Some status
        → not (is_ended status) ≡ true → contains_key (bare_contents keys.now) r ≡ true) → ⊥ }
{
    tree.sound();
    let mut at = 0;
    for before in 0..tree.record_count() {
        let record_no = before + 1;
        if !is_active(tree, record_no) {
            continue;
        }
        if !is_key_at(keys, at, record_no) {
            return false;
        }
        at += 1;
    }
    true
}

/// Whether the keys are the numbers of exactly the records that are not ended.
fn are_active_keys(tree: &Tree, keys: &[RecordNo]) -> bool
    requires { IsStrictlySortedBy nat_cmp keys.now }
    ensures yes { IsTrue result → AreActiveKeys tree.now.statuses (bare_contents keys.now) }
    ensures no { result ≡ false → AreActiveKeys tree.now.statuses (bare_contents keys.now) → ⊥ }
{
    if !are_active(tree, keys) {
        return false;
    }
    are_active_keyed(tree, keys)
}

/// Whether only the last run is open, and the certificates are those of exactly the closed runs.
fn do_runs_agree(runs: &[Run], certificates: &BTreeMap<RunNo, Certificate>) -> bool
    ensures yes { IsTrue result
        → RunsAgree runs.now (from_entries {R = nat_cmp} certificates.now.entries) }
    ensures no { result ≡ false
        → RunsAgree runs.now (from_entries {R = nat_cmp} certificates.now.entries) → ⊥ }
{
    if !are_earlier_closed(runs) {
        return false;
    }
    if !are_of_closed_runs(runs, certificates) {
        return false;
    }
    are_closed_certified(runs, certificates)
}

/// A run is of its form.
fn well_formed_run(run: &Run)
    ensures { IsWellFormedRun run.now }
{
    let _ = run.day.number();
    let _ = run.by.text();
    let _cursor = run.cursor;
}

/// So is each of the runs.
fn well_formed_runs(runs: &[Run])
    ensures { (n : ℕ) (it : Run) → numbered runs.now n ≡ Some it → IsWellFormedRun it }
{
    for run in runs {
        well_formed_run(run);
    }
}

/// An entry is of its form.
fn well_formed_entry(entry: &Entry)
    ensures { IsWellFormedEntry entry.now }
{
    let _ = entry.class.text();
    let _ = entry.schedule.text();
    let _ = entry.due.number();
    let _ = entry.confirmed_by.text();
    if let Some(hold) = &entry.hold {
        let _ = hold.text();
    }
}

/// So is each of the entries.
fn well_formed_entries(entries: &BTreeMap<(RunNo, RecordNo), Entry>)
    ensures { All IsWellFormedEntry (map.values entries.now) }
{
    for entry in entries.values() {
        well_formed_entry(entry);
    }
}

impl Parts {
    /// Whether only the last run is open, and certificates are there for exactly the closed runs.
    pub(crate) fn do_runs_agree(&self) -> bool
        ensures yes { IsTrue result → RunsAgree self.now.runs self.now.certificates }
        ensures no { result ≡ false → RunsAgree self.now.runs self.now.certificates → ⊥ }
    {
        do_runs_agree(&self.runs, &self.certificates)
    }

    /// Whether no run is of a day after the office's.
    pub(crate) fn are_runs_by(&self) -> bool
        ensures yes { IsTrue result → AreRunsBy self.now.runs self.now.day }
        ensures no { result ≡ false → AreRunsBy self.now.runs self.now.day → ⊥ }
    {
        are_by(&self.runs, self.day)
    }

    /// Whether these are the numbers of exactly the records that are not ended.
    pub(crate) fn are_active_keys(&self, keys: &[RecordNo]) -> bool
        requires { IsStrictlySortedBy nat_cmp keys.now }
        ensures yes { IsTrue result
            → AreActiveKeys self.now.tree.statuses (bare_contents keys.now) }
        ensures no { result ≡ false → AreActiveKeys self.now.tree.statuses (bare_contents keys.now)
            → ⊥ }
    {
        are_active_keys(&self.tree, keys)
    }

    /// Makes known to proofs that runs, entries and the day are of their forms: a call changes
    /// nothing.
    pub(crate) fn formed(&self)
        ensures runs { (n : ℕ) (it : Run) → numbered self.now.runs n ≡ Some it
            → IsWellFormedRun it }
        ensures entries { (run r : ℕ) (e : Entry) → get self.now.entries (run, r) ≡ Some e
            → IsWellFormedEntry e }
        ensures day { IsDayNumber self.now.day }
    {
        well_formed_runs(&self.runs);
        well_formed_entries(&self.entries);
        let _ = self.day.number();
    }
}
