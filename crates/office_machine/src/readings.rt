//! What is read of one record, of entries and of certificates.
ghost use Rattle.std.specs.Prelude.{◌≡◌, ◌↔◌, IfOk, IsSome, IsTrue, None, Ok, Some};
ghost use Rattle.std.specs.FinMap.{from_entries, get, values};
ghost use Rattle.std.specs.Option.{option_copied, option_map};
ghost use Rattle.std.specs.String.{string_bytes};
ghost use Rattle.office_records.specs.Lists.{numbered};
ghost use Rattle.office_records.specs.Tree.{has_record};
ghost use Rattle.office_records.specs.declared.status.Status.TheVariants.{Ended};
ghost use Rattle.office_rules.specs.Readings.{all_entries_of, ending_entry, record_view};
ghost use Rattle.office_rules.specs.Sound.{IsSoundOffice};
ghost use Rattle.office_rules.specs.State.{entry_cmp};

use crate::RecordView;
use crate::parts::Parts;
use office_base::Memory;
use office_records::{Confirmation, RecordNo, Status};
use office_rules::{Entry, RunNo, copy_code, copy_codes, copy_entry, copy_texts};
use std::alloc::Global;
use std::collections::BTreeMap;

/// A second confirmation that is equal to this one, if there is one.
fn copy_confirmation(
    alloc: Global,
    confirmation: Option<&Confirmation>,
) -> Result<Option<Confirmation>, Memory>
    ensures { IfOk result (λ c. c ≡ option_copied confirmation.entry) }
{
    match confirmation {
        Some(confirmation) => Ok(Some(confirmation.copy(alloc)?)),
        None => Ok(None),
    }
}

/// Copies of all the entries, in their order.
fn copy_entries(
    alloc: Global,
    entries: &BTreeMap<(RunNo, RecordNo), Entry>,
) -> Result<Vec<Entry>, Memory>
    ensures { IfOk result
        (λ all. all.items ≡ values (from_entries {R = entry_cmp} entries.now.entries)) }
{
    let mut all = Vec::with_capacity(alloc, entries.len())?;
    for entry in entries.values() {
        all.push(copy_entry(alloc, entry)?)?;
    }
    Ok(all)
}

impl Parts {
    /// Whether the record is there and is ended.
    fn is_ended(&self, record_no: RecordNo) -> bool
        ensures { IsTrue result ↔ (numbered self.now.tree.statuses record_no ≡ Some Ended) }
    {
        self.tree.sound();
        self.tree.has_record(record_no) && matches!(self.tree.status(record_no), Status::Ended)
    }

    /// The entry of the first run that ended the record.
    fn first_ending(&self, record_no: RecordNo) -> Option<&Entry>
        requires { IsSoundOffice self.now }
        ensures { option_copied result ≡ ending_entry self.now record_no }
    {
        for before in 0..self.run_count() {
            if let Some(entry) = self.entries.get(&(before + 1, record_no)) {
                if entry.outcome.is_ending() {
                    return Some(entry);
                }
            }
        }
        None
    }

    /// The entry that ended the record; `None` where it is not ended or not there, which takes no
    /// memory.
    pub(crate) fn entry_that_ended(
        &self,
        alloc: Global,
        record_no: RecordNo,
    ) -> Result<Option<Entry>, Memory>
        requires { IsSoundOffice self.now }
        ensures read { IfOk result (λ entry. entry ≡ ending_entry self.now record_no) }
        ensures absent { ending_entry self.now record_no ≡ None → result ≡ Ok None }
    {
        if !self.is_ended(record_no) {
            return Ok(None);
        }
        match self.first_ending(record_no) {
            Some(entry) => Ok(Some(copy_entry(alloc, entry)?)),
            None => Ok(None),
        }
    }

    /// The entry of that run about the record; `None` if there is none.
    pub(crate) fn entry(&self, run: RunNo, record_no: RecordNo) -> Option<&Entry>
        ensures { option_copied result ≡ get self.now.entries (run, record_no) }
    {
        self.entries.get(&(run, record_no))
    }

    /// All entries, by run, then record.
    pub(crate) fn all_entries(&self, alloc: Global) -> Result<Vec<Entry>, Memory>
        ensures { IfOk result (λ all. all.items ≡ all_entries_of self.now) }
    {
        copy_entries(alloc, &self.entries)
    }

    /// The text of the certificate of that run; `None` where it is not closed or not there, which
    /// takes no memory.
    pub(crate) fn certificate(&self, alloc: Global, run: RunNo) -> Result<Option<String>, Memory>
        ensures read { IfOk result
            (λ text. option_map (λ it. string_bytes it) text ≡ get self.now.certificates run) }
        ensures absent { get self.now.certificates run ≡ None → result ≡ Ok None }
    {
        match self.certificates.get(&run) {
            Some(certificate) => Ok(Some(String::from_str(alloc, certificate.text())?)),
            None => Ok(None),
        }
    }

    /// What is reported of a record that is there.
    fn view_of(&self, alloc: Global, record_no: RecordNo) -> Result<RecordView, Memory>
        requires { IsTrue (has_record self.now.tree record_no) }
        ensures read { IfOk result (λ view. Some view ≡ record_view self.now record_no) }
        ensures there { IsSome (record_view self.now record_no) }
    {
        let tree = &self.tree;
        let head = tree.record(record_no);
        let digest = head.digest;
        let status = tree.status(record_no);
        let action = tree.schedule_of(record_no).action;
        let due = tree.due_of(record_no);
        let counts = tree.counts(record_no);
        let held = copy_code(alloc, self.holds.covering(tree, record_no))?;
        let confirmed = copy_confirmation(alloc, head.confirmation.as_ref())?;
        let (class, schedule) = copy_codes(
            alloc,
            tree.class_of(record_no),
            tree.plan_of(record_no),
        )?;
        let (ref_text, title) = copy_texts(alloc, &head.ref_text, &head.title)?;
        Ok(RecordView {
            number: record_no,
            ref_text,
            title,
            originated: head.originated,
            added: head.added,
            aggregation: head.aggregation,
            length: head.length,
            digest,
            status,
            class,
            schedule,
            action,
            due,
            event: tree.event_day(record_no),
            held,
            confirmed,
            counts,
        })
    }

    /// What is reported of the record; `None` where it is not there, which takes no memory.
    pub(crate) fn view(
        &self,
        alloc: Global,
        record_no: RecordNo,
    ) -> Result<Option<RecordView>, Memory>
        ensures read { IfOk result (λ view. view ≡ record_view self.now record_no) }
        ensures absent { record_view self.now record_no ≡ None → result ≡ Ok None }
    {
        if !self.tree.has_record(record_no) {
            return Ok(None);
        }
        Ok(Some(self.view_of(alloc, record_no)?))
    }
}
