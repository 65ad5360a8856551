//! What a desk reports of its office.
ghost use Rattle.std.specs.Prelude.{◌≡◌, ◌≢◌, Err, IfErr, IsTrue, None, Ok, OnOk, false};
ghost use Rattle.std.specs.FinMap.{get};
ghost use Rattle.std.specs.Option.{option_map};
ghost use Rattle.std.specs.String.{string_bytes};
ghost use Rattle.office_rules.specs.Readings.{IsDueList, IsOverdueList, all_entries_of, ending_entry, record_view};
ghost use Rattle.office_rules.specs.Registers.{AreDueRows, AreOverdueRows, entry_rows};
ghost use Rattle.office_desk.specs.Calling.{Reads};

use crate::Desk;
use office_days::{ConfirmDays, Day};
use office_machine::{DueRows, EntryRows, Machine};
use office_records::RecordNo;
use office_rules::{Entry, RecordView, RunNo};
use office_store::Fault;
use sqlite::Alter;

impl<S: Alter> Desk<S> {
    /// Gives the office in memory, by which its readings are reached; that of a poisoned desk may
    /// not be the one of the tables.
    pub fn machine(&self) -> &Machine
        ensures { result.now ≡ self.now.office }
    {
        &self.machine
    }

    /// Refuses where the desk was poisoned.
    fn check_open(&self) -> Result<(), Fault>
        ensures ok { OnOk result (self.now.is_poisoned ≡ false) }
        ensures err { IfErr result (λ fault. (fault ≡ Fault.Reopen) × IsTrue self.now.is_poisoned) }
    {
        if self.is_poisoned {
            return Err(Fault::Reopen);
        }
        Ok(())
    }

    /// What is reported of the record; `None` where it is not there, which takes no memory.
    /// `Memory` where a growth was refused, `Reopen` where the desk was poisoned.
    pub fn record(&self, record_no: RecordNo) -> Result<Option<RecordView>, Fault>
        ensures reads { Reads self.now (λ view. view ≡ record_view self.now.office record_no)
            result }
        ensures absent { self.now.is_poisoned ≡ false
            → record_view self.now.office record_no ≡ None → result ≡ Ok None }
    {
        self.check_open()?;
        Ok(self.machine.record(record_no)?)
    }

    /// The entry that ended the record; `None` where it is not ended or not there, which takes no
    /// memory. Faults as of `record`.
    pub fn entry_of(&self, record_no: RecordNo) -> Result<Option<Entry>, Fault>
        ensures reads { Reads self.now (λ entry. entry ≡ ending_entry self.now.office record_no)
            result }
        ensures absent { self.now.is_poisoned ≡ false
            → ending_entry self.now.office record_no ≡ None → result ≡ Ok None }
    {
        self.check_open()?;
        Ok(self.machine.entry_of(record_no)?)
    }

    /// All entries, by run, then record. Faults as of `record`.
    pub fn entries(&self) -> Result<Vec<Entry>, Fault>
        ensures { Reads self.now (λ all. all.items ≡ all_entries_of self.now.office) result }
    {
        self.check_open()?;
        Ok(self.machine.entries()?)
    }

    /// The text of the certificate of that run; `None` where it is not closed or not there, which
    /// takes no memory. Faults as of `record`.
    pub fn certificate(&self, run: RunNo) -> Result<Option<String>, Fault>
        ensures reads { Reads self.now
            (λ text. option_map (λ it. string_bytes it) text ≡ get self.now.office.certificates run)
            result }
        ensures absent { self.now.is_poisoned ≡ false
            → get self.now.office.certificates run ≡ None → result ≡ Ok None }
    {
        self.check_open()?;
        Ok(self.machine.certificate(run)?)
    }

    /// The due list of the day: the records that are here and due on it or before it, by due day,
    /// then number. Faults as of `record`.
    pub fn due_list(&self, day: Day) -> Result<Vec<RecordNo>, Fault>
        ensures { Reads self.now (λ list. IsDueList self.now.office.tree day list.items) result }
    {
        self.check_open()?;
        Ok(self.machine.due_list(day)?)
    }

    /// What is reported of the records that are due on the day, row by row, in the order of the due
    /// list. Faults as of `record`.
    pub fn due_rows(&self, day: Day) -> Result<DueRows<'_>, Fault>
        ensures { Reads self.now (λ rows. AreDueRows self.now.office day rows) result }
    {
        self.check_open()?;
        Ok(self.machine.due_rows(day)?)
    }

    /// What is overdue on the day: the records that are here whose deadline, so many days after the
    /// due day, is before it, and of which no confirmation counts; by deadline, then number. Faults
    /// as of `record`.
    pub fn overdue_list(&self, day: Day, days: ConfirmDays) -> Result<Vec<RecordNo>, Fault>
        ensures { Reads self.now (λ list. IsOverdueList self.now.office.tree day days list.items)
            result }
    {
        self.check_open()?;
        Ok(self.machine.overdue_list(day, days)?)
    }

    /// The rows of what is overdue on the day, in the order of that list. Faults as of `record`.
    pub fn overdue_rows(&self, day: Day, days: ConfirmDays) -> Result<DueRows<'_>, Fault>
        ensures { Reads self.now (λ rows. AreOverdueRows self.now.office day days rows) result }
    {
        self.check_open()?;
        Ok(self.machine.overdue_rows(day, days)?)
    }

    /// What is reported of all entries, row by row, by run, then record. `Reopen` where the desk
    /// was poisoned.
    pub fn entry_rows(&self) -> Result<EntryRows<'_>, Fault>
        ensures reads { Reads self.now (λ rows. rows ≡ entry_rows self.now.office) result }
        ensures room { result ≢ Err Fault.Memory }
    {
        self.check_open()?;
        Ok(self.machine.entry_rows())
    }
}
