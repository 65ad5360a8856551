//! Who sent a record to an archive.
ghost use Rattle.std.specs.Prelude.{◌≡◌};
ghost use Rattle.std.specs.Option.{option_copied};
ghost use Rattle.office_access.specs.Eyes.{is_sent_in, sender_of, sending_run};

use crate::OfficeView;
use office_records::{RecordNo, Text};
use office_rules::{Outcome, RunNo};

/// Reports whether the run sent the record.
fn is_sent_in<V: OfficeView>(office: &V, record_no: RecordNo, run: RunNo) -> bool
    ensures { result ≡ is_sent_in (V.office office.now) record_no run }
{
    match office.entry(run, record_no) {
        Some(entry) => matches!(entry.outcome, Outcome::Sent),
        None => false,
    }
}

/// Finds the run that sent the record.
fn sending_run<V: OfficeView>(office: &V, record_no: RecordNo) -> Option<RunNo>
    ensures { result ≡ sending_run (V.office office.now) record_no }
{
    for before in 0..office.run_count() {
        if is_sent_in(office, record_no, before + 1) {
            return Some(before + 1);
        }
    }
    None
}

/// Finds who opened the run that sent the record.
pub(crate) fn sender<V: OfficeView>(office: &V, record_no: RecordNo) -> Option<&Text>
    ensures { option_copied result ≡ sender_of (V.office office.now) record_no }
{
    match sending_run(office, record_no) {
        Some(run) => office.run_opener(run),
        None => None,
    }
}
