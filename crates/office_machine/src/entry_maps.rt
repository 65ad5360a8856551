//! Entries and certificates put into their maps.
ghost use Rattle.std.specs.Prelude.{◌≡◌, OnErr, OnOk};
ghost use Rattle.std.specs.FinMap.{from_entries, insert};
ghost use Rattle.std.specs.Ordering.{nat_cmp};
ghost use Rattle.std.specs.String.{string_bytes};
ghost use Rattle.office_rules.specs.State.{entry_cmp};

use crate::certificate::Certificate;
use office_base::Memory;
use office_records::RecordNo;
use office_rules::{Entry, RunNo};
use std::collections::BTreeMap;

/// Puts an entry in under its run and record.
pub(crate) fn put_entry(
    entries: &mut BTreeMap<(RunNo, RecordNo), Entry>,
    entry: Entry,
) -> Result<(), Memory>
    ensures ok { OnOk result
        (from_entries {R = entry_cmp} entries.new.entries
        ≡ insert (from_entries entries.old.entries) (entry.run, entry.record_no) entry) }
    ensures err { OnErr result (entries.new.entries ≡ entries.old.entries) }
{
    entries.insert((entry.run, entry.record_no), entry)?;
    Ok(())
}

/// Puts the text of a certificate in under its run.
pub(crate) fn put_certificate(
    certificates: &mut BTreeMap<RunNo, Certificate>,
    run: RunNo,
    text: String,
) -> Result<(), Memory>
    ensures ok { OnOk result
        (from_entries {R = nat_cmp} certificates.new.entries
        ≡ insert (from_entries certificates.old.entries) run (string_bytes text)) }
    ensures err { OnErr result (certificates.new.entries ≡ certificates.old.entries) }
{
    certificates.insert(run, Certificate::new(text))?;
    Ok(())
}
