//! The search through the holds in force for the least code that covers a record.
ghost use Rattle.std.specs.Prelude.{◌≡◌, Some, filter, slice_get};
ghost use Rattle.std.specs.BTreeSet.{IsOrdered};
ghost use Rattle.std.specs.FinMap.{from_entries, get};
ghost use Rattle.std.specs.Option.{option_copied};
ghost use Rattle.office_records.specs.Lists.{is_some_and};
ghost use Rattle.office_records.specs.Tree.{code_cmp};
ghost use Rattle.office_rules.specs.Holds.{hold_covers};

use crate::Hold;
use office_records::{AggNo, Code, RecordNo};
use std::collections::{BTreeMap, BTreeSet};

/// Whether the hold of that code is there and covers a record that these aggregations contain and
/// that has this class.
fn covers(
    holds: &BTreeMap<Code, Hold>,
    code: &Code,
    record_no: RecordNo,
    above: &[AggNo],
    class: &Code,
) -> bool
    ensures { result
        ≡ is_some_and (get (from_entries {R = code_cmp} holds.now.entries) code.now)
        (λ hold. hold_covers hold record_no above.now (Some class.now)) }
{
    match holds.get(code) {
        Some(hold) => hold.covers(record_no, above, class),
        None => false,
    }
}

/// The first of the codes whose hold covers a record that these aggregations contain and that has
/// this class.
pub(crate) fn first_covering<'a>(
    holds: &BTreeMap<Code, Hold>,
    codes: &'a BTreeSet<Code>,
    record_no: RecordNo,
    above: &[AggNo],
    class: &Code,
) -> Option<&'a Code>
    ensures value { option_copied result
        ≡ slice_get
        (filter
        (λ code. is_some_and (get (from_entries {R = code_cmp} holds.now.entries) code)
        (λ hold. hold_covers hold record_no above.now (Some class.now))) codes.now.keys)
        0 }
    ensures ordered { IsOrdered code_cmp codes.now }
{
    for code in codes.iter() {
        if covers(holds, code, record_no, above, class) {
            return Some(code);
        }
    }
    None
}
